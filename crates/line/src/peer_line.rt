ghost use Rattle.std.specs.Prelude.{◌≡◌, ℕ, ◌+◌, ◌-◌, ◌*◌, ◌<◌, ◌≤◌, min, not, true, ◌++◌, length, take, drop};
ghost use Rattle.std.specs.Option.{option_map};
ghost use Rattle.line.specs.Model.{fresh};
ghost use Rattle.line.specs.Calls.{tight, laid, names_of};
ghost use Rattle.line.specs.Buffers.{laid_at};
ghost use Rattle.line.specs.Layout.{head_of, records, written_all};
ghost use Rattle.line.specs.Peers.{sized, kept};
ghost use Rattle.line.specs.Transcripts.{sense, sound, name_in, pieces_in, fresh_state, opened_state, put_state, if_fits, waiting_in, shaken_in};

use crate::laying::lay_parts;
use crate::line::Standing;
use crate::peer::{MAX_ANSWER, Peer};
use crate::record::{Letter, Trust, head_of};
use crate::state::State;
use crate::visit::Visit;

// How many of the bytes lent for a transcript serve.
const MAX_TRANSCRIPT: usize = 1_000_000;

// How many bytes a piece may have.
const MAX_PIECE: usize = 43_693;

// A line to a peer, whose transcript goes into lent bytes, of which the first 1,000,000 serve.
// The caller lends them: nothing is taken from a heap, so that no call fails for want of memory.
#[derive(Drop)]
pub struct PeerLine<'o, P: Peer> {
    pub(crate) peer: P,
    pub(crate) out: &'o mut [u8],
    pub(crate) state: State,
    // what the line keeps for the peer of the visit
    pub(crate) note: Option<u8>,
    ghost within: { state.used ≤ length out.now },
    ghost few: { state.used ≤ 1000000 },
    ghost short: { state.long ≤ 253 },
    ghost sound: { sound (take state.used out.now) state ≡ true },
    ghost noted: { kept (P.noted peer (name_in (take state.used out.now) state) (pieces_in (take state.used out.now) state)) note ≡ true },
}

impl<'o, P: Peer> PeerLine<'o, P> {
    // A fresh line to a peer, with the bytes for its transcript.
    pub fn new(peer: P, transcript: &'o mut [u8]) -> PeerLine<'o, P>
        ensures peer { result.peer ≡ peer }
        ensures state { result.state ≡ fresh_state }
        ensures means { sense (P.rule result.peer) (take result.state.used result.out.now) (length result.out.now) result.state ≡ fresh (min 1000000 (length transcript.old)) (P.rule peer) }
        ensures same { result.out.ghost_name ≡ transcript.entry.ghost_name }
        ensures kept { result.out.now ≡ transcript.old }
    {
        let state = State::fresh();
        PeerLine {
            peer,
            out: transcript,
            state,
            note: None,
        }
    }

    // The transcript: its records as they are written, one after the other.
    pub fn transcript(&self) -> &[u8]
        ensures front { result.now ≡ take self.now.state.used self.now.out.now }
        ensures text { result.now ≡ written_all (records (take self.now.state.used self.now.out.now)) }
    {
        &self.out[..self.state.used]
    }

    // The room that is left for records, each with the 12 bytes before it.
    pub(crate) fn room_left(&self) -> usize
        ensures { result ≡ min 1000000 (length self.now.out.now) - self.now.state.used }
    {
        self.out
            .len()
            .min(MAX_TRANSCRIPT)
            .saturating_sub(self.state.used)
    }

    // Whether a piece of `n` bytes may be put: it has at most 43,693, and with the 12 before it room.
    fn fits(&self, n: usize) -> bool
        ensures { result ≡ not (tight (min 1000000 (length self.now.out.now) - self.now.state.used) n) }
    {
        n <= MAX_PIECE && n + 12 <= self.room_left()
    }

    // Where the line stands once a name is opened; none where there is no room for its record.
    pub(crate) fn once_opened(&self, host: &[u8]) -> Option<State>
        ensures { result ≡ if_fits (length self.now.out.now) self.now.state (length host.now + 2) (opened_state self.now.state (length host.now)) }
    {
        let state = self.state;
        let n = host.len();
        if !self.fits(n + 2) {
            return None;
        }
        let used = state.used + (12 + (n + 2));
        Some(State {
            used,
            visit: state.visit + 1,
            start: used,
            at: state.used + 12,
            long: n,
            clear: 0,
            covered: 0,
            standing: Standing::Clear,
            due: true,
        })
    }

    // Where it stands once a piece is put; none where there is no room for its record.
    pub(crate) fn once_put(&self, piece: &[u8]) -> Option<State>
        ensures { result ≡ if_fits (length self.now.out.now) self.now.state (length piece.now) (put_state self.now.state (length piece.now)) }
    {
        let state = self.state;
        let n = piece.len();
        if !self.fits(n) {
            return None;
        }
        let used = state.used + (12 + n);
        if state.standing.is_covered() {
            Some(State {
                used,
                covered: state.covered + 1,
                due: true,
                ..state
            })
        } else {
            Some(State {
                used,
                clear: state.clear + 1,
                due: true,
                ..state
            })
        }
    }

    // Writes a record behind what is written: its bytes are a text and an ending.
    pub(crate) fn write_record(&mut self, visit: usize, letter: Letter, text: &[u8], ending: &[u8])
        requires { self.old.state.used + (12 + (length text.now + length ending.now)) ≤ length self.old.out.now }
        ensures laid { self.new.out.now ≡ laid_at self.old.state.used (head_of visit letter (length text.now + length ending.now) ++ (text.now ++ ending.now)) self.old.out.now }
        ensures state { self.new.state ≡ self.old.state }
        ensures peer { self.new.peer ≡ self.old.peer }
        ensures same { self.new.out.ghost_name ≡ self.old.out.ghost_name }
    {
        let at = self.state.used;
        let head = head_of(visit, letter, text.len() + ending.len());
        let out = &mut *self.out;
        lay_parts(out, at, &head, text, ending);
    }

    // The visit as the peer sees it.
    fn visit_now(&self) -> Visit<'_>
        ensures number { result.number ≡ self.now.state.visit }
        ensures name { result.name.now ≡ name_in (take self.now.state.used self.now.out.now) self.now.state }
        ensures pieces { result.pieces.now ≡ drop self.now.state.start (take self.now.state.used self.now.out.now) }
    {
        let state = self.state;
        Visit {
            number: state.visit,
            name: &self.out[state.at..state.at + state.long],
            pieces: &self.out[state.start..state.used],
            clear: state.clear,
            covered: state.covered,
        }
    }

    // Asks the peer for the reply, if one is due.
    pub(crate) fn ask_reply(&self, reply: &mut [u8; MAX_ANSWER]) -> Option<usize>
        ensures answer { result ≡ option_map length (waiting_in (P.rule self.now.peer) (take self.now.state.used self.now.out.now) self.now.state) }
        ensures buffer { reply.new ≡ laid (waiting_in (P.rule self.now.peer) (take self.now.state.used self.now.out.now) self.now.state) reply.old }
    {
        if !self.state.due {
            return None;
        }
        self.peer.reply_noted(self.note, self.visit_now(), reply)
    }

    // Asks the peer for a handshake.
    pub(crate) fn ask_handshake(&self, names: &mut [u8; MAX_ANSWER]) -> Option<(Trust, usize)>
        ensures answer { result ≡ option_map sized (shaken_in (P.rule self.now.peer) (take self.now.state.used self.now.out.now) self.now.state) }
        ensures buffer { names.new ≡ laid (names_of (shaken_in (P.rule self.now.peer) (take self.now.state.used self.now.out.now) self.now.state)) names.old }
    {
        self.peer
            .handshake_noted(self.note, self.visit_now(), names)
    }
}
