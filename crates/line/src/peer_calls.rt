ghost use Rattle.std.specs.Prelude.{length, take, refl};
ghost use Rattle.line.specs.Layout.{records};
ghost use Rattle.line.specs.Transcripts.{sense};

use crate::line::{Line, Standing};
use crate::peer::{MAX_ANSWER, Peer};
use crate::peer_line::PeerLine;
use crate::record::{Letter, Trust};
use smtp::Refusal;
use smtp::names::is_host_name;

impl<'o, P: Peer> Line for PeerLine<'o, P> {
    ghost meaning = { λ s. sense (P.rule s.peer) (take s.state.used s.out.now) (length s.out.now) s.state };

    ghost standing = { λ s. (sense (P.rule s.peer) (take s.state.used s.out.now) (length s.out.now) s.state).standing };

    ghost transcript = { λ s. records (take s.state.used s.out.now) };

    ghost rule = { λ s. P.rule s.peer };

    ghost lent = { λ s. s.out.ghost_name };

    fn open(&mut self, host: &[u8]) -> Result<(), Refusal> {
        if !is_host_name(host) {
            return Err(Refusal::BadHost);
        }
        if !self.state.standing.is_closed() {
            return Err(Refusal::WrongStanding);
        }
        let opened = self.once_opened(host).ok_or(Refusal::NoRoom)?;
        let note = self.peer.note_opened(host);
        self.write_record(opened.visit, Letter::Opened, host, b"\r\n");
        self.state = opened;
        self.note = note;
        Ok(())
    }

    fn put(&mut self, piece: &[u8]) -> Result<(), Refusal> {
        let state = self.state;
        if state.standing.is_closed() {
            return Err(Refusal::WrongStanding);
        }
        let put = self.once_put(piece).ok_or(Refusal::NoRoom)?;
        let note = self.note;
        let note = self.peer.note_put(note, state.standing.is_covered(), piece);
        self.write_record(state.visit, state.standing.piece_letter(), piece, b"");
        self.state = put;
        self.note = note;
        Ok(())
    }

    fn take(&mut self, reply: &mut [u8]) -> Result<Option<usize>, Refusal> {
        let front = reply
            .first_chunk_mut::<MAX_ANSWER>()
            .ok_or(Refusal::ShortBuffer)?;
        let state = self.state;
        if state.standing.is_closed() {
            return Err(Refusal::WrongStanding);
        }
        let taken = self.ask_reply(front);
        self.state = state.answered(taken.is_some(), state.standing);
        Ok(taken)
    }

    fn cover(&mut self, names: &mut [u8]) -> Result<Option<(Trust, usize)>, Refusal> {
        let front = names
            .first_chunk_mut::<MAX_ANSWER>()
            .ok_or(Refusal::ShortBuffer)?;
        let state = self.state;
        if !state.standing.is_clear() {
            return Err(Refusal::WrongStanding);
        }
        let shaken = self.ask_handshake(front);
        self.state = state.answered(shaken.is_some(), Standing::Covered);
        Ok(shaken)
    }

    fn close(&mut self) -> Result<(), Refusal> {
        if self.state.standing.is_closed() {
            return Err(Refusal::WrongStanding);
        }
        self.state = self.state.quiet(Standing::Closed);
        Ok(())
    }

    fn standing(&self) -> Standing {
        self.state.standing
    }

    fn visit(&self) -> usize {
        self.state.visit
    }

    fn room(&self) -> usize {
        self.room_left()
    }

    fn pieces(&self) -> usize {
        let state = self.state;
        if state.standing.is_closed() {
            0
        } else {
            state.clear + state.covered
        }
    }

    ghost shown = { λ line. record { stands = refl; wrote = refl; ruled = refl } };
}
