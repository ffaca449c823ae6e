ghost use Rattle.std.specs.Prelude.{◌≡◌, ℕ, true, List, [], ◌∷◌, ◌++◌, length};
ghost use Rattle.std.specs.Option.{option_map};
ghost use Rattle.line.specs.Model.{Bytes, Piece, Rule};
ghost use Rattle.line.specs.Calls.{laid, names_of, piece};
ghost use Rattle.line.specs.Pieces.{pieces_of};
ghost use Rattle.line.specs.Peers.{reply_to, handshake_to, sized, kept};

use crate::record::Trust;
use crate::visit::Visit;

// How long a reply and a names text may be; a longer one is lost.
pub(crate) const MAX_ANSWER: usize = 4096;

// The other side of a line: what it answers in a visit is given by its rule, from the visit's number, the name and the
// pieces put. It lays the answer at the front of a buffer of 4,096 bytes and leaves the rest; a longer answer is lost, and
// where there is none the buffer stays as it was.
pub trait Peer {
    ghost rule: { Self → Rule };

    // What the peer makes of a visit, as a number, by the name and the pieces put. A line keeps it for a peer that would else
    // have to read the pieces again at each question.
    ghost noted: { Self → Bytes → List Piece → ℕ } = { λ _ _ _. 0 };

    // The reply that is due: its length, or none where it is lost.
    fn reply(&self, visit: Visit, buffer: &mut [u8; MAX_ANSWER]) -> Option<usize>
        ensures answer { result ≡ option_map length (reply_to (rule self.now) visit.entry) }
        ensures buffer { buffer.new ≡ laid (reply_to (rule self.now) visit.entry) buffer.old };

    // The answer to a handshake: the trust and the length of the names text, or none where it is lost.
    fn handshake(&self, visit: Visit, names: &mut [u8; MAX_ANSWER]) -> Option<(Trust, usize)>
        ensures answer { result ≡ option_map sized (handshake_to (rule self.now) visit.entry) }
        ensures buffer { names.new ≡ laid (names_of (handshake_to (rule self.now) visit.entry)) names.old };

    // The note of a visit that was opened to a name; none where the peer keeps no note.
    fn note_opened(&self, name: &[u8]) -> Option<u8>
        ensures { kept (noted self.now name.now []) result ≡ true }
    {
        None
    }

    // The note of a visit once a piece went clear or covered.
    fn note_put(&self, note: Option<u8>, covered: bool, bytes: &[u8]) -> Option<u8>
        ensures { (name : Bytes) → (ps : List Piece) → kept (noted self.now name ps) note ≡ true → kept (noted self.now name (ps ++ (piece covered bytes.now ∷ []))) result ≡ true }
    {
        None
    }

    // The reply that is due, by a note of the visit: what `reply` gives.
    fn reply_noted(
        &self,
        note: Option<u8>,
        visit: Visit,
        buffer: &mut [u8; MAX_ANSWER],
    ) -> Option<usize>
        ensures answer { kept (noted self.now visit.entry.name.now (pieces_of visit.entry.pieces.now)) note ≡ true → result ≡ option_map length (reply_to (rule self.now) visit.entry) }
        ensures buffer { kept (noted self.now visit.entry.name.now (pieces_of visit.entry.pieces.now)) note ≡ true → buffer.new ≡ laid (reply_to (rule self.now) visit.entry) buffer.old }
    {
        self.reply(visit, buffer)
    }

    // The answer to a handshake, by a note of the visit: what `handshake` gives.
    fn handshake_noted(
        &self,
        note: Option<u8>,
        visit: Visit,
        names: &mut [u8; MAX_ANSWER],
    ) -> Option<(Trust, usize)>
        ensures answer { kept (noted self.now visit.entry.name.now (pieces_of visit.entry.pieces.now)) note ≡ true → result ≡ option_map sized (handshake_to (rule self.now) visit.entry) }
        ensures buffer { kept (noted self.now visit.entry.name.now (pieces_of visit.entry.pieces.now)) note ≡ true → names.new ≡ laid (names_of (handshake_to (rule self.now) visit.entry)) names.old }
    {
        self.handshake(visit, names)
    }
}
