ghost use Rattle.std.specs.Prelude.{◌≡◌, ℕ, ◌≤◌, true, List, length};
ghost use Rattle.line.specs.Model.{Meaning, Connection, Record, Rule, Shown, stance, piece_count, idle};
ghost use Rattle.line.specs.Calls.{opening, putting, taking, reply_buffer, covering, names_buffer, closing};

use crate::record::Trust;
use smtp::Refusal;

// How a line stands.
#[derive(Clone, Copy, PartialEq, Eq, Debug)]
pub enum Standing {
    Closed,
    Clear,
    Covered,
}

// A connection to one host after another, one visit each. What each call answers, what the line means then and what a
// buffer holds then are given by definitions over the line's meaning, for every input; a refused call alters nothing.
pub trait Line {
    ghost meaning: { Self → Meaning };

    ghost standing: { Self → Connection };

    ghost transcript: { Self → List Record };

    ghost rule: { Self → Rule };

    // the ghost name of the bytes that the line was lent to write its transcript to, which no call alters: each call says so
    // itself, since it is a fact of its end beside its beginning and of no one line
    ghost lent: { Self → ℕ };

    // Opens a visit to a host: 7 if the name is no host name, 11 unless closed, 12.
    fn open(&mut self, name: &[u8]) -> Result<(), Refusal>
        ensures same { lent self.new ≡ lent self.old }
        ensures shown { Shown (meaning self.new) (standing self.new) (transcript self.new) (rule self.new) }
        ensures answer { result ≡ (opening (meaning self.old) name.now).answer }
        ensures after { meaning self.new ≡ (opening (meaning self.old) name.now).after };

    // Puts a piece: 11 if closed, 12.
    fn put(&mut self, piece: &[u8]) -> Result<(), Refusal>
        ensures same { lent self.new ≡ lent self.old }
        ensures shown { Shown (meaning self.new) (standing self.new) (transcript self.new) (rule self.new) }
        ensures answer { result ≡ (putting (meaning self.old) piece.now).answer }
        ensures after { meaning self.new ≡ (putting (meaning self.old) piece.now).after };

    // Takes the reply that is due: 10 for a buffer under 4,096, 11 if closed. Its length, or none where it is lost.
    fn take(&mut self, reply: &mut [u8]) -> Result<Option<usize>, Refusal>
        ensures same { lent self.new ≡ lent self.old }
        ensures shown { Shown (meaning self.new) (standing self.new) (transcript self.new) (rule self.new) }
        ensures answer { result ≡ (taking (meaning self.old) (length reply.old)).answer }
        ensures after { meaning self.new ≡ (taking (meaning self.old) (length reply.old)).after }
        ensures buffer { reply.new ≡ reply_buffer (meaning self.old) reply.old };

    // Covers the line by a handshake: 10 for a buffer under 4,096, 11 unless clear. The trust and the length of the names
    // text, or none where it is lost.
    fn cover(&mut self, names: &mut [u8]) -> Result<Option<(Trust, usize)>, Refusal>
        ensures same { lent self.new ≡ lent self.old }
        ensures shown { Shown (meaning self.new) (standing self.new) (transcript self.new) (rule self.new) }
        ensures answer { result ≡ (covering (meaning self.old) (length names.old)).answer }
        ensures after { meaning self.new ≡ (covering (meaning self.old) (length names.old)).after }
        ensures buffer { names.new ≡ names_buffer (meaning self.old) names.old };

    // Closes the line: 11 if closed.
    fn close(&mut self) -> Result<(), Refusal>
        ensures same { lent self.new ≡ lent self.old }
        ensures shown { Shown (meaning self.new) (standing self.new) (transcript self.new) (rule self.new) }
        ensures answer { result ≡ (closing (meaning self.old)).answer }
        ensures after { meaning self.new ≡ (closing (meaning self.old)).after };

    // How the line stands.
    fn standing(&self) -> Standing
        ensures is { result ≡ stance (meaning self.now).standing }
        ensures shown { Shown (meaning self.now) (standing self.now) (transcript self.now) (rule self.now) }
        ensures quiet { idle (meaning self.now) ≡ true };

    // The number of the visit, or of the last one where the line is closed.
    fn visit(&self) -> usize
        ensures { result ≡ (meaning self.now).visit };

    // The room that is left.
    fn room(&self) -> usize
        ensures is { result ≡ (meaning self.now).room }
        ensures most { result ≤ 1000000 };

    // How many pieces were put in this visit; none where the line is closed.
    fn pieces(&self) -> usize
        ensures { result ≡ piece_count (meaning self.now).standing };

    // Of every line: the standing, the transcript and the rule are those of its meaning. A caller through `dyn Line` cannot cite a law,
    // so that each call says it too.
    ghost shown: { (line : Self) → Shown (meaning line) (standing line) (transcript line) (rule line) };
}
