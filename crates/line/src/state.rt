ghost use Rattle.std.specs.Prelude.{◌≡◌};
ghost use Rattle.line.specs.Transcripts.{is_closed, is_clear, is_covered, piece_letter, fresh_state, quiet_state, standing_if};

use crate::line::Standing;
use crate::record::Letter;

// By name and not by `==` at each caller: the calls' clauses speak of these three.
impl Standing {
    pub fn is_closed(self) -> bool
        ensures { result ≡ is_closed self }
    {
        self == Standing::Closed
    }

    pub fn is_clear(self) -> bool
        ensures { result ≡ is_clear self }
    {
        self == Standing::Clear
    }

    pub fn is_covered(self) -> bool
        ensures { result ≡ is_covered self }
    {
        self == Standing::Covered
    }

    // The letter of a piece that is put on a line that stands so.
    pub(crate) fn piece_letter(self) -> Letter
        ensures { result ≡ piece_letter self }
    {
        match self {
            Standing::Closed | Standing::Clear => Letter::Clear,
            Standing::Covered => Letter::Covered,
        }
    }
}

// Where a line stands in the transcript that it keeps in lent bytes.
#[derive(Clone, Copy)]
pub(crate) struct State {
    // how many bytes are written
    pub(crate) used: usize,
    pub(crate) visit: usize,
    // where the records of the visit's pieces begin
    pub(crate) start: usize,
    // where the visit's name stands, and its length
    pub(crate) at: usize,
    pub(crate) long: usize,
    // how many pieces were put in the visit, clear and covered
    pub(crate) clear: usize,
    pub(crate) covered: usize,
    pub(crate) standing: Standing,
    // whether a reply is due
    pub(crate) due: bool,
}

impl State {
    pub(crate) fn fresh() -> State
        ensures { result ≡ fresh_state }
    {
        State {
            used: 0,
            visit: 0,
            start: 0,
            at: 0,
            long: 0,
            clear: 0,
            covered: 0,
            standing: Standing::Closed,
            due: false,
        }
    }

    // Standing so, with no reply due.
    pub(crate) fn quiet(self, standing: Standing) -> State
        ensures { result ≡ quiet_state self standing }
    {
        State {
            standing,
            due: false,
            ..self
        }
    }

    // Once an answer came, standing so, or was lost: no reply is due then, and a lost one closes the line.
    pub(crate) fn answered(self, came: bool, standing: Standing) -> State
        ensures { result ≡ quiet_state self (standing_if came standing) }
    {
        self.quiet(if came { standing } else { Standing::Closed })
    }
}
