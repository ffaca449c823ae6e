ghost use Rattle.std.specs.Prelude.{◌≡◌, IsUtf8, Some};
ghost use Rattle.balgwir.specs.Words.{yes_no};

use std::fmt;
use std::str::from_utf8;

// An answer, as it is printed.
#[derive(Clone, Copy)]
pub struct YesNo(pub bool);

impl YesNo {
    // The word for it, in every case. What is printed goes by this and not by `fmt`, whose clause speaks only of where the writing
    // succeeds.
    pub fn word(self) -> &'static str
        ensures { result.now ≡ yes_no self.0 }
    {
        if self.0 { "yes" } else { "no" }
    }
}

impl fmt::Display for YesNo {
    ghost output = { λ answer. Some (yes_no answer.0) };

    fn fmt<W: fmt::Write>(&self, f: &mut fmt::Formatter<W>) -> fmt::Result {
        f.write_str(self.word())
    }
}

// A keyword or a path as text. Each is of bytes below 128, so that it always is text.
pub fn text_of(word: &[u8]) -> &str
    ensures { IsUtf8 word.now → result.now ≡ word.now }
{
    from_utf8(word).unwrap_or("?")
}
