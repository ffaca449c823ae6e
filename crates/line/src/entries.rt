ghost use Rattle.std.specs.Prelude.{◌≡◌};
ghost use Rattle.std.specs.Iterator.{item_count};
ghost use Rattle.line.specs.Entries.{left, records_left, Hands};

use crate::record::Entry;
use smtp::bytes::from;

// The records of a text that are still to be handed out, one after the other, up to the first place where none stands.
#[derive(Drop)]
pub struct Entries<'r> {
    rest: &'r [u8],
}

impl<'r> Entries<'r> {
    // The records of a text, from its front on.
    pub fn of(text: &'r [u8]) -> Entries<'r>
        ensures { left result ≡ text.now }
    {
        Entries { rest: text }
    }

    // What is not handed out: once no record is left, nothing where the text was records to its end.
    pub fn rest(&self) -> &'r [u8]
        ensures { result.now ≡ left self.now }
    {
        self.rest
    }
}

impl<'r> Iterator for Entries<'r> {
    type Item = Entry<'r>;

    ghost next_gives = { Hands };

    ghost remaining = { item_count records_left };

    fn next(&mut self) -> Option<Entry<'r>> {
        let entry = Entry::read(self.rest)?;
        *self = Entries::of(from(self.rest, entry.size()));
        Some(entry)
    }
}
