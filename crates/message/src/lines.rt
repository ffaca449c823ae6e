ghost use Rattle.std.specs.Prelude.{◌≡◌, ℕ, ◌≤◌, Bool, List, length, take_while};
ghost use Rattle.std.specs.Iterator.{YieldsFirstRef, at_most};
ghost use Rattle.message.specs.Lines.{lines_of, joined, Computes};

use smtp::bytes::{from, part_len, upto};

// The lines of a text that are still to be handed out, each with the LF that ends it. Not std's `split_inclusive`: its contract says each
// next part, and no lemma of std says the list of the parts, which the loops over lines need.
#[derive(Drop)]
pub(crate) struct Lines<'s> {
    rest: &'s [u8],
}

pub(crate) fn lines_of<'s>(text: &'s [u8]) -> Lines<'s>
    ensures { result.rest.now ≡ text.now }
{
    Lines { rest: text }
}

impl<'s> Iterator for Lines<'s> {
    type Item = &'s [u8];

    ghost next_gives = { YieldsFirstRef (λ s. lines_of s.rest.now) };

    ghost remaining = { λ s. at_most (length s.rest.now) };

    fn next(&mut self) -> Option<&'s [u8]> {
        let rest = self.rest;
        if rest.is_empty() {
            return None;
        }
        let line = upto(rest, part_len(rest, b'\n') + 1);
        self.rest = from(rest, line.len());
        Some(line)
    }
}

// How many bytes the lines take that stand next and pass a test.
pub(crate) fn front_len<F: Fn(&[u8]) -> bool>(lines: Lines<'_>, goes_on: F) -> usize
    requires callable { F.IsAlwaysCallable goes_on }
    requires computes { (test : List ℕ → Bool) × Computes (F.post goes_on) test }
    ensures is { (test : List ℕ → Bool) → Computes (F.post goes_on) test → result ≡ length (joined (take_while test (lines_of lines.entry.rest.now))) }
    ensures within { result ≤ length lines.entry.rest.now }
{
    lines
        .take_while(|line| goes_on(line))
        .map(|line| line.len())
        .sum()
}
