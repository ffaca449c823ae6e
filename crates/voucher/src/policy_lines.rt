ghost use Rattle.std.specs.Prelude.{◌≡◌, length};
ghost use Rattle.std.specs.Iterator.{YieldsFirstBy, at_most};
ghost use Rattle.std.specs.List.{list_all};
ghost use Rattle.smtp.specs.Parts.{behind_first};
ghost use Rattle.voucher.specs.PolicyLines.{lines, without_cr, unled, untrailed, key as key_in, value as value_in, key_byte, line_byte, is_key, is_field};

use smtp::bytes::{from, part_len, upto};

// A line that LF ends, without the CR before the LF.
#[tactic(auto, using(crate::proofs::Lined::cr_last, crate::proofs::Lined::cr_none))]
fn without_cr(line: &[u8]) -> &[u8]
    ensures { result.now ≡ without_cr line.now }
{
    match line {
        [front @ .., b'\r'] => front,
        _ => line,
    }
}

// Without the blanks and tabs at the front.
fn without_leading(mut s: &[u8]) -> &[u8]
    ensures { result.now ≡ unled s.entry.now }
{
    while let [b' ' | b'\t', rest @ ..] = s {
        s = rest;
    }
    s
}

// Without the blanks and tabs at the end.
#[tactic(auto, using(crate::proofs::Lined::blank_last, crate::proofs::Lined::blank_none))]
fn without_trailing(mut s: &[u8]) -> &[u8]
    ensures { result.now ≡ untrailed s.entry.now }
{
    while let [front @ .., b' ' | b'\t'] = s {
        s = front;
    }
    s
}

// Whether all bytes may stand in a key from its second on: letters, digits, `_`, `-` and `.`.
fn are_key_bytes(s: &[u8]) -> bool
    ensures { result ≡ list_all key_byte s.now }
{
    s.iter().all(|b| b.is_ascii_alphanumeric() || matches!(*b, b'_' | b'-' | b'.'))
}

// Whether all bytes may stand in a line: any but the control characters, of which the tab may.
fn are_line_bytes(s: &[u8]) -> bool
    ensures { result ≡ list_all line_byte s.now }
{
    s.iter().all(|b| *b == b'\t' || !b.is_ascii_control())
}

// Whether a text is a key: a letter or digit, then at most 31 letters, digits, `_`, `-` and `.`.
#[tactic(auto, using(crate::proofs::Lined::is_key_cut))]
fn is_key(key: &[u8]) -> bool
    ensures { result ≡ is_key key.now }
{
    match key {
        [first, rest @ ..] => first.is_ascii_alphanumeric()
            && rest.len() <= 31
            && are_key_bytes(rest),
        [] => false,
    }
}

// A line of a policy text, cut at its first colon: the key stands before it, and the value behind it. Where there is no colon, the
// whole line is the key, and the value is empty.
#[derive(Clone, Copy)]
pub(crate) struct Field<'t> {
    line: &'t [u8],
    pub(crate) key: &'t [u8],
    behind: &'t [u8],
    ghost keyed: { key.now ≡ key_in line.now },
    ghost parted: { behind.now ≡ behind_first 58 line.now },
}

impl<'t> Field<'t> {
    #[tactic(auto, using(smtp::proofs::Parted::take_first, smtp::proofs::Parted::drop_behind))]
    fn of(line: &'t [u8]) -> Field<'t>
        ensures { result.line.now ≡ line.now }
    {
        let n = part_len(line, b':');
        Field {
            line,
            key: upto(line, n),
            behind: from(line, n + 1),
        }
    }

    // The value: what stands behind the colon, without the blanks and tabs around. Only here are they taken off, since whoever looks
    // for a key needs no other line's value.
    pub(crate) fn value(&self) -> &'t [u8]
        ensures { result.now ≡ value_in self.now.line.now }
    {
        without_trailing(without_leading(self.behind))
    }

    // Whether the line is a key, a colon and a value.
    pub(crate) fn is_field(&self) -> bool
        ensures { result ≡ is_field self.now.line.now }
    {
        is_key(self.key) && self.key.len() < self.line.len() && are_line_bytes(self.line)
    }
}

// The lines of a policy text that are still to be handed out, each without the LF or CRLF that ends it, and cut at its first colon.
#[derive(Drop)]
pub(crate) struct Fields<'t> {
    rest: &'t [u8],
}

pub(crate) fn fields_of(text: &[u8]) -> Fields<'_>
    ensures { result.rest.now ≡ text.now }
{
    Fields { rest: text }
}

impl<'t> Iterator for Fields<'t> {
    type Item = Field<'t>;

    ghost next_gives = { YieldsFirstBy (λ field. field.line.now) (λ s. lines s.rest.now) };

    ghost remaining = { λ s. at_most (length s.rest.now) };

    #[tactic(auto, using(crate::proofs::Lined::lines_more, crate::proofs::Lined::lines_last, crate::proofs::Lined::lines_none))]
    fn next(&mut self) -> Option<Field<'t>> {
        let rest = self.rest;
        if rest.is_empty() {
            return None;
        }
        let n = part_len(rest, b'\n');
        self.rest = from(rest, n + 1);
        if n < rest.len() {
            Some(Field::of(without_cr(upto(rest, n))))
        } else {
            Some(Field::of(rest))
        }
    }
}
