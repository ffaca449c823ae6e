ghost use Rattle.std.specs.Prelude.{◌≡◌, ℕ, ◌+◌, ◌-◌, ◌^◌, ◌<◌, ◌≤◌, length};
ghost use Rattle.std.specs.Option.{option_map};
ghost use Rattle.smtp.specs.Replies.{text_byte, text_len, crlf_first, digits_code, text_line, bare_line, line_at, is_last, width, size};
ghost use Rattle.smtp.specs.WireLines.{line_of};
ghost use Rattle.smtp.specs.Keywords.{is_keyword, listing, lists_part, part_of, seen, size_in};

use crate::bytes::{from, is_label_byte, part_len, same_word, upto};

// What stands between a line's code and its text.
#[derive(Clone, Copy)]
pub(crate) enum Separator {
    // a hyphen: more lines follow
    Hyphen,
    // a blank: the last line
    Blank,
    // nothing: the last line, its digits alone
    Missing,
}

impl Separator {
    pub(crate) fn is_last(self) -> bool
        ensures { result ≡ is_last self }
    {
        matches!(self, Separator::Blank | Separator::Missing)
    }

    pub(crate) fn width(self) -> usize
        ensures { result ≡ width self }
    {
        match self {
            Separator::Hyphen | Separator::Blank => 1,
            Separator::Missing => 0,
        }
    }
}

// A line of a reply as it is handed out: a part of the reply, and its place there.
#[derive(Clone, Copy)]
pub enum ReplyLine<'r> {
    // the first line's text
    Greeting {
        text: &'r [u8],
        place: usize,
    },
    // the keyword that a later line's text starts with, and whether it is the line's whole text
    Keyword {
        word: &'r [u8],
        place: usize,
        alone: bool,
    },
    // the text of any other line
    Other {
        text: &'r [u8],
        place: usize,
    },
}

impl ReplyLine<'_> {
    // Whether it is the word alone on a line, in any letter case.
    pub(crate) fn lists(&self, word: &[u8]) -> bool
        ensures { result ≡ lists_part word.now (seen self.now) }
    {
        match self {
            ReplyLine::Keyword {
                word: found,
                alone,
                ..
            } => *alone && same_word(found, word),
            _ => false,
        }
    }
}

// A line as it stands in the reply, without its CRLF.
#[derive(Clone, Copy)]
pub(crate) struct WireLine<'r> {
    pub(crate) code: u16,
    pub(crate) separator: Separator,
    pub(crate) text: &'r [u8],
}

fn is_text_byte(b: u8) -> bool
    ensures { result ≡ text_byte b }
{
    matches!(b, b'\t' | b' '..=b'~')
}

// How many bytes of text stand at the front.
fn text_len(s: &[u8]) -> usize
    ensures is { result ≡ text_len s.now }
    ensures within { result ≤ length s.now }
{
    s.iter().take_while(|b| is_text_byte(**b)).count()
}

// The code of three digits, if they are 2 to 5, 0 to 5 and 0 to 9.
fn code_of(a: u8, b: u8, c: u8) -> Option<u16>
    ensures { result ≡ digits_code a b c }
{
    match (a, b, c) {
        (b'2'..=b'5', b'0'..=b'5', b'0'..=b'9') => {
            Some((a - b'0') as u16 * 100 + (b - b'0') as u16 * 10 + (c - b'0') as u16)
        }
        _ => None,
    }
}

// Whether CRLF stands at the front.
fn is_crlf(s: &[u8]) -> bool
    ensures { result ≡ crlf_first s.now }
{
    match s {
        [first, second, ..] => *first == b'\r' && *second == b'\n',
        _ => false,
    }
}

// The line whose text begins here and ends at CRLF. With CRLF a line has at most 512 bytes.
fn text_line<'r>(code: u16, separator: Separator, s: &'r [u8]) -> Option<WireLine<'r>>
    ensures { option_map line_of result ≡ text_line code separator s.now }
{
    let n = text_len(s);
    (is_crlf(from(s, n)) && n <= 506).then_some(WireLine {
        code,
        separator,
        text: upto(s, n),
    })
}

// The line of a code alone, behind which CRLF stands.
fn bare_line<'r>(code: u16, s: &'r [u8]) -> Option<WireLine<'r>>
    ensures { option_map line_of result ≡ bare_line code s.now }
{
    is_crlf(s).then_some(WireLine {
        code,
        separator: Separator::Missing,
        text: upto(s, 0),
    })
}

// The line at the front: three digits (2 to 5, 0 to 5, 0 to 9), then a hyphen or a blank and text, or nothing.
pub(crate) fn line_at<'r>(s: &'r [u8]) -> Option<WireLine<'r>>
    ensures is { option_map line_of result ≡ line_at s.now }
    ensures within { size_in (option_map line_of result) ≤ length s.now }
{
    let [a, b, c, separator, rest @ ..] = s else {
        return None;
    };
    let code = code_of(*a, *b, *c)?;
    match *separator {
        b'-' => text_line(code, Separator::Hyphen, rest),
        b' ' => text_line(code, Separator::Blank, rest),
        _ => bare_line(code, from(s, 3)),
    }
}

// Whether a word is a keyword: a letter or digit, then letters, digits and hyphens.
fn is_keyword(word: &[u8]) -> bool
    ensures { result ≡ is_keyword word.now }
{
    match word {
        [first, rest @ ..] => {
            first.is_ascii_alphanumeric() && rest.iter().all(|b| is_label_byte(*b))
        }
        [] => false,
    }
}

// A line that is not the first, by its text and the text's place: the keyword that the text starts with, or the text.
fn listing_of<'r>(text: &'r [u8], place: usize) -> ReplyLine<'r>
    ensures { seen result ≡ listing text.now place }
{
    let n = part_len(text, b' ');
    let word = upto(text, n);
    if is_keyword(word) {
        ReplyLine::Keyword {
            word,
            place,
            alone: n == text.len(),
        }
    } else {
        ReplyLine::Other { text, place }
    }
}

impl<'r> WireLine<'r> {
    // The line's length, its CRLF counted.
    pub(crate) fn size(&self) -> usize
        ensures { result ≡ size (line_of self.now) }
    {
        3 + self.separator.width() + self.text.len() + 2
    }

    // What is handed out of a line that begins at `at`.
    pub(crate) fn part_at(&self, at: usize) -> ReplyLine<'r>
        requires { at < 2 ^ 63 }
        ensures { seen result ≡ part_of at (line_of self.now) }
    {
        let place = at + 3 + self.separator.width();
        if at == 0 {
            ReplyLine::Greeting {
                text: self.text,
                place,
            }
        } else {
            listing_of(self.text, place)
        }
    }
}
