ghost use Rattle.std.specs.Prelude.{◌≡◌, length};
ghost use Rattle.message.specs.Content.{plain, lines_from, checked};
ghost use Rattle.message.specs.ContentHold.{ContentHolds};
ghost use Rattle.message.specs.Lines.{header};

use crate::lines::{front_len, lines_of};
use smtp::Refusal;
use smtp::bytes::same_word;

// Whether a byte may stand in a line.
fn is_plain(b: u8) -> bool
    ensures { result ≡ plain b }
{
    matches!(b, 1..=127) && b != b'\n' && b != b'\r'
}

// Whether the content is lines of at most 998 bytes, each with CRLF behind it.
// By index: the project asks for this form here, which checks CR and LF as a pair.
fn is_in_lines(content: &[u8]) -> bool
    ensures { result ≡ lines_from 0 content.now }
{
    // the length of the line so far
    let mut n: usize = 0;
    let mut i = 0;
    while i < content.len() {
        if content[i] == b'\r' {
            if i + 1 >= content.len() || content[i + 1] != b'\n' {
                return false;
            }
            n = 0;
            i += 2;
        } else {
            if n >= 998 || !is_plain(content[i]) {
                return false;
            }
            n += 1;
            i += 1;
        }
    }
    n == 0
}

// Refuses content, or a header section, that breaks its form: at most 32,768 bytes of 1 to 127, in lines of at most 998 and CRLF.
pub fn check_content(content: &[u8]) -> Result<(), Refusal>
    ensures { result ≡ checked content.now }
{
    if content.len() <= 32_768 && is_in_lines(content) {
        Ok(())
    } else {
        Err(Refusal::BadContent)
    }
}

// How many bytes the header takes: the lines before the first empty line, or all.
pub fn header_len(section: &[u8]) -> usize
    ensures { result ≡ length (header section.now) }
{
    front_len(lines_of(section), |line| !same_word(line, b"\r\n"))
}

// Does nothing when it runs; its contract says what the form of content is in words of lines, and what the header is of its section.
pub fn content_hold() -> u8
    ensures { ContentHolds }
{
    0
}
