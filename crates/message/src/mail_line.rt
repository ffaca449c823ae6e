ghost use Rattle.std.specs.Prelude.{◌≡◌, ◌≤◌, true, length, Ok};
ghost use Rattle.std.specs.Option.{option_map};
ghost use Rattle.std.specs.Result.{result_map_both as answered};
ghost use Rattle.message.specs.MailLines.{path_form, mail_line, ending, at_front, writing, buffer_after};
ghost use Rattle.message.specs.MailLinesHold.{FormHolds, PartsHold, PlaceHolds, ReadBack, Ours, WrittenAgain, round_trip, again_in, again_after};
ghost use Rattle.message.specs.MailLinesShown.{MailLinesShown};
ghost use Rattle.message.specs.MailParts.{said, cut, command_of};

use crate::mail_options::Options;
use crate::writer::Writer;
use smtp::bytes::{same_word, upto};
use smtp::names::is_address;
use smtp::refusal::Refusal;

// The longest MAIL line, its CRLF counted, and the least buffer to write one into.
const LONGEST: usize = 523;

// Where the path stands in a line: behind `MAIL FROM:<`.
const PATH_PLACE: usize = 11;

// What a MAIL line says: the path, as a part of the line, the path's place there, and whether it requires TLS on the whole way.
#[derive(Clone, Copy)]
pub struct MailLine<'l> {
    path: &'l [u8],
    // the same in every line; a field, since the place is handed out to C
    place: usize,
    require_tls: bool,
}

// A MAIL line without its first words and CRLF: what stands before and behind its first `>`.
#[derive(Clone, Copy)]
struct Command<'l> {
    path: &'l [u8],
    tail: &'l [u8],
}

// Whether a path is empty or an address.
fn is_path(path: &[u8]) -> bool
    ensures { result ≡ path_form path.now }
{
    path.is_empty() || is_address(path)
}

impl<'l> Command<'l> {
    // Takes a line apart; none where its first words, a `>` or CRLF are missing.
    fn read(line: &'l [u8]) -> Option<Command<'l>>
        ensures { option_map cut result ≡ command_of line.now }
    {
        let body = line.strip_suffix(b"\r\n")?;
        let (words, inner) = body.split_at_checked(PATH_PLACE)?;
        if !same_word(words, b"MAIL FROM:<") {
            return None;
        }
        let n = inner.iter().position(|b| *b == b'>')?;
        Some(Command {
            path: &inner[..n],
            tail: &inner[n + 1..],
        })
    }
}

impl<'l> MailLine<'l> {
    // Reads a MAIL line, which came covered by TLS or not.
    pub fn read(line: &'l [u8], covered: bool) -> Result<MailLine<'l>, Refusal>
        ensures { answered said (λ e. e) result ≡ mail_line line.now covered }
    {
        if line.len() > LONGEST {
            return Err(Refusal::MailLineTooLong);
        }
        let command = Command::read(line).ok_or(Refusal::MailLineForm)?;
        if !is_path(command.path) {
            return Err(Refusal::MailLineForm);
        }
        let options = Options::read(command.tail);
        options.check(covered)?;
        Ok(MailLine {
            path: command.path,
            place: PATH_PLACE,
            require_tls: options.require_tls.is_seen(),
        })
    }

    // The path, a part of the line: empty or an address.
    pub fn path(&self) -> &'l [u8]
        ensures { result.now ≡ self.now.path.now }
    {
        self.path
    }

    // The path's place in the line.
    pub fn place(&self) -> usize
        ensures { result ≡ self.now.place }
    {
        self.place
    }

    // Whether the line has the option REQUIRETLS.
    pub fn require_tls(&self) -> bool
        ensures { result ≡ self.now.require_tls }
    {
        self.require_tls
    }
}

// What stands behind the path of a line that we write: `>`, REQUIRETLS or no option, CRLF.
fn ending(require_tls: bool) -> &'static [u8]
    ensures { result.now ≡ ending require_tls }
{
    if require_tls {
        b"> REQUIRETLS\r\n"
    } else {
        b">\r\n"
    }
}

// Writes a MAIL line at the front of a buffer, in capitals, with REQUIRETLS or no option, and gives its length. What lies behind
// the line stays, and all where the call is refused.
pub fn write_mail_line(path: &[u8], require_tls: bool, out: &mut [u8]) -> Result<usize, Refusal>
    ensures answer { result ≡ writing path.now require_tls (length out.old) }
    ensures buffer { out.new ≡ buffer_after path.now require_tls out.old }
{
    if !is_path(path) {
        return Err(Refusal::BadAddress);
    }
    if out.len() < LONGEST {
        return Err(Refusal::ShortBuffer);
    }
    let mut writer = Writer::new(out);
    writer.put(b"MAIL FROM:<");
    writer.put(path);
    writer.put(ending(require_tls));
    Ok(writer.len())
}

// Writes a path and option as a line, reads that back as one that came covered, and says whether they are the same: they always are.
pub fn mail_round_trip(path: &[u8], require_tls: bool, out: &mut [u8]) -> Result<bool, Refusal>
    ensures answer { result ≡ round_trip path.now (length out.old) }
    ensures buffer { out.new ≡ buffer_after path.now require_tls out.old }
{
    let n = write_mail_line(path, require_tls, out)?;
    let line = MailLine::read(upto(out, n), true)?;
    Ok(line.path() == path && line.require_tls() == require_tls)
}

// Reads a line that came covered and writes it again from what was read: one in our written form comes out as the same bytes.
pub fn rewrite_mail_line(line: &[u8], out: &mut [u8]) -> Result<usize, Refusal>
    ensures answer { result ≡ again_in (mail_line line.now true) (length out.old) }
    ensures buffer { out.new ≡ again_after (mail_line line.now true) out.old }
    ensures same { Ours line.now → 523 ≤ length out.old → (result ≡ Ok (length line.now)) × (out.new ≡ at_front line.now out.old) }
{
    let read = MailLine::read(line, true)?;
    write_mail_line(read.path(), read.require_tls(), out)
}

// The laws of MAIL lines. At run time it says nothing.
pub fn mail_lines_hold() -> u8
    ensures form { FormHolds }
    ensures parts { PartsHold }
    ensures place { PlaceHolds }
    ensures back { ReadBack }
    ensures again { WrittenAgain }
    ensures shown { MailLinesShown }
{
    0
}
