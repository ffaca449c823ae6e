ghost use Rattle.std.specs.Prelude.{◌≡◌, ◌≤◌, Some, length};
ghost use Rattle.std.specs.Iterator.{at_most};
ghost use Rattle.std.specs.List.{flat_map};
ghost use Rattle.balgwir.specs.Shown.{shown_byte, line_len, ends_in_crlf, end_note};

use crate::sheet_fault::first_fault;
use crate::text::text_of;
use line::{Entries, Entry, HandshakeAnswer, Letter};
use smtp::bytes::{from, upto};
use std::fmt;

// How many bytes stand before the first CRLF, or before the end.
fn line_len(s: &[u8]) -> usize
    ensures is { result ≡ line_len s.now }
    ensures within { result ≤ length s.now }
{
    let first = s.windows(2).position(|pair| pair == b"\r\n".as_slice());
    first.unwrap_or(s.len())
}

// The lines of a reply that are still to be handed out. CRLF ends a line.
#[derive(Drop)]
struct Lines<'s> {
    rest: &'s [u8],
}

impl<'s> Iterator for Lines<'s> {
    type Item = &'s [u8];

    ghost remaining = { λ s. at_most (length s.rest.now) };

    fn next(&mut self) -> Option<&'s [u8]> {
        let rest = self.rest;
        if rest.is_empty() {
            return None;
        }
        let n = line_len(rest);
        self.rest = from(rest, n + 2);
        Some(upto(rest, n))
    }
}

// What is said of the end of a reply: nothing where it is CRLF.
#[derive(Clone, Copy)]
struct EndNote<'s>(&'s [u8]);

impl EndNote<'_> {
    // The words for it, in every case.
    fn words(self) -> &'static str
        ensures { result.now ≡ end_note (ends_in_crlf self.entry.0.now) }
    {
        if self.0.ends_with(b"\r\n") {
            ""
        } else {
            ", no CRLF at the end"
        }
    }
}

impl fmt::Display for EndNote<'_> {
    ghost output = { λ reply. Some (end_note (ends_in_crlf reply.0.now)) };

    fn fmt<W: fmt::Write>(&self, f: &mut fmt::Formatter<W>) -> fmt::Result {
        f.write_str(self.words())
    }
}

// A byte as it is printed: one of 32 to 126 as it is, and another as `\x` and two digits.
#[derive(Clone, Copy)]
struct ShownByte(u8);

impl fmt::Display for ShownByte {
    ghost output = { λ b. Some (shown_byte b.0) };

    fn fmt<W: fmt::Write>(&self, f: &mut fmt::Formatter<W>) -> fmt::Result {
        let b = self.0;
        match b {
            b' '..=b'~' => write!(f, "{}", char::from(b)),
            _ => write!(f, "\\x{b:02x}"),
        }
    }
}

// A line as it is printed, byte by byte.
#[derive(Clone, Copy)]
struct ShownLine<'s>(&'s [u8]);

impl fmt::Display for ShownLine<'_> {
    ghost output = { λ line. Some (flat_map shown_byte line.0.now) };

    fn fmt<W: fmt::Write>(&self, f: &mut fmt::Formatter<W>) -> fmt::Result {
        for b in self.0 {
            write!(f, "{}", ShownByte(*b))?;
        }
        Ok(())
    }
}

// A reply as it is printed, line by line, each behind two blanks. CRLF ends a line.
#[derive(Clone, Copy)]
struct ShownReply<'s>(&'s [u8]);

impl fmt::Display for ShownReply<'_> {
    fn fmt<W: fmt::Write>(&self, f: &mut fmt::Formatter<W>) -> fmt::Result {
        for line in (Lines { rest: self.0 }) {
            writeln!(f, "  {}", ShownLine(line))?;
        }
        Ok(())
    }
}

// A record of a sheet, as it is printed.
#[derive(Clone, Copy)]
struct ShownRecord<'s>(Entry<'s>);

impl fmt::Display for ShownRecord<'_> {
    fn fmt<W: fmt::Write>(&self, f: &mut fmt::Formatter<W>) -> fmt::Result {
        let visit = self.0.visit;
        let bytes = self.0.bytes;
        match self.0.letter {
            Letter::Reply => {
                let n = bytes.len();
                let end = EndNote(bytes).words();
                let reply = ShownReply(bytes);
                write!(f, "visit {visit} reply, {n} bytes{end}:\n{reply}")
            }
            Letter::Handshake => {
                let Some(answer) = HandshakeAnswer::read(bytes) else {
                    return Ok(());
                };
                let trust = answer.trust.name();
                let number = answer.trust.number();
                let names = text_of(answer.names);
                writeln!(
                    f,
                    "visit {visit} handshake, trust {number} ({trust}), names: {names}"
                )
            }
            Letter::Opened | Letter::Clear | Letter::Covered => Ok(()),
        }
    }
}

// What is printed of a sheet: its records, or the first fault.
#[derive(Clone, Copy)]
pub struct SheetReport<'s>(pub &'s [u8]);

impl fmt::Display for SheetReport<'_> {
    fn fmt<W: fmt::Write>(&self, f: &mut fmt::Formatter<W>) -> fmt::Result {
        if let Some(fault) = first_fault(self.0) {
            return write!(f, "{fault}");
        }
        if self.0.is_empty() {
            return writeln!(f, "no records");
        }
        for entry in Entries::of(self.0) {
            write!(f, "{}", ShownRecord(entry))?;
        }
        Ok(())
    }
}
