ghost use Rattle.std.specs.Prelude.{◌≡◌, true};
ghost use Rattle.line.specs.Entries.{record_of};
ghost use Rattle.balgwir.specs.SheetFaults.{record_fault, FirstFault};
ghost use Rattle.balgwir.specs.Words.{one_line};

use line::{Entries, Entry, HandshakeAnswer, Letter};
use smtp::Refusal;
use std::fmt;

// Why a record breaks the form of a sheet.
#[derive(Clone, Copy)]
pub enum Fault {
    // no record in the layout stands there
    Layout,
    // its visit number is 0, or below that of the record before it
    Visit,
    // its letter is neither R nor H
    Letter,
    // it is an H without a trust's digit, a blank, a names text and CRLF
    Handshake,
}

impl Fault {
    // What is wrong with a record whose visit number may not be below the least.
    fn of(entry: Entry, least: usize) -> Option<Fault>
        ensures { result ≡ record_fault least (record_of entry.entry) }
    {
        if entry.visit < least {
            return Some(Fault::Visit);
        }
        match entry.letter {
            Letter::Reply => None,
            Letter::Handshake if HandshakeAnswer::read(entry.bytes).is_some() => None,
            Letter::Handshake => Some(Fault::Handshake),
            Letter::Opened | Letter::Clear | Letter::Covered => Some(Fault::Letter),
        }
    }

    // The end of a sentence that begins with the record. As a text, whose clause says that it is one line.
    fn text(self) -> &'static str
        ensures { one_line result.now ≡ true }
    {
        match self {
            Fault::Layout =>
                "is not in the layout: a visit number in 5 columns, a letter (R or H), a length in 5 columns, a blank, and that many bytes.",
            Fault::Visit => "has the visit number 0, or one below that of the record before it.",
            Fault::Letter => "has another letter than R and H.",
            Fault::Handshake =>
                "is an H whose bytes are not a trust from 0 to 2, a blank, names and CRLF.",
        }
    }
}

// The first record of a sheet that breaks the sheet's form: its number, counted from 1, its place in the sheet, and why.
#[derive(Clone, Copy)]
pub struct SheetFault {
    number: usize,
    place: usize,
    why: Fault,
}

// The first fault of a sheet; none where the sheet has its form.
pub fn first_fault(sheet: &[u8]) -> Option<SheetFault>
    ensures { FirstFault sheet.now result }
{
    // Number and place are counted beside the records, since they are needed behind the last of them too.
    let mut number: usize = 1;
    let mut place: usize = 0;
    let mut least: usize = 1;
    for entry in Entries::of(sheet) {
        if let Some(why) = Fault::of(entry, least) {
            return Some(SheetFault { number, place, why });
        }
        number += 1;
        place += entry.size();
        least = entry.visit;
    }
    if place == sheet.len() {
        return None;
    }
    Some(SheetFault {
        number,
        place,
        why: Fault::Layout,
    })
}

impl fmt::Display for SheetFault {
    fn fmt<W: fmt::Write>(&self, f: &mut fmt::Formatter<W>) -> fmt::Result {
        let refused = Refusal::BadSheet.number();
        let number = self.number;
        let place = self.place;
        let text = self.why.text();
        writeln!(
            f,
            "refused: {refused}\nreason: Record {number}, at offset {place}, {text}"
        )
    }
}
