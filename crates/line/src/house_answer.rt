ghost use Rattle.std.specs.Prelude.{◌≡◌};
ghost use Rattle.line.specs.HouseHost.{host_of, first_word, command_of, answer_to, answer_next};
ghost use Rattle.line.specs.Calls.{piece};
ghost use Rattle.smtp.specs.Parts.{first_part};

use crate::house_host::HouseHost;
use smtp::bytes::{part_len, same_word, upto};

// A command, by a piece's first word.
#[derive(Clone, Copy)]
pub(crate) enum Command {
    Ehlo,
    StartTls,
    Mail,
    Rcpt,
    Data,
    Other,
}

// What stands before the first separator.
fn part<'s>(s: &'s [u8], sep: u8) -> &'s [u8]
    ensures { result.now ≡ first_part sep s.now }
{
    upto(s, part_len(s, sep))
}

impl Command {
    // The command that a piece is: its first word, up to a blank or CR or the piece's end, in any letter case.
    pub(crate) fn read(piece: &[u8]) -> Command
        ensures { result ≡ command_of (first_word piece.now) }
    {
        let word = part(part(piece, b'\r'), b' ');
        if same_word(word, b"EHLO") {
            Command::Ehlo
        } else if same_word(word, b"STARTTLS") {
            Command::StartTls
        } else if same_word(word, b"MAIL") {
            Command::Mail
        } else if same_word(word, b"RCPT") {
            Command::Rcpt
        } else if same_word(word, b"DATA") {
            Command::Data
        } else {
            Command::Other
        }
    }
}

// What a house host answers to the last piece of a visit. The host is a `Copy` value that each function below asks.
#[derive(Clone, Copy)]
pub(crate) enum Answer {
    // 220 and the name, where no piece was put yet
    Greeting,
    // to EHLO, clear or covered: 250 lines with the name, what is offered, and HELP
    Extensions(bool),
    // to STARTTLS: 220, a handshake may follow
    Ready,
    // 250
    Done,
    // to RCPT: the recipient's code
    Recipient,
    // to DATA: 354, the next piece is content
    GoAhead,
    // 500
    Unknown,
}

impl Answer {
    // The answer to a command that went clear or covered.
    pub(crate) fn to(host: HouseHost, covered: bool, command: Command) -> Answer
        ensures { result ≡ answer_to (host_of host.entry) covered command }
    {
        match command {
            Command::Ehlo => Answer::Extensions(covered),
            Command::StartTls => {
                if host.starttls && !covered {
                    Answer::Ready
                } else {
                    Answer::Unknown
                }
            }
            Command::Mail => Answer::Done,
            Command::Rcpt => Answer::Recipient,
            Command::Data => Answer::GoAhead,
            Command::Other => Answer::Unknown,
        }
    }

    // The answer to a piece that went clear or covered, by the answer before it.
    pub(crate) fn next(self, host: HouseHost, covered: bool, bytes: &[u8]) -> Answer
        ensures { result ≡ answer_next (host_of host.entry) self (piece covered bytes.now) }
    {
        match self {
            Answer::GoAhead => Answer::Done,
            _ => Answer::to(host, covered, Command::read(bytes)),
        }
    }
}
