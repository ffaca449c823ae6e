ghost use Rattle.std.specs.Prelude.{◌≡◌, ◌≤◌, true, Some, length};
ghost use Rattle.line.specs.Pieces.{was_covered, pieces_of};
ghost use Rattle.line.specs.HouseHost.{host_of, house_rule, last_answer, answer_next, answer_in, note_of, noted_answer};
ghost use Rattle.std.specs.Option.{option_map};
ghost use Rattle.line.specs.Calls.{piece};
ghost use Rattle.line.specs.Peers.{kept};
ghost use Rattle.line.specs.declared.house_answer.Answer.{Answer};

use crate::entries::Entries;
use crate::house_answer::Answer;
use crate::house_host::HouseHost;
use crate::house_reply::lay_reply;
use crate::laying::lay;
use crate::peer::{MAX_ANSWER, Peer};
use crate::peer_line::PeerLine;
use crate::record::{Letter, Trust};
use crate::visit::Visit;
use smtp::bytes::same_word;

// Whether a record holds a piece that went covered.
fn was_covered(letter: Letter) -> bool
    ensures { result ≡ was_covered letter }
{
    letter == Letter::Covered
}

// What a house host answers to the last of a visit's pieces, by their records.
fn last_answer(host: HouseHost, pieces: &[u8]) -> Answer
    ensures { result ≡ last_answer (host_of host.entry) (pieces_of pieces.now) }
{
    Entries::of(pieces).fold(Answer::Greeting, |answer, entry| {
        answer.next(host, was_covered(entry.letter), entry.bytes)
    })
}

// What it answers to the last piece of a visit; nothing where the visit was opened by another name.
fn answer_in(host: HouseHost, visit: Visit) -> Option<Answer>
    ensures { result ≡ answer_in (host_of host.entry) visit.entry.name.now (pieces_of visit.entry.pieces.now) }
{
    if !same_word(visit.name, host.name) {
        return None;
    }
    Some(last_answer(host, visit.pieces))
}

// What a line keeps for the host of a visit, by the answer to its last piece: the answer's number, or 8 where the visit was opened by
// another name. By match: the check sees that no answer is missing.
fn note_of(answer: Option<Answer>) -> u8
    ensures { result ≡ note_of answer }
{
    match answer {
        Some(Answer::Greeting) => 0,
        Some(Answer::Extensions(false)) => 1,
        Some(Answer::Extensions(true)) => 2,
        Some(Answer::Ready) => 3,
        Some(Answer::Done) => 4,
        Some(Answer::Recipient) => 5,
        Some(Answer::GoAhead) => 6,
        Some(Answer::Unknown) => 7,
        None => 8,
    }
}

// The answer that such a number stands for.
fn noted_answer(note: u8) -> Option<Answer>
    ensures { result ≡ noted_answer note }
{
    match note {
        0 => Some(Answer::Greeting),
        1 => Some(Answer::Extensions(false)),
        2 => Some(Answer::Extensions(true)),
        3 => Some(Answer::Ready),
        4 => Some(Answer::Done),
        5 => Some(Answer::Recipient),
        6 => Some(Answer::GoAhead),
        7 => Some(Answer::Unknown),
        _ => None,
    }
}

// The answer to a piece more, which went clear or covered; nothing where the visit was opened by another name.
fn next_answer(
    host: HouseHost,
    before: Option<Answer>,
    covered: bool,
    bytes: &[u8],
) -> Option<Answer>
    ensures { result ≡ option_map (λ a. answer_next (host_of host.entry) a (piece covered bytes.now)) before }
{
    Some(before?.next(host, covered, bytes))
}

// What it answers to the last piece of a visit, by what the line kept of it; where it kept nothing, the pieces are read.
fn answer_by(host: HouseHost, note: Option<u8>, visit: Visit) -> Option<Answer>
    ensures is { kept (note_of (answer_in (host_of host.entry) visit.entry.name.now (pieces_of visit.entry.pieces.now))) note ≡ true → result ≡ answer_in (host_of host.entry) visit.entry.name.now (pieces_of visit.entry.pieces.now) }
    ensures short { (answer : Answer) → result ≡ Some answer → length host.entry.name.now ≤ 253 }
{
    // A name of another length is another name; one as long as the visit's has at most 253 bytes.
    if visit.name.len() != host.name.len() {
        return None;
    }
    match note {
        Some(note) => noted_answer(note),
        None => answer_in(host, visit),
    }
}

// A house host: opened by its own name it answers the visit's last piece; by another name, all is lost. The line keeps its answer
// from piece to piece, so that no piece is read again.
impl<'n> Peer for HouseHost<'n> {
    ghost rule = { λ s. house_rule (host_of s) };

    ghost noted = { λ s name ps. note_of (answer_in (host_of s) name ps) };

    fn reply(&self, visit: Visit, buffer: &mut [u8; MAX_ANSWER]) -> Option<usize> {
        self.reply_noted(None, visit, buffer)
    }

    fn handshake(&self, visit: Visit, names: &mut [u8; MAX_ANSWER]) -> Option<(Trust, usize)> {
        self.handshake_noted(None, visit, names)
    }

    fn note_opened(&self, name: &[u8]) -> Option<u8> {
        Some(note_of(same_word(name, self.name).then_some(Answer::Greeting)))
    }

    fn note_put(&self, note: Option<u8>, covered: bool, bytes: &[u8]) -> Option<u8> {
        let before = noted_answer(note?);
        Some(note_of(next_answer(*self, before, covered, bytes)))
    }

    fn reply_noted(
        &self,
        note: Option<u8>,
        visit: Visit,
        buffer: &mut [u8; MAX_ANSWER],
    ) -> Option<usize> {
        let host = *self;
        let answer = answer_by(host, note, visit)?;
        Some(lay_reply(buffer, host, answer))
    }

    fn handshake_noted(
        &self,
        note: Option<u8>,
        visit: Visit,
        names: &mut [u8; MAX_ANSWER],
    ) -> Option<(Trust, usize)> {
        let host = *self;
        let Answer::Ready = answer_by(host, note, visit)? else {
            return None;
        };
        Some((host.trust, lay(names, 0, host.name)))
    }
}

// A line to a house host.
pub type HouseLine<'n, 'o> = PeerLine<'o, HouseHost<'n>>;
