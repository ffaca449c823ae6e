ghost use Rattle.std.specs.Prelude.{◌≡◌, ℕ, IsTrue, ◌+◌, ◌-◌, ◌<◌, ◌≤◌, length};
ghost use Rattle.std.specs.Option.{option_map};
ghost use Rattle.smtp.specs.Replies.{well_formed, reply_code};
ghost use Rattle.smtp.specs.RepliesHold.{RepliesHold};
ghost use Rattle.smtp.specs.Keywords.{listed, part_at, next_at, seen};
ghost use Rattle.std.specs.Iterator.{at_most};

use crate::bytes::from;
use crate::reply_line::{ReplyLine, line_at};

// A well-formed reply: lines of at most 512 bytes with CRLF, each of three digits, a hyphen, or on the last line a blank or nothing,
// and text, all with one code.
#[derive(Clone, Copy)]
pub struct Reply<'r> {
    bytes: &'r [u8],
    code: u16,
    ghost well_formed: { IsTrue (well_formed bytes.now) },
    ghost one_code: { code ≡ reply_code bytes.now },
}

impl<'r> Reply<'r> {
    ghost use Rattle.smtp.specs.Read.{held, read_reply};

    // Reads a reply; none where it is malformed.
    pub fn read(bytes: &'r [u8]) -> Option<Reply<'r>>
        ensures { option_map held result ≡ read_reply bytes.now }
    {
        let first = line_at(bytes)?;
        let mut line = first;
        let mut rest = from(bytes, first.size());
        while !line.separator.is_last() {
            line = line_at(rest)?;
            if line.code != first.code {
                return None;
            }
            rest = from(rest, line.size());
        }
        if !rest.is_empty() {
            return None;
        }
        Some(Reply {
            bytes,
            code: first.code,
        })
    }

    // The code that each line bears.
    pub fn code(&self) -> u16
        ensures { result ≡ self.now.code }
    {
        self.code
    }

    // The lines, from the first on.
    pub fn lines(&self) -> ReplyLines<'r>
        ensures bytes { result.bytes.now ≡ self.now.bytes.now }
        ensures at { result.at ≡ 0 }
    {
        ReplyLines {
            bytes: self.bytes,
            at: 0,
        }
    }

    // Whether a line from the second on has the word alone on it, in any letter case.
    pub fn lists(&self, word: &[u8]) -> bool
        ensures { result ≡ listed self.now.bytes.now word.now }
    {
        self.lines().any(|line| line.lists(word))
    }
}

// The lines of a reply that are still to be handed out: those from the place `at` on. By place: each is handed out with its place in the reply.
#[derive(Drop)]
pub struct ReplyLines<'r> {
    bytes: &'r [u8],
    at: usize,
}

impl<'r> Iterator for ReplyLines<'r> {
    type Item = ReplyLine<'r>;

    ghost next_gives = { λ s r t. (option_map seen r ≡ part_at s.bytes.now s.at) × (t.at ≡ next_at s.bytes.now s.at) × (t.bytes.now ≡ s.bytes.now) };

    ghost remaining = { λ s. at_most (length s.bytes.now - s.at) };

    fn next(&mut self) -> Option<ReplyLine<'r>> {
        let line = line_at(from(self.bytes, self.at))?;
        let part = line.part_at(self.at);
        self.at += line.size();
        Some(part)
    }
}

// Says nothing at run time; its contract is the law of replies: a reply is well formed exactly where it is lines one after the other, all
// of one code, all but the last with a hyphen; they are the lines that are read; and what is handed out of a line stands at its place.
pub fn replies_hold() -> u8
    ensures { RepliesHold }
{
    0
}
