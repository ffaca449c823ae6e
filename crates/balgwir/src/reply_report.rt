ghost use Rattle.std.specs.Prelude.{[], ◌++◌, if◌then◌else◌, Some, codes, decimal};

use crate::text::{YesNo, text_of};
use smtp::{Reply, ReplyLine};
use std::fmt;

// A line that starts with a keyword, as it is printed: the keyword's place in the reply, and the keyword.
#[derive(Clone, Copy)]
struct KeywordLine<'r> {
    word: &'r str,
    place: usize,
    alone: bool,
}

impl fmt::Display for KeywordLine<'_> {
    ghost output = { λ k. Some (codes "keyword: " ++ (decimal k.place ++ (codes " " ++ (k.word.now ++ (if k.alone then codes " alone" else []))))) };

    fn fmt<W: fmt::Write>(&self, f: &mut fmt::Formatter<W>) -> fmt::Result {
        let word = self.word;
        let place = self.place;
        let end = if self.alone { " alone" } else { "" };
        write!(f, "keyword: {place} {word}{end}")
    }
}

// What is printed of a reply: `malformed`, or its code, how many lines it has, its keywords and what it lists.
#[derive(Clone, Copy)]
pub struct ReplyReport<'r>(pub Option<Reply<'r>>);

impl fmt::Display for ReplyReport<'_> {
    fn fmt<W: fmt::Write>(&self, f: &mut fmt::Formatter<W>) -> fmt::Result {
        let Some(reply) = self.0 else {
            return writeln!(f, "malformed");
        };
        let code = reply.code();
        let lines = reply.lines().count();
        writeln!(f, "code: {code}")?;
        writeln!(f, "lines: {lines}")?;
        for line in reply.lines() {
            if let ReplyLine::Keyword { word, place, alone } = line {
                let word = text_of(word);
                writeln!(f, "{}", KeywordLine { word, place, alone })?;
            }
        }
        let starttls = YesNo(reply.lists(b"STARTTLS")).word();
        let requiretls = YesNo(reply.lists(b"REQUIRETLS")).word();
        writeln!(f, "starttls: {starttls}")?;
        writeln!(f, "requiretls: {requiretls}")
    }
}
