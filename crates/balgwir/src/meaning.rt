ghost use Rattle.std.specs.Prelude.{◌≡◌};
ghost use Rattle.balgwir.specs.Answers.{answer_of};

use crate::text::text_of;
use smtp::{Reply, ReplyLine};
use std::fmt;

const STRICT: &str =
    "strict message: One sent with REQUIRETLS (RFC 8689). This reply is taken as a host's answer to EHLO.\n";

const MALFORMED: &str =
    "meaning: This is not a well-formed reply, so the host counts as down for this visit. A strict message is tried again later, unless another host takes or refuses it.\n";

const DOWN: &str =
    "meaning: A code of 400 to 499 counts as a host that is down for this visit. A strict message is tried again later, unless another host takes or refuses it.\n";

const REFUSED: &str =
    "meaning: Only code 250 lets a strict message go on. The host falls short, whatever this reply lists.\n";

const STARTTLS_LISTED: &str =
    "if in the clear: STARTTLS is listed. A strict message needs it to go on, and STARTTLS may follow.\n";

const STARTTLS_MISSING: &str =
    "if in the clear: STARTTLS is not listed, since no line from the second on has it alone. Nothing but QUIT may follow, and the host falls short. If no other host does better, a strict message bounces with 5.7.10 Encryption needed.\n";

const REQUIRETLS_LISTED: &str =
    "if after TLS: REQUIRETLS is listed. A strict message may go on to MAIL with REQUIRETLS.\n";

const REQUIRETLS_MISSING: &str =
    "if after TLS: REQUIRETLS is not listed, since no line from the second on has it alone. The host falls short. If no other host does better, a strict message bounces with 5.7.30 REQUIRETLS support required.\n";

const ONLY_AFTER_TLS: &str =
    "note: REQUIRETLS counts only after the TLS handshake. In the clear, anybody between the servers can write into a reply.\n";

// How a host answers EHLO, by the code of its reply.
#[derive(Clone, Copy)]
pub enum Answer {
    // 250: what the reply lists counts
    Accepted,
    // a code of 400 to 499: the host is down for this visit
    Down,
    // any other code
    Refused,
}

impl From<u16> for Answer {
    ghost from_gives = { λ code answer. answer ≡ answer_of code };

    fn from(code: u16) -> Answer {
        match code {
            250 => Answer::Accepted,
            400..=499 => Answer::Down,
            _ => Answer::Refused,
        }
    }
}

// The last line of a reply, which has a blank behind its code where the others have a hyphen.
#[derive(Clone, Copy)]
struct LastLine<'r>(Option<ReplyLine<'r>>);

impl fmt::Display for LastLine<'_> {
    fn fmt<W: fmt::Write>(&self, f: &mut fmt::Formatter<W>) -> fmt::Result {
        match self.0 {
            Some(ReplyLine::Keyword { word, .. }) => {
                let word = text_of(word);
                writeln!(
                    f,
                    "last line: It is an entry like the others, with a blank behind its code. Its keyword is {word}."
                )
            }
            Some(ReplyLine::Other { .. }) => writeln!(
                f,
                "last line: It starts with no keyword, so it lists nothing."
            ),
            _ => writeln!(
                f,
                "last line: It is the first line too, so it lists nothing."
            ),
        }
    }
}

// What a host offers by an accepted reply to EHLO, and what that means in the clear and after the TLS handshake.
#[derive(Clone, Copy)]
struct Offer<'r>(Reply<'r>);

impl fmt::Display for Offer<'_> {
    fn fmt<W: fmt::Write>(&self, f: &mut fmt::Formatter<W>) -> fmt::Result {
        let last = LastLine(self.0.lines().last());
        write!(f, "{last}")?;
        f.write_str(if self.0.lists(b"STARTTLS") {
            STARTTLS_LISTED
        } else {
            STARTTLS_MISSING
        })?;
        f.write_str(if self.0.lists(b"REQUIRETLS") {
            REQUIRETLS_LISTED
        } else {
            REQUIRETLS_MISSING
        })?;
        f.write_str(ONLY_AFTER_TLS)
    }
}

// What a reply to EHLO means for a strict message.
#[derive(Clone, Copy)]
pub struct Meaning<'r>(pub Option<Reply<'r>>);

impl fmt::Display for Meaning<'_> {
    fn fmt<W: fmt::Write>(&self, f: &mut fmt::Formatter<W>) -> fmt::Result {
        f.write_str(STRICT)?;
        let Some(reply) = self.0 else {
            return f.write_str(MALFORMED);
        };
        match Answer::from(reply.code()) {
            Answer::Accepted => write!(f, "{}", Offer(reply)),
            Answer::Down => f.write_str(DOWN),
            Answer::Refused => f.write_str(REFUSED),
        }
    }
}
