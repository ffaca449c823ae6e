ghost use Rattle.std.specs.Prelude.{◌≡◌, true};
ghost use Rattle.balgwir.specs.Words.{one_line};
ghost use Rattle.balgwir.specs.Shown.{answer_output};

use smtp::Refusal;
use std::fmt;

// Why an input is turned down, as a sentence. As a text and not by `Display`: the clause says of all of them that each is one line.
fn reason(refusal: Refusal) -> &'static str
    ensures { one_line result.now ≡ true }
{
    match refusal {
        Refusal::MailLineTooLong => "The MAIL line has more than 523 bytes, its CRLF counted.",
        Refusal::MailLineForm =>
            "The MAIL line breaks its form: MAIL FROM:<path>, each option after one blank, CRLF.",
        Refusal::UnknownOption => "An option of the MAIL line, or its value, is not known.",
        Refusal::RepeatedOption => "The MAIL line has one option twice.",
        Refusal::RequireTlsInClear => "The MAIL line has REQUIRETLS, but it came without TLS.",
        Refusal::RepeatedTlsRequired =>
            "The header section has two or more TLS-Required fields, and the MAIL line lacks REQUIRETLS.",
        Refusal::BadHost =>
            "There is no host or more than 16, a host name is ill-formed or outside the host text, or there is no host of that number.",
        Refusal::BadAddress => "Our own name, the path or the recipient is ill-formed.",
        Refusal::BadContent =>
            "The content or the header section breaks its form: lines of bytes 1 to 127, at most 998 before CRLF, at most 32768 in all.",
        Refusal::ShortBuffer =>
            "A buffer is too short, or there are fewer trial records than hosts.",
        Refusal::WrongStanding => "The line is in the wrong standing or in another visit.",
        Refusal::NoRoom => "The line has not enough room.",
        Refusal::BadPolicy => "The policy text breaks its form.",
        Refusal::BadSheet => "The sheet breaks its form.",
        Refusal::BadHouseHost =>
            "The house host's trust is above 2, or its code is not 250, 450 or 550.",
    }
}

// A refused input, as it is printed: the refusal's number, and the reason.
#[derive(Clone, Copy)]
struct Refused(Refusal);

impl fmt::Display for Refused {
    fn fmt<W: fmt::Write>(&self, f: &mut fmt::Formatter<W>) -> fmt::Result {
        let number = self.0.number();
        let reason = reason(self.0);
        writeln!(f, "refused: {number}\nreason: {reason}")
    }
}

// What is printed of an input: what it says, or the refusal.
#[derive(Clone, Copy)]
pub struct Report<T>(pub Result<T, Refusal>);

impl<T: fmt::Display> fmt::Display for Report<T> {
    ghost output = { λ report. answer_output T.output report.0 };

    fn fmt<W: fmt::Write>(&self, f: &mut fmt::Formatter<W>) -> fmt::Result {
        match &self.0 {
            Ok(answer) => write!(f, "{answer}"),
            Err(refusal) => write!(f, "{}", Refused(*refusal)),
        }
    }
}
