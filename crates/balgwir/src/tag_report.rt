ghost use Rattle.std.specs.Prelude.{◌≡◌};
ghost use Rattle.std.specs.Result.{result_map_both as answered};
ghost use Rattle.balgwir.specs.Mail.{tagged_mail, told};
ghost use Rattle.balgwir.specs.Words.{is_covered};

use crate::coverage::Coverage;
use crate::text::text_of;
use message::tagged::TaggedMail;
use smtp::Refusal;
use std::fmt;

// What a MAIL line and a header section say of a message.
#[derive(Clone, Copy)]
pub struct MailAnswer<'l>(TaggedMail<'l>);

impl<'l> MailAnswer<'l> {
    // Reads a MAIL line, and then the header section.
    pub fn of(line: &'l [u8], coverage: Coverage, section: &[u8]) -> Result<MailAnswer<'l>, Refusal>
        ensures { answered told (λ e. e) result ≡ tagged_mail line.now section.now (is_covered coverage) }
    {
        let mail = TaggedMail::read(line, coverage == Coverage::Covered, section)?;
        Ok(MailAnswer(mail))
    }
}

impl fmt::Display for MailAnswer<'_> {
    fn fmt<W: fmt::Write>(&self, f: &mut fmt::Formatter<W>) -> fmt::Result {
        let tag = self.0.tag.name();
        let path = text_of(self.0.line.path());
        writeln!(f, "tag: {tag}\npath: {path}")
    }
}
