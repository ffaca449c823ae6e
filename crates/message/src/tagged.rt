ghost use Rattle.std.specs.Prelude.{◌≡◌};
ghost use Rattle.std.specs.Result.{result_map_both as answered};
ghost use Rattle.message.specs.TaggedMails.{told, tagged_mail};

use crate::mail_line::MailLine;
use crate::tag::Tag;
use smtp::Refusal;

// What a MAIL line and the header section that belongs to it say of a message.
#[derive(Clone, Copy)]
pub struct TaggedMail<'l> {
    pub line: MailLine<'l>,
    pub tag: Tag,
}

impl<'l> TaggedMail<'l> {
    // Reads a MAIL line, which came covered by TLS or not, and then the header section.
    pub fn read(line: &'l [u8], covered: bool, section: &[u8]) -> Result<TaggedMail<'l>, Refusal>
        ensures { answered told (λ e. e) result ≡ tagged_mail line.now covered section.now }
    {
        let line = MailLine::read(line, covered)?;
        let tag = Tag::read(line.require_tls(), section)?;
        Ok(TaggedMail { line, tag })
    }
}
