ghost use Rattle.std.specs.Prelude.{◌≡◌, length};
ghost use Rattle.balgwir_c.specs.Calls.{tagged_mail, status, out_after};
ghost use Rattle.balgwir_c.specs.Numbers.{yes};
ghost use Rattle.message.specs.MailLines.{writing, buffer_after};

use crate::answer::answer;
use crate::number::{is_set, tag_int};
use message::mail_line::write_mail_line;
use message::tagged;
use smtp::Refusal;

// What the caller is told of a message: where the path lies in its MAIL line, and the number of its tag.
#[repr(C)]
#[derive(Clone, Copy)]
pub struct TaggedMail {
    pub path_place: usize,
    pub path_len: usize,
    pub tag: i32,
}

impl TaggedMail {
    // Reads a MAIL line, which came covered by TLS or not, and then the header section that belongs to it.
    fn read(line: &[u8], covered: bool, section: &[u8]) -> Result<TaggedMail, Refusal>
        ensures { result ≡ tagged_mail line.now covered section.now }
    {
        let mail = tagged::TaggedMail::read(line, covered, section)?;
        Ok(TaggedMail {
            path_place: mail.line.place(),
            path_len: mail.line.path().len(),
            tag: tag_int(mail.tag),
        })
    }
}

// Reads a MAIL line and a header section. Answers 0 and puts what they say into `out`, or answers the number of the refusal
// and leaves `out` as it is.
#[unsafe(no_mangle)]
pub extern "C" fn balgwir_tag(
    line: &[u8],
    covered: i32,
    section: &[u8],
    out: &mut TaggedMail,
) -> i32
    ensures answer { result ≡ status (tagged_mail line.now (yes covered) section.now) }
    ensures told { out.new ≡ out_after (tagged_mail line.now (yes covered) section.now) out.old }
{
    answer(TaggedMail::read(line, is_set(covered), section), out)
}

// Writes a MAIL line at the front of a buffer. Answers 0 and puts the line's length into `len`, or answers the number of the
// refusal and leaves both as they are. What lies behind the line in the buffer stays.
#[unsafe(no_mangle)]
pub extern "C" fn balgwir_write_mail_line(
    path: &[u8],
    require_tls: i32,
    out: &mut [u8],
    len: &mut usize,
) -> i32
    ensures answer { result ≡ status (writing path.now (yes require_tls) (length out.old)) }
    ensures buffer { out.new ≡ buffer_after path.now (yes require_tls) out.old }
    ensures length { len.new ≡ out_after (writing path.now (yes require_tls) (length out.old)) len.old }
{
    answer(write_mail_line(path, is_set(require_tls), out), len)
}
