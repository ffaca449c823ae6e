ghost use Rattle.std.specs.Prelude.{◌≡◌, ◌+◌, ◌≤◌, ◌++◌, length};
ghost use Rattle.line.specs.Calls.{crlf};
ghost use Rattle.line.specs.Buffers.{laid_at};
ghost use Rattle.line.specs.HouseHost.{host_of, offered, last_line, «HELP», reply_of};

use crate::house_answer::Answer;
use crate::house_host::HouseHost;
use crate::laying::lay_parts;
use crate::peer::MAX_ANSWER;

// What stands behind the name in the answer to EHLO: what is offered, in the clear STARTTLS, covered REQUIRETLS; and HELP.
fn behind_name(host: HouseHost, covered: bool) -> &'static [u8]
    ensures { result.now ≡ crlf ++ (offered (host_of host.entry) covered ++ last_line 250 «HELP») }
{
    if !host.offers(covered) {
        b"\r\n250 HELP\r\n"
    } else if covered {
        b"\r\n250-REQUIRETLS\r\n250 HELP\r\n"
    } else {
        b"\r\n250-STARTTLS\r\n250 HELP\r\n"
    }
}

// Lays an answer as a reply at a buffer's front; its length. That the name is short is asked for here: as a fact of the type
// `HouseHost` it is proved, and then every test in another crate that makes a host stops with "a bug in rattle".
pub(crate) fn lay_reply(out: &mut [u8; MAX_ANSWER], host: HouseHost, answer: Answer) -> usize
    requires { length host.name.now ≤ 253 }
    ensures len { result ≡ length (reply_of (host_of host.entry) answer) }
    ensures laid { out.new ≡ laid_at 0 (reply_of (host_of host.entry) answer) out.old }
{
    let code = host.recipient.front();
    // By match: the check sees that no answer is missing.
    let (front, text, ending): (&[u8], &[u8], &[u8]) = match answer {
        Answer::Greeting => (b"220 ", host.name, b"\r\n"),
        Answer::Extensions(covered) => (b"250-", host.name, behind_name(host, covered)),
        Answer::Ready => (b"220 ", b"ok", b"\r\n"),
        Answer::Done => (b"250 ", b"ok", b"\r\n"),
        Answer::Recipient => (&code, b"ok", b"\r\n"),
        Answer::GoAhead => (b"354 ", b"ok", b"\r\n"),
        Answer::Unknown => (b"500 ", b"ok", b"\r\n"),
    };
    lay_parts(out, 0, front, text, ending)
}
