ghost use Rattle.std.specs.Prelude.{◌≡◌, ◌≤◌, ◌++◌, length, drop};
ghost use Rattle.message.specs.Stuffing.{dot_first, stuffed, stuffed_len, stuff_answer, stuff_buffer};
ghost use Rattle.message.specs.StuffingHold.{StuffingHolds};

use crate::content::check_content;
use crate::lines::lines_of;
use crate::writer::Writer;
use smtp::Refusal;

// Whether a line begins with a dot, and so gets one more in front.
fn is_dotted(line: &[u8]) -> bool
    ensures { result ≡ dot_first line.now }
{
    matches!(line, [b'.', ..])
}

// How long content is when it is dot-stuffed: one byte more for each line that begins with a dot, and three for the dot line.
pub fn stuffed_len(content: &[u8]) -> usize
    ensures { result ≡ stuffed_len content.now }
{
    let dots = lines_of(content).filter(|line| is_dotted(line)).count();
    content.len() + dots + 3
}

// Writes the stuffed content to the front of a buffer that has room for it.
fn put_stuffed(content: &[u8], out: &mut [u8])
    requires { stuffed_len content.now ≤ length out.old }
    ensures { out.new ≡ stuffed content.now ++ drop (stuffed_len content.now) out.old }
{
    let mut writer = Writer::new(out);
    for line in lines_of(content) {
        if is_dotted(line) {
            writer.put(b".");
        }
        writer.put(line);
    }
    writer.put(b".\r\n");
}

// Writes content, dot-stuffed and with the dot line, to the front of a buffer, and answers how long it is. The rest of the buffer stays, and a
// refusal leaves all of it.
pub fn stuff(content: &[u8], out: &mut [u8]) -> Result<usize, Refusal>
    ensures answer { result ≡ stuff_answer content.now (length out.old) }
    ensures buffer { out.new ≡ stuff_buffer content.now out.old }
{
    check_content(content)?;
    let n = stuffed_len(content);
    if n > out.len() {
        return Err(Refusal::ShortBuffer);
    }
    put_stuffed(content, out);
    Ok(n)
}

// Does nothing when it runs; its contract says what dot-stuffing keeps: the defined length, its bound, and the content.
pub fn stuffing_hold() -> u8
    ensures { StuffingHolds }
{
    0
}
