ghost use Rattle.std.specs.Prelude.{◌≡◌, ℕ, Bool, ◌+◌, ◌<◌, ◌≤◌, length};
ghost use Rattle.smtp.specs.Bytes.{some, Computes};
ghost use Rattle.smtp.specs.Parts.{first_part, parts};
ghost use Rattle.smtp.specs.Names.{atom_byte, word, dotted, host_name, address, wild, covered, covers_name, names_cover};
ghost use Rattle.smtp.specs.NamesHold.{NamesHold};

use crate::bytes::{from, is_label_byte, part_len, same_word, upto};

// Whether a byte may stand in an atom: a letter, a digit, or one of RFC 5321's other bytes of atext.
pub fn is_atom_byte(b: u8) -> bool
    ensures { result ≡ atom_byte b }
{
    b.is_ascii_alphanumeric()
        || matches!(b, b'!' | b'#'..=b'\'' | b'*' | b'+' | b'-' | b'/' | b'=' | b'?' | b'^'..=b'`' | b'{'..=b'~')
}

// Whether a text is words of 1 to `most` bytes that pass a test, joined by dots. In one pass, which ends at the first byte that does
// not fit or is one too many: `split` at the dots and `all` over each word would look at each byte twice, and at all of a long word
// before its first byte is tested.
fn is_dotted<F: Fn(u8) -> bool>(s: &[u8], most: usize, is_in: F) -> bool
    requires { F.IsAlwaysCallable is_in }
    ensures { (test : ℕ → Bool) → Computes (F.post is_in) test → result ≡ dotted test most s.now }
{
    // the length of the word so far
    let mut n: usize = 0;
    for b in s {
        if *b == b'.' {
            if n == 0 {
                return false;
            }
            n = 0;
        } else {
            if n >= most {
                return false;
            }
            if !is_in(*b) {
                return false;
            }
            n += 1;
        }
    }
    n > 0
}

// Whether a text is a host name: labels of 1 to 63 letters, digits and hyphens, joined by dots, at most 253 bytes.
pub fn is_host_name(s: &[u8]) -> bool
    ensures { result ≡ host_name s.now }
{
    s.len() <= 253 && is_dotted(s, 63, is_label_byte)
}

// Whether a text is a mail address: a dot-string of 1 to 64 bytes, an at sign, a host name.
pub fn is_address(s: &[u8]) -> bool
    ensures { result ≡ address s.now }
{
    let n = part_len(s, b'@');
    n <= 64
        && n < s.len()
        && is_dotted(upto(s, n), 64, is_atom_byte)
        && is_host_name(from(s, n + 1))
}

// Whether a pattern begins with `*.`, and what is behind its star is the name from its first dot on.
fn is_wild(pattern: &[u8], name: &[u8]) -> bool
    ensures { result ≡ wild pattern.now name.now }
{
    match pattern {
        [b'*', b'.', ..] => same_word(from(pattern, 1), from(name, part_len(name, b'.'))),
        _ => false,
    }
}

// Whether a pattern covers a host name: itself, or `*.` and a rest, which covers exactly one label, a dot and that rest.
pub fn covers(pattern: &[u8], name: &[u8]) -> bool
    ensures { result ≡ covers_name pattern.now name.now }
{
    is_host_name(name) && (same_word(pattern, name) || is_wild(pattern, name))
}

// Whether one of the names or patterns in a text covers the host, whose first dot, if any, stands at `dot`: byte by byte, and
// done at the first that does.
fn some_covers(text: &[u8], host: &[u8], dot: usize) -> bool
    requires { dot ≡ length (first_part 46 host.now) }
    ensures { result ≡ some (λ pattern. covered pattern host.now) (parts 32 text.now) }
{
    // By index: the project asks for this form here, two nested loops over the names and over their bytes, both left by a label at the
    // first cover.
    let mut found = false;
    let mut at = 0;
    'names: while at <= text.len() {
        // a star stands for the host's first label
        let starred = from(text, at).starts_with(b"*.");
        let mut i = if starred { at + 1 } else { at };
        let mut k = if starred { dot } else { 0 };
        let mut same = true;
        'bytes: loop {
            if i >= text.len() || text[i] == b' ' {
                if same && k == host.len() {
                    found = true;
                    break 'names;
                }
                break 'bytes;
            }
            if k < host.len() && text[i].eq_ignore_ascii_case(&host[k]) {
                k += 1;
            } else {
                same = false;
            }
            i += 1;
        }
        at = i + 1;
    }
    found
}

// Whether one of the names or patterns in a text, parted by single blanks, covers the host.
pub fn names_cover(text: &[u8], host: &[u8]) -> bool
    ensures { result ≡ names_cover text.now host.now }
{
    is_host_name(host) && some_covers(text, host, part_len(host, b'.'))
}

// Says nothing at run time; its contract is the law of parts, words, host names and patterns.
pub fn names_hold() -> u8
    ensures { NamesHold }
{
    0
}
