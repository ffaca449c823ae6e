ghost use Rattle.std.specs.Prelude.{◌≡◌, ℕ, ◌+◌, ◌-◌, ◌<◌, ◌≤◌, min, length, take, drop};
ghost use Rattle.smtp.specs.Bytes.{letter, digit, lowered, same};
ghost use Rattle.smtp.specs.Names.{label_byte};
ghost use Rattle.smtp.specs.Parts.{first_part};

// The definitions' word `letter`, for callers of the crate.
pub fn is_letter(b: u8) -> bool
    ensures { result ≡ letter b }
{
    b.is_ascii_alphabetic()
}

// The definitions' word `digit`, for callers of the crate.
pub fn is_digit(b: u8) -> bool
    ensures { result ≡ digit b }
{
    b.is_ascii_digit()
}

// Whether a byte may stand in a label or a keyword: a letter, a digit or a hyphen.
pub fn is_label_byte(b: u8) -> bool
    ensures { result ≡ label_byte b }
{
    b.is_ascii_alphanumeric() || b == b'-'
}

// The definitions' word `lowered`, for callers of the crate: a capital as its small letter, and any other byte as it is.
pub fn lower(b: u8) -> u8
    ensures { result ≡ lowered b }
{
    b.to_ascii_lowercase()
}

// Whether two words are the same but for the case of their letters.
pub fn same_word(a: &[u8], b: &[u8]) -> bool
    ensures { result ≡ same a.now b.now }
{
    a.eq_ignore_ascii_case(b)
}

// How many bytes stand before the first separator, or before the end.
pub fn part_len(s: &[u8], sep: u8) -> usize
    ensures is { result ≡ length (first_part sep s.now) }
    ensures within { result ≤ length s.now }
{
    match s.iter().position(|b| *b == sep) {
        Some(place) => place,
        None => s.len(),
    }
}

// What stands from a place on: nothing where that is past the end.
pub fn from<'s>(s: &'s [u8], at: usize) -> &'s [u8]
    ensures is { result.now ≡ drop at s.now }
    ensures len { length result.now ≡ length s.now - at }
{
    &s[at.min(s.len())..]
}

// The first `n` bytes, or all where there are fewer.
pub fn upto<'s>(s: &'s [u8], n: usize) -> &'s [u8]
    ensures is { result.now ≡ take n s.now }
    ensures len { length result.now ≡ min n (length s.now) }
{
    &s[..n.min(s.len())]
}
