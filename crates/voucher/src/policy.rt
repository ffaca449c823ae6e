ghost use Rattle.std.specs.Prelude.{◌≡◌, Some, ok_or};
ghost use Rattle.smtp.specs.declared.refusal.Refusal.TheVariants.{BadPolicy};
ghost use Rattle.std.specs.Option.{option_map};
ghost use Rattle.std.specs.List.{list_all, list_any};
ghost use Rattle.smtp.specs.Bytes.{digit};
ghost use Rattle.voucher.specs.PolicyLines.{lines};
ghost use Rattle.voucher.specs.Policy.{first_of, mx_covers, is_age, is_starred, is_pattern, well_formed_line, mode_name, mode_named, needs_mx, policy_mode, read_policy, policy_set};

use crate::policy_lines::{Field, fields_of};
use crate::voucher::Voucher;
use smtp::Refusal;
use smtp::names::{covers, is_host_name};
use std::{fmt, str};

// The most bytes that a policy text may have.
const MAX_TEXT: usize = 8192;

// The longest lifetime of a policy in seconds: about a year.
const MAX_AGE: u32 = 31557600;

// The one version of policies.
const VERSION: &[u8] = b"STSv1";

// The key of a line that names a host, or the hosts below a domain.
const MX: &[u8] = b"mx";

// What a sender does about a host that the policy does not name.
#[derive(Clone, Copy, PartialEq, Eq, Debug)]
pub enum Mode {
    // it sends nothing there
    Enforce,
    // it sends there all the same, and reports it
    Testing,
    // it does as if there were no policy
    None,
}

impl Mode {
    // How it is printed.
    pub fn name(self) -> &'static str
        ensures { result.now ≡ mode_name self }
    {
        match self {
            Mode::Enforce => "enforce",
            Mode::Testing => "testing",
            Mode::None => "none",
        }
    }
}

impl fmt::Display for Mode {
    ghost output = { λ m. Some (mode_name m) };

    fn fmt<W: fmt::Write>(&self, f: &mut fmt::Formatter<W>) -> fmt::Result {
        f.write_str(self.name())
    }
}

impl TryFrom<&[u8]> for Mode {
    type Error = Refusal;

    ghost try_from_gives = { λ name r. r ≡ ok_or (mode_named name.now) BadPolicy };

    #[tactic(auto, using(crate::proofs::Policies::named_by_seven))]
    fn try_from(name: &[u8]) -> Result<Mode, Refusal> {
        match name {
            b"enforce" => Ok(Mode::Enforce),
            b"testing" => Ok(Mode::Testing),
            b"none" => Ok(Mode::None),
            _ => Err(Refusal::BadPolicy),
        }
    }
}

// An MTA-STS policy (RFC 8461 section 3.2), read from its text. In mode enforce it vouches for the names that an `mx` of the text covers,
// and in any other mode for none.
#[derive(Clone, Copy)]
pub struct Policy<'t> {
    text: &'t [u8],
    mode: Mode,
    ghost read: { policy_mode text.now ≡ Some mode },
}

// The value of the first line with a key.
fn first_of<'t>(text: &'t [u8], key: &[u8]) -> Option<&'t [u8]>
    ensures { option_map (λ x. x.now) result ≡ first_of key.now (lines text.now) }
{
    fields_of(text)
        .find(|field| field.key == key)
        .map(|field| field.value())
}

fn are_digits(value: &[u8]) -> bool
    ensures { result ≡ list_all digit value.now }
{
    value.iter().all(|b| b.is_ascii_digit())
}

// Whether a value is 1 to 10 digits that write at most 31557600.
fn is_age(value: &[u8]) -> bool
    ensures { result ≡ is_age value.now }
{
    // `parse` takes a plus sign too
    if value.len() > 10 || !are_digits(value) {
        return false;
    }
    match str::from_utf8(value) {
        Ok(text) => text.parse::<u32>().is_ok_and(|seconds| seconds <= MAX_AGE),
        Err(_) => false,
    }
}

fn is_starred(value: &[u8]) -> bool
    ensures { result ≡ is_starred value.now }
{
    match value {
        [b'*', b'.', host @ ..] => is_host_name(host),
        _ => false,
    }
}

// Whether a value is a host name, or `*.` and a host name.
fn is_pattern(value: &[u8]) -> bool
    ensures { result ≡ is_pattern value.now }
{
    is_host_name(value) || is_starred(value)
}

// Whether a line is a key, a colon and a value, and the value of an `mx` is a pattern.
fn is_well_formed(field: &Field) -> bool
    ensures { result ≡ well_formed_line field.now.line.now }
{
    field.is_field() && (field.key != MX || is_pattern(field.value()))
}

fn are_well_formed(text: &[u8]) -> bool
    ensures { result ≡ list_all well_formed_line (lines text.now) }
{
    fields_of(text).all(|field| is_well_formed(&field))
}

// Whether a line is an `mx` whose pattern covers the name.
fn mx_covers(field: &Field, name: &[u8]) -> bool
    ensures { result ≡ mx_covers name.now field.now.line.now }
{
    field.key == MX && covers(field.value(), name)
}

fn some_mx_covers(text: &[u8], name: &[u8]) -> bool
    ensures { result ≡ list_any (mx_covers name.now) (lines text.now) }
{
    fields_of(text).any(|field| mx_covers(&field, name))
}

// The mode of a policy text; none where the text is no policy.
fn mode_of(text: &[u8]) -> Option<Mode>
    ensures { result ≡ policy_mode text.now }
{
    if text.len() > MAX_TEXT || !are_well_formed(text) {
        return None;
    }
    let version = first_of(text, b"version")?;
    let max_age = first_of(text, b"max_age")?;
    if version != VERSION || !is_age(max_age) {
        return None;
    }
    let mode = Mode::try_from(first_of(text, b"mode")?).ok()?;
    if mode != Mode::None && first_of(text, MX).is_none() {
        return None;
    }
    Some(mode)
}

impl<'t> Policy<'t> {
    ghost use Rattle.voucher.specs.PolicyRead.{held};

    // Reads a policy text: at most 8,192 bytes, in lines of a key, a colon and a value, with `version` STSv1, `mode` enforce, testing or none,
    // `max_age` of at most 31557600, and an `mx` unless the mode is none.
    #[tactic(auto, unfolding(crate::specs::Policy::read_policy))]
    pub fn read(text: &'t [u8]) -> Result<Policy<'t>, Refusal>
        ensures { held result ≡ read_policy text.now }
    {
        let mode = mode_of(text).ok_or(Refusal::BadPolicy)?;
        Ok(Policy { text, mode })
    }

    // What the policy asks of a sender.
    pub fn mode(&self) -> Mode
        ensures { result ≡ self.now.mode }
    {
        self.mode
    }
}

impl Voucher for Policy<'_> {
    ghost vouched = { λ p. policy_set p.mode p.text.now };

    #[tactic(auto, using(crate::proofs::Policies::covers_held))]
    fn vouches(&self, name: &[u8]) -> bool {
        match self.mode {
            Mode::Enforce => some_mx_covers(self.text, name),
            Mode::Testing | Mode::None => false,
        }
    }
}
