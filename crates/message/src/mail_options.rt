ghost use Rattle.std.specs.Prelude.{◌≡◌};
ghost use Rattle.message.specs.MailLines.{option_form, is_require_tls, is_size, is_ret};
ghost use Rattle.message.specs.MailParts.{counted, is_seen, none_seen, seen, options_in, checked};

use smtp::bytes::same_word;
use smtp::refusal::Refusal;

// The most digits of a size.
const SIZE_DIGITS: usize = 20;

// How often one option was seen.
#[derive(Clone, Copy, PartialEq, Eq)]
pub(crate) enum Count {
    Never,
    Once,
    // twice or more
    Repeated,
}

// What the options seen so far say: whether each has its form, whether each is known, and how often each was seen.
#[derive(Clone, Copy)]
pub(crate) struct Options {
    pub(crate) formed: bool,
    pub(crate) known: bool,
    pub(crate) require_tls: Count,
    pub(crate) size: Count,
    pub(crate) ret: Count,
}

// Whether an option is 1 or more bytes of 33 to 126.
fn is_option(option: &[u8]) -> bool
    ensures { result ≡ option_form option.now }
{
    !option.is_empty() && option.iter().all(|b| b.is_ascii_graphic())
}

fn is_require_tls(option: &[u8]) -> bool
    ensures { result ≡ is_require_tls option.now }
{
    same_word(option, b"REQUIRETLS")
}

// Whether an option is SIZE= and 1 to 20 digits.
fn is_size(option: &[u8]) -> bool
    ensures { result ≡ is_size option.now }
{
    // A `match`: `is_some_and` would hold the test of the digits as a closure in a closure, no plainer to read or to prove.
    match option.split_at_checked(5) {
        Some((name, value)) => {
            same_word(name, b"SIZE=")
                && !value.is_empty()
                && value.len() <= SIZE_DIGITS
                && value.iter().all(|b| b.is_ascii_digit())
        }
        None => false,
    }
}

fn is_ret(option: &[u8]) -> bool
    ensures { result ≡ is_ret option.now }
{
    same_word(option, b"RET=FULL") || same_word(option, b"RET=HDRS")
}

impl Count {
    // Whether the option was seen.
    pub(crate) fn is_seen(self) -> bool
        ensures { result ≡ is_seen self }
    {
        self != Count::Never
    }

    // The count with one more option seen, which is this one or another.
    fn with(self, is: bool) -> Count
        ensures { result ≡ counted self is }
    {
        match (self, is) {
            (_, false) => self,
            (Count::Never, true) => Count::Once,
            (_, true) => Count::Repeated,
        }
    }
}

impl Options {
    // No option seen, behind a form that is kept so far or not.
    fn none(formed: bool) -> Options
        ensures { result ≡ none_seen formed }
    {
        Options {
            formed,
            known: true,
            require_tls: Count::Never,
            size: Count::Never,
            ret: Count::Never,
        }
    }

    // The same with one more option seen.
    fn with(self, option: &[u8]) -> Options
        ensures { result ≡ seen self option.now }
    {
        let require_tls = is_require_tls(option);
        let size = is_size(option);
        let ret = is_ret(option);
        Options {
            formed: self.formed && is_option(option),
            known: self.known && (require_tls || size || ret),
            require_tls: self.require_tls.with(require_tls),
            size: self.size.with(size),
            ret: self.ret.with(ret),
        }
    }

    // Reads what stands behind a path: nothing but options, each after one blank.
    pub(crate) fn read(tail: &[u8]) -> Options
        ensures { result ≡ options_in tail.now }
    {
        let mut parts = tail.split(|b| *b == b' ');
        // right behind the path stands nothing
        let formed = parts.next().is_some_and(|first| first.is_empty());
        parts.fold(
            Options::none(formed),
            |options, option| options.with(option),
        )
    }

    // The first refusal that the options call for, on a line that came covered by TLS or not.
    pub(crate) fn check(self, covered: bool) -> Result<(), Refusal>
        ensures { result ≡ checked self covered }
    {
        if !self.formed {
            Err(Refusal::MailLineForm)
        } else if !self.known {
            Err(Refusal::UnknownOption)
        } else if self.require_tls == Count::Repeated
            || self.size == Count::Repeated
            || self.ret == Count::Repeated
        {
            Err(Refusal::RepeatedOption)
        } else if self.require_tls.is_seen() && !covered {
            Err(Refusal::RequireTlsInClear)
        } else {
            Ok(())
        }
    }
}
