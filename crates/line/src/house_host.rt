ghost use Rattle.std.specs.Prelude.{◌≡◌};
ghost use Rattle.std.specs.Result.{result_map_both};
ghost use Rattle.std.specs.Option.{ok_or};
ghost use Rattle.smtp.specs.declared.refusal.Refusal.TheVariants.{BadHouseHost};
ghost use Rattle.line.specs.HouseHost.{recipient_number, coded, recipient_code, host_of, offers, house_host};
ghost use Rattle.line.specs.HouseLaws.{HouseHostHolds};

use crate::record::Trust;
use smtp::Refusal;
use smtp::names::is_host_name;

// What a recipient gets, by its code.
#[derive(Clone, Copy, PartialEq, Eq, Debug)]
pub(crate) enum RecipientCode {
    Accepted = 250,
    TryLater = 450,
    Refused = 550,
}

impl RecipientCode {
    // The code as it begins a line, with the blank behind it.
    pub(crate) fn front(self) -> [u8; 4]
        ensures { result ≡ coded (recipient_number self) 32 }
    {
        let code = self as u16;
        [
            b'0' + (code / 100) as u8,
            b'0' + (code / 10 % 10) as u8,
            b'0' + (code % 10) as u8,
            b' ',
        ]
    }
}

// A number that is no recipient's code.
#[derive(Clone, Copy, PartialEq, Eq, Debug)]
pub(crate) struct UnknownCode(pub(crate) u16);

impl TryFrom<u16> for RecipientCode {
    type Error = UnknownCode;

    ghost try_from_gives = { λ code r. r ≡ ok_or (recipient_code code) (record { 0 = code }) };

    fn try_from(code: u16) -> Result<RecipientCode, UnknownCode> {
        match code {
            250 => Ok(RecipientCode::Accepted),
            450 => Ok(RecipientCode::TryLater),
            550 => Ok(RecipientCode::Refused),
            _ => Err(UnknownCode(code)),
        }
    }
}

impl From<UnknownCode> for Refusal {
    ghost from_gives = { λ _ refusal. refusal ≡ BadHouseHost };

    fn from(_: UnknownCode) -> Refusal {
        Refusal::BadHouseHost
    }
}

// A host of our own for rehearsals: its name, whether it offers STARTTLS and REQUIRETLS, the trust of its handshake, and
// the code that a recipient gets.
#[derive(Clone, Copy)]
pub struct HouseHost<'n> {
    pub(crate) name: &'n [u8],
    pub(crate) starttls: bool,
    pub(crate) requiretls: bool,
    pub(crate) trust: Trust,
    pub(crate) recipient: RecipientCode,
}

impl<'n> HouseHost<'n> {
    // A house host: 7 if the name is no host name, 15 for a trust above 2 or a code that is not 250, 450 or 550.
    // Trust and code come as numbers, since refusal 15 is about numbers that are none of theirs.
    pub fn new(
        name: &'n [u8],
        starttls: bool,
        requiretls: bool,
        trust: u8,
        code: u16,
    ) -> Result<HouseHost<'n>, Refusal>
        ensures { result_map_both host_of (λ e. e) result ≡ house_host name.now starttls requiretls trust code }
    {
        if !is_host_name(name) {
            return Err(Refusal::BadHost);
        }
        Ok(HouseHost {
            name,
            starttls,
            requiretls,
            trust: Trust::try_from(trust)?,
            recipient: RecipientCode::try_from(code)?,
        })
    }

    // Whether it offers what may be listed to EHLO: in the clear STARTTLS, covered REQUIRETLS.
    pub(crate) fn offers(self, covered: bool) -> bool
        ensures { result ≡ offers (host_of self.entry) covered }
    {
        if covered {
            self.requiretls
        } else {
            self.starttls
        }
    }
}

// The house host's rule holds what is said of it.
pub fn house_host_holds() -> u8
    ensures { HouseHostHolds }
{
    0
}
