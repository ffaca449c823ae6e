ghost use Rattle.std.specs.Prelude.{◌≡◌};
ghost use Rattle.smtp.specs.Refusals.{number_of};

// Why an input is turned down. Each case has a number, by which callers and support know it; where several checks fail,
// the lowest number is given.
#[derive(Clone, Copy, PartialEq, Eq, Debug)]
pub enum Refusal {
    // a MAIL line above 523 bytes, its CRLF counted
    MailLineTooLong = 1,
    // a MAIL line that breaks its form
    MailLineForm = 2,
    // an option of a MAIL line, or its value, that is not known
    UnknownOption = 3,
    // one option of a MAIL line twice
    RepeatedOption = 4,
    // REQUIRETLS on a MAIL line that came without TLS
    RequireTlsInClear = 5,
    // two or more TLS-Required fields in a well-formed header section, without the option
    RepeatedTlsRequired = 6,
    // no host or over 16 of them, a part outside the host text, an ill-formed host name, no such host number
    BadHost = 7,
    // an own name, path or recipient that is ill-formed
    BadAddress = 8,
    // content or a header section that breaks its form
    BadContent = 9,
    // a MAIL buffer under 523 bytes, work under 48,000, reply under 4,096, note under 32,768, or fewer trials than hosts
    ShortBuffer = 10,
    // a line in the wrong standing or visit; for relay and return, a line that is not closed
    WrongStanding = 11,
    // no room on the line; for relay and return, room below the need
    NoRoom = 12,
    // a policy text that breaks its form
    BadPolicy = 13,
    // a sheet that breaks its form
    BadSheet = 14,
    // a house host whose trust is above 2, or whose code is not 250, 450 or 550
    BadHouseHost = 15,
}

impl Refusal {
    // The number by which the refusal is known, 1 to 15.
    pub fn number(self) -> u8
        ensures { result ≡ number_of self }
    {
        self as u8
    }
}
