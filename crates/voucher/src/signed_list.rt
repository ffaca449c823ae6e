ghost use Rattle.voucher.specs.SignedList.{signed_set};
ghost use Rattle.std.specs.Prelude.{◌≡◌};

use crate::voucher::Voucher;
use smtp::names::is_host_name;

// An MX list with its DNSSEC mark: all host names if it is signed, and none otherwise.
#[derive(Clone, Copy)]
pub struct SignedList {
    signed: bool,
}

impl SignedList {
    pub fn new(signed: bool) -> SignedList
        ensures { result.signed ≡ signed }
    {
        SignedList { signed }
    }
}

impl Voucher for SignedList {
    ghost vouched = { λ list. signed_set list.signed };

    fn vouches(&self, name: &[u8]) -> bool {
        self.signed && is_host_name(name)
    }
}
