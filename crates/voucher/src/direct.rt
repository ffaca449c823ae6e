ghost use Rattle.std.specs.Prelude.{◌≡◌};
ghost use Rattle.voucher.specs.Direct.{direct_set};

use crate::voucher::Voucher;
use smtp::bytes::same_word;
use smtp::names::is_host_name;

// A domain that takes its mail itself: the domain alone, where it has no MX record. A domain that is no host name vouches for nothing.
#[derive(Clone, Copy)]
pub struct Direct<'d> {
    domain: &'d [u8],
    has_mx: bool,
}

impl<'d> Direct<'d> {
    pub fn new(domain: &'d [u8], has_mx: bool) -> Direct<'d>
        ensures domain { result.domain.now ≡ domain.now }
        ensures mx { result.has_mx ≡ has_mx }
    {
        Direct { domain, has_mx }
    }
}

impl Voucher for Direct<'_> {
    ghost vouched = { λ d. direct_set d.domain.now d.has_mx };

    #[tactic(auto, using(crate::proofs::Lettered::same_lower))]
    fn vouches(&self, name: &[u8]) -> bool {
        !self.has_mx && is_host_name(name) && same_word(self.domain, name)
    }
}
