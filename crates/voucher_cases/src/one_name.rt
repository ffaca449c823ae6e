ghost use Rattle.std.specs.Prelude.{◌≡◌};
ghost use Rattle.voucher_cases.specs.OneName.{one_name};

use smtp::bytes::same_word;
use smtp::names::is_host_name;
use voucher::Voucher;

// One name that is known to be right, as from a contract between two operators.
#[derive(Clone, Copy)]
pub struct OneName<'n> {
    name: &'n [u8],
}

impl<'n> OneName<'n> {
    pub fn new(name: &'n [u8]) -> OneName<'n>
        ensures { result.name.now ≡ name.now }
    {
        OneName { name }
    }
}

impl Voucher for OneName<'_> {
    ghost vouched = { λ v. one_name v.name.now };

    #[tactic(auto, using(voucher::proofs::Lettered::same_lower))]
    fn vouches(&self, name: &[u8]) -> bool {
        is_host_name(name) && same_word(self.name, name)
    }
}
