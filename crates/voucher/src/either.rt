ghost use Rattle.std.specs.Prelude.{◌≡◌};
ghost use Rattle.voucher.specs.Either.{union};

use crate::voucher::Voucher;

// Either of two vouchers: the names that one of them or both vouch for.
#[derive(Drop)]
pub struct Either<A, B> {
    first: A,
    second: B,
}

impl<A, B> Either<A, B> {
    pub fn new(first: A, second: B) -> Either<A, B>
        ensures first { result.first ≡ first }
        ensures second { result.second ≡ second }
    {
        Either { first, second }
    }
}

impl<A: Voucher, B: Voucher> Voucher for Either<A, B> {
    ghost vouched = { λ e. union (A.Voucher.vouched e.first) (B.Voucher.vouched e.second) };

    fn vouches(&self, name: &[u8]) -> bool {
        self.first.vouches(name) || self.second.vouches(name)
    }
}
