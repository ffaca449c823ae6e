ghost use Rattle.std.specs.Prelude.{◌≡◌, ℕ, Bool, List};
ghost use Rattle.voucher.specs.Voucher.{holds};

// Whatever can say of a host name that it is the right one. Its meaning is a set of host names, told by their small letters: it says
// yes to a name exactly when the set holds it, and asking alters nothing.
pub trait Voucher {
    ghost vouched: { Self → List ℕ → Bool };

    fn vouches(&self, name: &[u8]) -> bool
        ensures { result ≡ holds (vouched self.now) name.now };
}

// A voucher that is lent vouches for the same names.
impl<V: Voucher> Voucher for &V {
    ghost vouched = { λ v. V.Voucher.vouched v.now };

    fn vouches(&self, name: &[u8]) -> bool {
        (**self).vouches(name)
    }
}
