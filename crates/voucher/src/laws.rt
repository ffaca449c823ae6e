ghost use Rattle.voucher.specs.Laws.{VouchersHold};

// What holds of every voucher: no set tells letter case apart, and each of the four has the set that it should have; and what the policies
// that RFC 8461 prints are read as.
pub fn vouchers_hold() -> u8
    ensures { VouchersHold }
{
    0
}
