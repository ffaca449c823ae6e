ghost use Rattle.std.specs.Prelude.{◌≡◌};
ghost use Rattle.balgwir_c.specs.Calls.{status, out_after};

use crate::number::refusal_int;
use smtp::Refusal;

// What a call answers: 0, with what it found put into `out`, or the number of the refusal, with `out` left as it is.
pub(crate) fn answer<T: Copy>(found: Result<T, Refusal>, out: &mut T) -> i32
    ensures number { result ≡ status found }
    ensures told { out.new ≡ out_after found out.old }
{
    match found {
        Ok(value) => {
            *out = value;
            0
        }
        Err(refusal) => refusal_int(refusal),
    }
}
