ghost use Rattle.std.specs.Prelude.{◌≡◌, ◌++◌, Some, codes};
ghost use Rattle.voucher.specs.Policy.{mode_name};
ghost use Rattle.balgwir.specs.Policies.{policy_answer};
ghost use Rattle.balgwir.specs.Words.{yes_no};

use crate::text::YesNo;
use smtp::Refusal;
use std::fmt;
use voucher::{Mode, Policy, Voucher};

// What a policy says to one name: its mode, and whether it vouches for the name.
#[derive(Clone, Copy)]
pub struct PolicyAnswer {
    mode: Mode,
    vouched: bool,
}

impl PolicyAnswer {
    // Reads a policy text, and asks it about a name.
    pub fn of(text: &[u8], name: &[u8]) -> Result<PolicyAnswer, Refusal>
        ensures { result ≡ policy_answer text.now name.now }
    {
        let policy = Policy::read(text)?;
        Ok(PolicyAnswer {
            mode: policy.mode(),
            vouched: policy.vouches(name),
        })
    }
}

impl fmt::Display for PolicyAnswer {
    ghost output = { λ a. Some (codes "mode: " ++ (mode_name a.mode ++ (codes "\nvouched: " ++ (yes_no a.vouched ++ codes "\n")))) };

    fn fmt<W: fmt::Write>(&self, f: &mut fmt::Formatter<W>) -> fmt::Result {
        let mode = self.mode.name();
        let vouched = YesNo(self.vouched).word();
        writeln!(f, "mode: {mode}\nvouched: {vouched}")
    }
}
