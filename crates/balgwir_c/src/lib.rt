// The calls that C links: MAIL lines with their tags, and replies, over bytes and numbers. include/balgwir.h declares them.

#![tactic(auto)]

ghost use Rattle.balgwir_c.specs.CallsHold.{CallsHold};

mod answer;
pub mod mail;
mod number;
pub mod reply;

// Does nothing when it runs; its contract says what the calls come to: refusals by the table of checks, and what is handed out within the
// memory that was lent.
pub fn calls_hold() -> u8
    ensures { CallsHold }
{
    0
}
