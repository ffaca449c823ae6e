// Worked examples: a table of what the definitions answer, proved, and the RFCs' examples and border cases, run.

#![tactic(auto)]

ghost use Rattle.cases.specs.Examples.{ExamplesHold};

#[cfg(test)]
mod names;
#[cfg(test)]
mod replies;

// Says nothing at run time; its contract is that every row of the table of examples is right.
pub fn examples_hold() -> u8
    ensures { ExamplesHold }
{
    0
}
