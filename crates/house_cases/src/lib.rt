// The house host by hand: visits, each refusal, and the borders of room and buffers.
// Tests use the line's own calls, since what a call answers is what they are about.

#![tactic(auto)]

#[cfg(test)]
mod answers;
#[cfg(test)]
mod borders;
#[cfg(test)]
mod refusals;
#[cfg(test)]
mod visits;
