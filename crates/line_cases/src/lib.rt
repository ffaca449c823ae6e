// Lines by hand: visits over the sheet line, each refusal, and the border cases of room, replies and pieces.

#![tactic(auto)]

#[cfg(test)]
mod borders;
#[cfg(test)]
mod records;
#[cfg(test)]
mod refusals;
#[cfg(test)]
mod talk;
#[cfg(test)]
mod visits;
