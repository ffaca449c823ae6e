// MAIL lines, tags, content and dot-stuffing on the RFCs' examples and at the borders of the rules, run.

#![tactic(auto)]

#[cfg(test)]
mod content;
#[cfg(test)]
mod mail_lines;
#[cfg(test)]
mod tags;
#[cfg(test)]
mod texts;
