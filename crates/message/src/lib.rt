// A message as the gateway takes it and hands it on: MAIL lines, content and header sections, dot-stuffing, the tag.

#![tactic(auto)]

pub mod content;
mod lines;
pub mod mail_line;
mod mail_options;
pub mod stuffing;
pub mod tag;
pub mod tagged;
mod writer;
