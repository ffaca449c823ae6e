// SMTP's own forms, read and checked: refusals, names and addresses, replies.

#![tactic(auto)]

pub mod bytes;
pub mod names;
pub mod refusal;
pub mod reply;
mod reply_line;

pub use refusal::Refusal;
pub use reply::Reply;
pub use reply_line::ReplyLine;
