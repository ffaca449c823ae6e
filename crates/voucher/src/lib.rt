// Vouchers: who says that a host name is the right one for a domain.

#![tactic(auto)]

pub mod direct;
pub mod either;
pub mod laws;
pub mod policy;
mod policy_lines;
pub mod signed_list;
pub mod voucher;

pub use direct::Direct;
pub use either::Either;
pub use policy::{Mode, Policy};
pub use signed_list::SignedList;
pub use voucher::Voucher;
