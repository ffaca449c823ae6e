// Vouchers tried on examples: the policies that RFC 8461 prints, tables of what a policy text may be, and a voucher written for this crate.

#![tactic(auto)]

pub mod one_name;
#[cfg(test)]
mod policies;
#[cfg(test)]
mod vouchers;

pub use one_name::OneName;
