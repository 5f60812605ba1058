// How contracts at one price are shared among the orders that claim them.
#![tactic(auto)]

pub mod examples;
pub mod pro_rata;
pub mod rule;
pub mod sums;
pub mod time;
