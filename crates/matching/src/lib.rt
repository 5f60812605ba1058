// Matching: what a taker takes from the book, and what an opening trades.
#![tactic(auto)]

pub mod opening;
pub mod take;
