// The words of the trade: prices, sizes, times, orders, rows, refusals and the price grid.
#![tactic(auto)]

pub mod auction;
pub mod checks;
pub mod close;
pub mod order;
pub mod quote;
pub mod refusal;
pub mod row;
pub mod units;
