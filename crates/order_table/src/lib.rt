// The order book: the table of order records, and what is asked of it.
#![tactic(auto)]

pub mod departures;
mod limits;
pub mod prices;
pub mod table;
