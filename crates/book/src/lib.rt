// The order book under the calls of a series. Its public functions take plain lists and slices, and say of them what they
// ask: a type with these facts would ask more of a caller.
#![tactic(auto)]

pub mod allocation;
mod insertion;
mod ladder;
pub mod opening_price;
pub mod pairing;
pub mod priority;
pub mod room;
pub mod rows;
pub mod select;
pub mod settle;
pub mod table;
pub mod take;
