// One options series: who may call it, what it holds, and its calls.
#![tactic(auto)]

mod accepted;
pub mod answer;
mod away;
pub mod day;
pub mod pass;
mod phase;
mod remainder;
pub mod series;
pub mod ticket;
