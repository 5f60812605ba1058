// Price discovery: demand and supply at a price, and the opening price.
#![tactic(auto)]

pub mod opening_price;
