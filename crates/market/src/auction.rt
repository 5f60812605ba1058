// A running price improvement auction.
use crate::order::Side;
use crate::units::{Contracts, Millis};

// The numbers of the customer's and the starter's order, the starter's member, the customer's side and size, and the end.
#[derive(Clone, Copy, PartialEq, Eq, Debug)]
pub struct Auction {
    pub customer: u16,
    pub starter: u16,
    pub member: u16,
    pub side: Side,
    pub size: Contracts,
    pub end: Millis,
}
