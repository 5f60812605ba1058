// The best prices of an away market.
use crate::units::Cents;

// Either price may be missing.
#[derive(Clone, Copy, PartialEq, Eq, Debug)]
pub struct Quote {
    pub bid: Option<Cents>,
    pub offer: Option<Cents>,
}
