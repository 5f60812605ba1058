// Passes, which show that a call is made to the right series in the right phase. They are two types and not one with a
// parameter for the phase, which would be no plainer: each call asks for one of the two by its name.

// Shown before the opening, and given up to open.
#[derive(Drop)]
pub struct PreOpeningPass {
    pub(crate) series: u16,
}

// Shown once the series trades.
#[derive(Drop)]
pub struct TradingPass {
    pub(crate) series: u16,
}
