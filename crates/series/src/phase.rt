// The phase of a series.
ghost use Rattle.std.specs.Prelude.{◌≡◌};
ghost use Rattle.series.specs.Phases.{opened, running};

use market::auction::Auction;

// Before the opening, or trading, with the auction that runs, if one does.
#[derive(Clone, Copy)]
pub enum Phase {
    PreOpening,
    Trading { auction: Option<Auction> },
}

impl Phase {
    pub fn is_trading(self) -> bool
        ensures { result ≡ opened self }
    {
        matches!(self, Phase::Trading { .. })
    }

    // The auction that runs, if one does.
    pub fn auction(self) -> Option<Auction>
        ensures { result ≡ running self }
    {
        match self {
            Phase::PreOpening => None,
            Phase::Trading { auction } => auction,
        }
    }
}
