// Prices and sizes that are accepted.
ghost use Rattle.std.specs.Prelude.{◌≡◌};
ghost use Rattle.market.specs.Refusals.{refused_by, first_hit};
ghost use Rattle.market.specs.Spans.{price_in_span, on_grid, size_in_span, price_checks, grid_checks, size_checks};

use crate::refusal::{Refusal, refuse_if};
use crate::units::{Cents, Contracts};

pub const HIGHEST_PRICE: u32 = 99_999;

pub const LARGEST_SIZE: u32 = 9_999;

// From this price up the grid is coarser.
pub const COARSE_FROM: u32 = 300;

pub const FINE_STEP: u32 = 5;

pub const COARSE_STEP: u32 = 10;

impl Cents {
    // Whether this is a price.
    pub fn is_price(self) -> bool
        ensures { result ≡ price_in_span self.value }
    {
        1 <= self.value && self.value <= HIGHEST_PRICE
    }

    // Whether this is a price of the grid.
    pub fn is_on_grid(self) -> bool
        ensures { result ≡ on_grid self.value }
    {
        let step = if self.value < COARSE_FROM {
            FINE_STEP
        } else {
            COARSE_STEP
        };
        self.is_price() && self.value % step == 0
    }

    // The three checks differ in what they ask and by what they refuse, and are a line each.
    pub fn check_price(self) -> Result<(), Refusal>
        ensures { refused_by result ≡ first_hit (price_checks self.value) }
    {
        refuse_if(!self.is_price(), Refusal::BadPrice)
    }

    pub fn check_on_grid(self) -> Result<(), Refusal>
        ensures { refused_by result ≡ first_hit (grid_checks self.value) }
    {
        refuse_if(!self.is_on_grid(), Refusal::BadPrice)
    }
}

impl Contracts {
    // Whether this is a size.
    pub fn is_size(self) -> bool
        ensures { result ≡ size_in_span self.count }
    {
        1 <= self.count && self.count <= LARGEST_SIZE
    }

    pub fn check_size(self) -> Result<(), Refusal>
        ensures { refused_by result ≡ first_hit (size_checks self.count) }
    {
        refuse_if(!self.is_size(), Refusal::BadSize)
    }
}
