// The prices of a search for the opening price.
ghost use Rattle.std.specs.Prelude.{◌≡◌, ◌≤◌, true, cond, nat_lt};
ghost use Rattle.book.specs.Candidates as grid;

use market::checks::{COARSE_FROM, COARSE_STEP, FINE_STEP};

// A price that a limit or the close may have.
#[derive(Clone, Copy)]
pub struct Price {
    pub value: u32,
    ghost span: { value ≤ 99999 },
}

// A multiple of the grid's step; 0 and 100,000 lie beyond the ends of the grid.
#[derive(Clone, Copy)]
pub struct GridPrice {
    pub value: u32,
    ghost step: { grid.on_step value ≡ true },
}

// The grid's step from a price on.
fn step_from(price: u32) -> u32
    ensures { result ≡ cond (nat_lt price 300) 5 10 }
{
    if price < COARSE_FROM {
        FINE_STEP
    } else {
        COARSE_STEP
    }
}

impl Price {
    // The last grid price that is not above this price.
    pub fn floor(self) -> GridPrice
        ensures { result.value ≡ grid.floor self.value }
    {
        let price = self.value;
        // By each step as a constant: a remainder by a step that is only known then takes longer.
        let over = if price < COARSE_FROM {
            price % FINE_STEP
        } else {
            price % COARSE_STEP
        };
        GridPrice {
            value: price - over,
        }
    }

    // The first grid price above this price.
    pub fn next(self) -> GridPrice
        ensures { result.value ≡ grid.above (grid.floor self.value) }
    {
        let last = self.floor().value;
        GridPrice {
            value: last + step_from(last),
        }
    }

    // The first grid price that is not below this price.
    pub fn ceiling(self) -> GridPrice
        ensures { result.value ≡ grid.ceiling self.value }
    {
        let last = self.floor();
        if last.value == self.value {
            last
        } else {
            self.next()
        }
    }
}

impl GridPrice {
    // The grid price before this one.
    pub fn below(self) -> GridPrice
        ensures { result.value ≡ grid.below self.value }
    {
        let price = self.value;
        if price > 300 {
            GridPrice { value: price - 10 }
        } else {
            GridPrice {
                value: price.saturating_sub(5),
            }
        }
    }
}
