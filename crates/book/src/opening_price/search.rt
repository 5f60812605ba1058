// The search for the price that opens best.
ghost use Rattle.std.specs.Prelude.{◌≡◌, ◌+◌, [], ◌∷◌};
ghost use Rattle.book.specs.Steps.{Placed, lower};
ghost use Rattle.book.specs.Rungs.{rungs};
ghost use Rattle.book.specs.Rating.{Rated, beats};

use crate::ladder::{Cursor, Ladder};
use crate::opening_price::price::{GridPrice, Price};
use market::order::Side;
use market::units::Cents;

// What a search knows of an opening: the ladders of both sides, and the close.
#[derive(Drop)]
pub struct Opening {
    pub buys: Ladder,
    pub sells: Ladder,
    pub close: Price,
}

// A price with the volume that trades at it, the surplus left over, and its distance from the close.
#[derive(Clone, Copy)]
pub struct Candidate {
    pub price: u32,
    pub volume: u32,
    pub surplus: u32,
    pub distance: u32,
}

// The best candidate so far, and where the last one stood in each ladder.
#[derive(Clone, Copy)]
struct Search<'a> {
    opening: &'a Opening,
    best: Candidate,
    buys: Cursor,
    sells: Cursor,
    ghost rated: { Rated opening.now best },
    ghost buys_placed: { Placed (rungs opening.now.buys) buys },
    ghost sells_placed: { Placed (rungs opening.now.sells) sells },
}

// Whether a candidate opens better: it trades more; as much with less surplus; then nearer the close; then lower.
fn opens_better(new: Candidate, old: Candidate) -> bool
    ensures { result ≡ beats new old }
{
    new.volume > old.volume
        || new.volume == old.volume
            && (new.surplus, new.distance, new.price) < (old.surplus, old.distance, old.price)
}

impl<'a> Search<'a> {
    ghost use Rattle.std.specs.Prelude.{None};
    ghost use Rattle.book.specs.Candidates as grid;
    ghost use Rattle.book.specs.Search.{Tried, beside_steps};

    // A search that has seen the lowest price of the grid.
    fn begin(opening: &'a Opening) -> Search<'a>
        ensures opening { result.opening.now ≡ opening.now }
        ensures price { result.best.price ≡ 5 }
    {
        let start = Cursor { at: 0, volume: 0 };
        let buys = opening.buys.place(5, start);
        let sells = opening.sells.place(6, start);
        Search {
            opening,
            best: opening.rate(5, buys.volume, sells.volume),
            buys,
            sells,
        }
    }

    // Tries a multiple of the grid's step, if it is a price.
    fn try_price(self, price: GridPrice) -> Search<'a>
        ensures { Tried self.entry result (price.value ∷ []) }
    {
        let price = price.value;
        if !(Cents { value: price }).is_price() {
            return self;
        }
        let buys = self.opening.buys.place(price, self.buys);
        let sells = self.opening.sells.place(price + 1, self.sells);
        let candidate = self.opening.rate(price, buys.volume, sells.volume);
        let best = if opens_better(candidate, self.best) {
            candidate
        } else {
            self.best
        };
        Search {
            opening: self.opening,
            best,
            buys,
            sells,
        }
    }

    // Tries the grid prices around the close.
    fn try_close(self) -> Search<'a>
        ensures { Tried self.entry result (grid.around self.entry.opening.now.close.value) }
    {
        let close = self.opening.close;
        let middle = close.floor();
        let first = self.try_price(middle.below());
        let second = first.try_price(middle);
        second.try_price(close.next())
    }

    // Tries the grid prices beside a limit: those between which its order becomes willing.
    fn try_beside(self, side: Side, limit: Price) -> Search<'a>
        ensures { Tried self.entry result (grid.beside side limit.value) }
    {
        match side {
            Side::Buy => {
                let willing = self.try_price(limit.floor());
                willing.try_price(limit.next())
            }
            Side::Sell => {
                let first = limit.ceiling();
                let unwilling = self.try_price(first.below());
                unwilling.try_price(first)
            }
        }
    }

    // Tries the grid prices beside each limit of a side. Limits in a row at one price are tried once.
    fn try_limits(self, side: Side, ladder: &Ladder) -> Search<'a>
        ensures { Tried self.entry result (beside_steps side None (rungs ladder.now)) }
    {
        let mut best = self;
        let mut last = None;
        for step in &ladder.steps[ladder.first..] {
            if last != Some(step.price) {
                best = best.try_beside(side, Price { value: step.price });
                last = Some(step.price);
            }
        }
        best
    }
}

impl Opening {
    ghost use Rattle.std.specs.Prelude.{fold};
    ghost use Rattle.book.specs.Rating.{better_on};
    ghost use Rattle.book.specs.Search.{candidates};

    // A candidate, given the volume of the buys limited below its price and that of the sells limited at most there.
    fn rate(&self, price: u32, buys_below: u32, sells_upto: u32) -> Candidate
        requires buys { buys_below ≡ lower (rungs self.now.buys) price }
        requires sells { sells_upto ≡ lower (rungs self.now.sells) (price + 1) }
        ensures rated { Rated self.now result }
        ensures price { result.price ≡ price }
    {
        let demand = self.buys.market + self.buys.limits - buys_below;
        let supply = self.sells.market + sells_upto;
        Candidate {
            price,
            volume: demand.min(supply),
            surplus: demand.abs_diff(supply),
            distance: price.abs_diff(self.close.value),
        }
    }

    // The best of all candidates.
    pub fn find_best(&self) -> Candidate
        ensures rated { Rated self.now result }
        ensures price { result.price ≡ fold (better_on self.now) 5 (candidates self.now) }
    {
        let around_close = Search::begin(self).try_close();
        let beside_buys = around_close.try_limits(Side::Buy, &self.buys);
        let beside_sells = beside_buys.try_limits(Side::Sell, &self.sells);
        beside_sells.best
    }
}
