// Prices on offer to a taker.
ghost use Rattle.std.specs.Prelude.{◌≡◌, Some};
ghost use Rattle.rules.specs.Prices.{cents, better_than, better_price, quoted, away_best, out_of_range};
ghost use Rattle.rules.specs.Prices as model;
ghost use Rattle.rules.specs.Series.{book_best};

use book::select::Filter;
use market::order::{Order, Side};
use market::quote::Quote;
use market::units::Cents;

// Whether a taker on that side is better off at a price than at another.
pub fn is_better(side: Side, price: Cents, other: Cents) -> bool
    ensures { result ≡ better_than side price.value other.value }
{
    match side {
        Side::Buy => price < other,
        Side::Sell => other < price,
    }
}

// The better of two prices.
fn better(side: Side, price: Cents, other: Cents) -> Cents
    ensures { Some result.value ≡ better_price side (Some price.value) (Some other.value) }
{
    if is_better(side, price, other) {
        price
    } else {
        other
    }
}

// The better of two prices, each of which may be missing.
pub fn better_price(side: Side, price: Option<Cents>, other: Option<Cents>) -> Option<Cents>
    ensures { cents result ≡ better_price side (cents price) (cents other) }
{
    match (price, other) {
        (Some(p), Some(q)) => Some(better(side, p, q)),
        (p, q) => p.or(q),
    }
}

// The two walks below are a `for` and no `fold`: an invariant of one line proves them, and of a `fold` no proof was found.

// What an away market quotes a taker on that side.
fn quoted(side: Side, quote: &Quote) -> Option<Cents>
    ensures { cents result ≡ quoted side quote.now }
{
    match side {
        Side::Buy => quote.offer,
        Side::Sell => quote.bid,
    }
}

// The best away price for a taker on that side.
pub fn away_best(side: Side, quotes: &[Quote]) -> Option<Cents>
    ensures { cents result ≡ away_best side quotes.now }
{
    let mut best = None;
    for quote in quotes {
        best = better_price(side, best, quoted(side, quote));
    }
    best
}

// The best price of the book for a taker on that side.
pub fn book_best(side: Side, orders: &[Order]) -> Option<Cents>
    ensures { cents result ≡ book_best side orders.now }
{
    let mut best = None;
    for order in orders {
        if Filter::BookContra(side).passes(order) {
            best = better_price(side, best, Some(order.kind.price()));
        }
    }
    best
}

// The price beyond which an entering order does not trade, given the away best.
pub fn bound(side: Side, limit: Cents, best: Option<Cents>) -> Cents
    ensures { result.value ≡ model.bound side limit.value (cents best) }
{
    best.map_or(limit, |price| better(side, limit, price))
}

// Whether a limit reaches the away best.
pub fn reaches(side: Side, limit: Cents, best: Option<Cents>) -> bool
    ensures { result ≡ model.reaches side limit.value (cents best) }
{
    best.is_some_and(|price| !is_better(side, limit, price))
}

// Whether a price lies over 50 cents from the close, or five times that distance exceeds the close.
pub fn is_out_of_range(close: Cents, price: Cents) -> bool
    ensures { result ≡ out_of_range close.value price.value }
{
    let distance = price.value.abs_diff(close.value);
    distance > 50 || 5 * distance > close.value
}
