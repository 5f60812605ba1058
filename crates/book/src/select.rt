// Filters on orders, and walks over a list of orders by one of them.
ghost use Rattle.std.specs.Prelude.{◌≡◌, ◌≤◌, length, take, sum_by, count_by, filter as kept_by};
ghost use Rattle.std.specs.List.{AllByRecursion};
ghost use Rattle.market.specs.Words.{standing};
ghost use Rattle.rules.specs.Prices.{within};
ghost use Rattle.rules.specs.Series.{due, found};
ghost use Rattle.rules.specs.Volume.{willing, of_order};
ghost use Rattle.book.specs.Filters.{passes};

use market::order::{Order, OrderKind, Side};
use market::units::{Cents, Contracts, Millis};

// What is asked of an order. It is an enum and no closure: contracts cite what each case keeps by its name.
#[derive(Clone, Copy)]
pub enum Filter {
    Numbered(u16),
    Besides(u16),
    // its exposure has ended by this time
    Due(Millis),
    Lasting(Millis),
    InBook,
    Outside,
    // the customer's order of an auction
    Auctioned,
    // an auction order that is not the customer's
    AuctionContra,
    // on the other side
    Contra(Side),
    // an order of the book on the other side
    BookContra(Side),
    // an order of the book on the other side, at this price or a better one for the taker
    Reachable(Side, Cents),
    // an order of that side that trades at this price
    Willing(Side, Cents),
    // a buyer or a seller that trades at this price
    Crossed(Cents),
    // this member's order of the book under this number
    OwnedBy(u16, u16),
    // this member's competing order under this number
    CompetingOf(u16, u16),
}

// Whether an exposure ends by that time.
fn is_due(exposed: Option<Millis>, time: Millis) -> bool
    ensures { result ≡ due time.count exposed }
{
    exposed.is_some_and(|end| end <= time)
}

// Whether a price is no worse than the bound for a taker on that side.
fn is_within(taker: Side, bound: Cents, price: Cents) -> bool
    ensures { result ≡ within taker bound.value price.value }
{
    match taker {
        Side::Buy => price <= bound,
        Side::Sell => bound <= price,
    }
}

// Whether an order of that side trades at a price. A guard on the kind decides, as a rule of this project has it.
pub fn is_willing(order: &Order, side: Side, price: Cents) -> bool
    ensures { result ≡ willing side price.value (of_order order.now) }
{
    order.side.is(side)
        && match order.kind {
            OrderKind::Limit(limit) if is_within(side, limit, price) => true,
            OrderKind::Limit(_) => false,
            OrderKind::MarketOnOpening => true,
        }
}

impl Filter {
    pub fn passes(self, order: &Order) -> bool
        ensures { result ≡ passes self order.now }
    {
        match self {
            Filter::Numbered(number) => order.number == number,
            Filter::Besides(number) => order.number != number,
            Filter::Due(time) => is_due(order.exposed, time),
            Filter::Lasting(time) => !is_due(order.exposed, time),
            Filter::InBook => order.role.is_in_book(),
            Filter::Outside => !order.role.is_in_book(),
            Filter::Auctioned => order.role.is_auctioned(),
            Filter::AuctionContra => !(order.role.is_in_book() || order.role.is_auctioned()),
            Filter::Contra(side) => order.side.is(side.other()),
            Filter::BookContra(side) => order.side.is(side.other()) && order.role.is_in_book(),
            Filter::Reachable(side, bound) => order.side.is(side.other())
                && order.role.is_in_book()
                && is_within(side, bound, order.kind.price()),
            Filter::Willing(side, price) => is_willing(order, side, price),
            Filter::Crossed(price) => is_willing(order, order.side, price),
            Filter::OwnedBy(member, number) => order.number == number
                && order.member == member
                && order.role.is_in_book(),
            Filter::CompetingOf(member, number) => order.number == number
                && order.member == member
                && order.role.is_competing(),
        }
    }
}

// Copies the orders that pass to the front of `out`, and answers how many.
pub fn pick(orders: &[Order], filter: Filter, out: &mut [Order]) -> usize
    requires { length orders.now ≤ length out.old }
    ensures front { take result out.new ≡ kept_by (passes filter) orders.now }
    ensures count { result ≡ length (kept_by (passes filter) orders.now) }
    ensures few { result ≤ length orders.now }
{
    let mut count = 0;
    // By index: what is written through a zipped `iter_mut` is not known afterwards.
    for order in orders.iter().filter(|order| filter.passes(order)) {
        out[count] = *order;
        count += 1;
    }
    count
}

// How many orders pass.
pub fn count(orders: &[Order], filter: Filter) -> usize
    ensures { result ≡ count_by (passes filter) orders.now }
{
    // A loop and no chain: the library's `count` is a call that tests the filter's case anew for each order.
    let mut total = 0;
    for order in orders {
        if filter.passes(order) {
            total += 1;
        }
    }
    total
}

// The contracts that stand of the orders that pass. It asks this of a plain list: see the crate's head.
pub fn volume(orders: &[Order], filter: Filter) -> Contracts
    requires few { length orders.now ≤ 161 }
    requires small { AllByRecursion (λ o. standing o ≤ 9999) orders.now }
    ensures { result.count ≡ sum_by standing (kept_by (passes filter) orders.now) }
{
    // A loop, for the same reason.
    let mut sum = 0;
    for order in orders {
        if filter.passes(order) {
            sum += order.left.count;
        }
    }
    Contracts { count: sum }
}

// The first order that passes.
pub fn find(orders: &[Order], filter: Filter) -> Option<Order>
    ensures { result ≡ found (passes filter) orders.now }
{
    orders.iter().find(|order| filter.passes(order)).copied()
}
