// What trades leave of the orders.
ghost use Rattle.std.specs.Prelude.{◌≡◌, ◌<◌, ◌≤◌, min, true, length, take, slice_index};
ghost use Rattle.std.specs.List.{AllByRecursion};
ghost use Rattle.market.specs.Words.{standing};
ghost use Rattle.rules.specs.Allocation.{after_trade};
ghost use Rattle.sharing.specs.Asked.{counts};
ghost use Rattle.book.specs.Filters.{passes};
ghost use Rattle.book.specs.Records.{balanced};
ghost use Rattle.book.specs.Settling.{settled, Covered, traded_up_to, settled_up_to, scattered};

use crate::priority::Ranked;
use crate::select::Filter;
use market::order::Order;
use market::units::Contracts;

// Writes each share to the place of its order.
pub fn scatter(ranked: &[Ranked], shares: &[Contracts], fills: &mut [Contracts])
    requires places { AllByRecursion (λ r. r.place < length fills.old) ranked.now }
    requires even { length ranked.now ≡ length shares.now }
    ensures { counts fills.new ≡ scattered ranked.now (counts shares.now) (counts fills.old) }
{
    for (r, share) in ranked.iter().zip(shares) {
        fills[r.place] = *share;
    }
}

// An order once it has traded some contracts, or all that is left of it.
pub fn after_trade(order: Order, traded: Contracts) -> Order
    requires sound { balanced order ≡ true }
    ensures most { result ≡ after_trade (min traded.count (standing order)) order }
    ensures exact { traded.count ≤ order.left.count → result ≡ after_trade traded.count order }
{
    let traded = traded.min(order.left);
    Order {
        left: order.left - traded,
        traded: order.traded + traded,
        ..order
    }
}

// An order once it has traded its fill, if it passes.
fn take_fill(order: &Order, filter: Filter, fill: Contracts) -> Order
    requires sound { balanced order.now ≡ true }
    ensures { result ≡ traded_up_to (passes filter) fill.count order.now }
{
    if filter.passes(order) {
        after_trade(*order, fill)
    } else {
        *order
    }
}

// The fill at a place; none past the end.
fn fill_at(fills: &[Contracts], place: usize) -> Contracts
    ensures { result.count ≡ slice_index (counts fills.now) place }
{
    fills.get(place).copied().unwrap_or(Contracts::NONE)
}

// Copies what is left of the orders once those that pass have traded their fills, and answers how many are left.
pub fn settle(orders: &[Order], filter: Filter, fills: &[Contracts], out: &mut [Order]) -> usize
    requires room { length orders.now ≤ length out.old }
    requires sound { AllByRecursion (λ o. balanced o ≡ true) orders.now }
    ensures front { take result out.new ≡ settled_up_to (passes filter) orders.now (counts fills.now) }
    ensures exact { length orders.now ≡ length fills.now → Covered (passes filter) orders.now (counts fills.now) → take result out.new ≡ settled (passes filter) orders.now (counts fills.now) }
    ensures few { result ≤ length orders.now }
{
    // `count` is the next place and the answer: a chain of iterators would need a second walk for it.
    let mut count = 0;
    for (i, order) in orders.iter().enumerate() {
        let after = take_fill(order, filter, fill_at(fills, i));
        if after.left.count > 0 {
            out[count] = after;
            count += 1;
        }
    }
    count
}
