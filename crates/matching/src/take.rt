// Taking contracts from the orders against one.
ghost use Rattle.std.specs.Prelude.{◌≡◌};
ghost use Rattle.market.specs.Refusals.{refused_by, first_hit};
ghost use Rattle.book.specs.Filters.{passes};
ghost use Rattle.matching.specs.Taking.{taking_checks, Takes};

use book::allocation::Taking;
use book::room::contract_room;
use book::select::{Filter, count, volume};
pub use book::take::Taker;
use book::take::take_fills;
use market::order::Order;
use market::refusal::{Refusal, refuse_if};
use market::row::Row;
use market::units::Contracts;
use order_table::table::Table;
use sharing::rule::{LARGEST_AMOUNT, LARGEST_CLAIM, MOST_CLAIMS, SharingRule};

// What was taken: the rows written, and the contracts.
#[derive(Clone, Copy)]
pub struct Taken {
    pub rows: usize,
    pub traded: Contracts,
}

// Refuses more orders than a rule can be asked about or than there are rows, and an amount or a guarantee out of bounds.
fn check_taking(
    orders: &[Order],
    filter: Filter,
    taking: Taking,
    rows: usize,
) -> Result<(), Refusal>
    ensures { refused_by result ≡ first_hit (taking_checks orders.now (passes filter) taking rows) }
{
    let many = count(orders, filter);
    let fits = many <= MOST_CLAIMS
        && many <= rows
        && taking.amount.count <= LARGEST_AMOUNT
        && taking.guarantee.count <= LARGEST_CLAIM;
    refuse_if(!fits, Refusal::OutOfBounds)
}

// A taker takes from the orders that pass, best first: T rows at the prices where they stand, and what is left of them.
pub fn take<R: SharingRule>(
    rule: &R,
    table: &mut Table,
    filter: Filter,
    taker: Taker,
    rows: &mut [Row],
) -> Result<Taken, Refusal>
    ensures { Takes (R.shared rule.now) (passes filter) taker table.old table.new rows.old rows.new result }
{
    let orders = table.live();
    check_taking(orders, filter, taker.taking, rows.len())?;
    let traded = taker.taking.amount.min(volume(orders, filter));
    let mut room = contract_room();
    let fills = &mut room[0..orders.len()];
    let count = take_fills(rule, orders, filter, taker, fills, rows);
    table.settle(filter, fills);
    Ok(Taken {
        rows: count,
        traded,
    })
}
