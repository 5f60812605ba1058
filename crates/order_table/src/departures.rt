// The rows of orders that leave without a trade.
ghost use Rattle.std.specs.Prelude.{◌≡◌, ◌≤◌, ◌++◌, map, length, drop, count_by, filter as kept_by};
ghost use Rattle.book.specs.Filters.{passes};
ghost use Rattle.order_table.specs.Departures.{departure_row, Wrote};

use book::select::{Filter, count};
use market::order::{Account, Order};
use market::refusal::Refusal;
use market::row::{NO_PRICE, Row, RowKind};

// How an order leaves: it is withdrawn, or its exposure has ended.
#[derive(Clone, Copy)]
pub enum Departure {
    Withdrawal,
    ExposureEnd,
}

impl Departure {
    // The row of an order that leaves so, for all that is left of it.
    pub fn row(self, order: &Order) -> Row
        ensures { result ≡ departure_row self order.now }
    {
        let (kind, price) = match (self, order.account) {
            (Departure::Withdrawal, _) => (RowKind::Withdrawn, NO_PRICE),
            (Departure::ExposureEnd, Account::Customer) => (RowKind::Sent, order.kind.price()),
            (Departure::ExposureEnd, Account::Linkage | Account::MarketMaker) => (
                RowKind::Returned,
                NO_PRICE,
            ),
        };
        Row::departure(kind, order.number, price, order.left)
    }
}

// Writes the rows of the orders that pass.
fn write_rows(orders: &[Order], filter: Filter, departure: Departure, rows: &mut [Row])
    requires { count_by (passes filter) orders.now ≤ length rows.old }
    ensures { rows.new ≡ map (departure_row departure) (kept_by (passes filter) orders.now) ++ drop (count_by (passes filter) orders.now) rows.old }
{
    // By index: what is written through a zipped `iter_mut` is not known afterwards.
    for (i, order) in orders
        .iter()
        .filter(|order| filter.passes(order))
        .enumerate()
    {
        rows[i] = departure.row(order);
    }
}

// Writes the rows of the orders that pass to the front of `rows`, and answers how many; refused where they do not fit.
pub fn write_departures(
    orders: &[Order],
    filter: Filter,
    departure: Departure,
    rows: &mut [Row],
) -> Result<usize, Refusal>
    ensures { Wrote (map (departure_row departure) (kept_by (passes filter) orders.now)) rows.old rows.new result }
{
    let count = count(orders, filter);
    if rows.len() < count {
        return Err(Refusal::OutOfBounds);
    }
    write_rows(orders, filter, departure, rows);
    Ok(count)
}
