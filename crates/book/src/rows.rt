// The rows of a taker's trades.
ghost use Rattle.std.specs.Prelude.{◌≡◌, ◌<◌, ◌≤◌, ◌++◌, length, drop};
ghost use Rattle.std.specs.List.{AllByRecursion};
ghost use Rattle.sharing.specs.Asked.{counts};
ghost use Rattle.book.specs.Places.{orders_at};
ghost use Rattle.book.specs.Rows.{trade_rows};

use crate::priority::Ranked;
use market::order::{Order, Side};
use market::row::Row;
use market::units::Contracts;

// Writes a T row for each ranked order that trades, and answers how many.
pub fn write_trades(
    side: Side,
    taker: u16,
    orders: &[Order],
    ranked: &[Ranked],
    shares: &[Contracts],
    rows: &mut [Row],
) -> usize
    requires places { AllByRecursion (λ r. r.place < length orders.now) ranked.now }
    requires even { length ranked.now ≡ length shares.now }
    requires room { length ranked.now ≤ length rows.old }
    ensures counted { result ≡ length (trade_rows side taker (orders_at orders.now ranked.now) (counts shares.now)) }
    ensures written { rows.new ≡ trade_rows side taker (orders_at orders.now ranked.now) (counts shares.now) ++ drop result rows.old }
    ensures few { result ≤ length ranked.now }
{
    let mut count = 0;
    // By index: what is written through a zipped `iter_mut` is not known afterwards.
    for (r, contracts) in ranked
        .iter()
        .zip(shares)
        .filter(|(_, contracts)| contracts.count > 0)
    {
        let order = &orders[r.place];
        rows[count] = Row::trade(side, taker, order.number, order.kind.price(), *contracts);
        count += 1;
    }
    count
}
