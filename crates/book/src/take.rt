// Taking contracts from the orders against one.
ghost use Rattle.std.specs.Prelude.{◌≡◌, ◌≤◌, ◌++◌, length, take, drop, sum_by, filter as kept_by};
ghost use Rattle.sharing.specs.Asked.{counts};
ghost use Rattle.book.specs.Filters.{passes};
ghost use Rattle.book.specs.Records.{Live};
ghost use Rattle.book.specs.Settling.{filled_places};
ghost use Rattle.book.specs.Taking.{taker_fill, trades_of, left_of};

use crate::allocation::{Taking, allocate};
use crate::room::{contract_room, rank_room};
use crate::rows::write_trades;
use crate::select::{Filter, volume};
use crate::settle::{scatter, settle};
use market::order::{Order, Side};
use market::row::Row;
use market::units::Contracts;
use sharing::rule::SharingRule;

// Who takes, how much, and who has which guarantee against it.
#[derive(Clone, Copy)]
pub struct Taker {
    pub side: Side,
    pub number: u16,
    pub taking: Taking,
}

// What was taken: the rows written, the orders left, and the contracts.
#[derive(Clone, Copy)]
pub struct Taken {
    pub rows: usize,
    pub orders: usize,
    pub traded: Contracts,
}

// Writes the T rows of a taker to the front of `rows` and what each order trades to its place, and answers how many rows.
pub fn take_fills<R: SharingRule>(
    rule: &R,
    orders: &[Order],
    filter: Filter,
    taker: Taker,
    fills: &mut [Contracts],
    rows: &mut [Row],
) -> usize
    requires live { Live orders.now 65536 }
    requires few { length (kept_by (passes filter) orders.now) ≤ 160 }
    requires fills_fit { length orders.now ≡ length fills.old }
    requires rows_fit { length (kept_by (passes filter) orders.now) ≤ length rows.old }
    requires amounts { taker.taking.amount.count ≤ 1599840 }
    requires guarantees { taker.taking.guarantee.count ≤ 9999 }
    ensures counted { result ≡ length (trades_of (R.shared rule.now) orders.now (passes filter) taker) }
    ensures written { rows.new ≡ trades_of (R.shared rule.now) orders.now (passes filter) taker ++ drop result rows.old }
    ensures few { result ≤ length (kept_by (passes filter) orders.now) }
    ensures filled { counts fills.new ≡ filled_places (passes filter) (taker_fill (R.shared rule.now) orders.now (passes filter) taker) orders.now (counts fills.old) }
{
    let n = orders.len();
    let mut ranks = rank_room();
    let mut shares = contract_room();
    let (ranks, shares) = (&mut ranks[0..n], &mut shares[0..n]);
    let start = allocate(rule, orders, filter, taker.taking, ranks, shares);
    let (ranked, shares) = (&ranks[start..n], &shares[start..n]);
    scatter(ranked, shares, fills);
    write_trades(taker.side, taker.number, orders, ranked, shares, rows)
}

// A taker takes from the orders that pass, best first: T rows, and what is left of all the orders.
pub fn take<R: SharingRule>(
    rule: &R,
    orders: &[Order],
    filter: Filter,
    taker: Taker,
    rows: &mut [Row],
    out: &mut [Order],
) -> Taken
    requires live { Live orders.now 65536 }
    requires few { length (kept_by (passes filter) orders.now) ≤ 160 }
    requires rows_fit { length (kept_by (passes filter) orders.now) ≤ length rows.old }
    requires out_fits { length orders.now ≤ length out.old }
    requires amounts { taker.taking.amount.count ≤ 1599840 }
    requires guarantees { taker.taking.guarantee.count ≤ 9999 }
    ensures counted { result.rows ≡ length (trades_of (R.shared rule.now) orders.now (passes filter) taker) }
    ensures written { rows.new ≡ trades_of (R.shared rule.now) orders.now (passes filter) taker ++ drop result.rows rows.old }
    ensures few { result.rows ≤ 160 }
    ensures left { take result.orders out.new ≡ left_of (R.shared rule.now) orders.now (passes filter) taker }
    ensures fewer { result.orders ≤ length orders.now }
    ensures traded { result.traded.count ≡ sum_by (taker_fill (R.shared rule.now) orders.now (passes filter) taker) (kept_by (passes filter) orders.now) }
{
    let mut room = contract_room();
    let fills = &mut room[0..orders.len()];
    let count = take_fills(rule, orders, filter, taker, fills, rows);
    Taken {
        rows: count,
        orders: settle(orders, filter, fills, out),
        traded: taker.taking.amount.min(volume(orders, filter)),
    }
}
