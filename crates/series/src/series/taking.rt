// Taking from the table of a series.
ghost use Rattle.std.specs.Prelude.{◌≤◌, length, count_by};
ghost use Rattle.book.specs.Filters.{passes};
ghost use Rattle.order_table.specs.Orders.{orders};
ghost use Rattle.matching.specs.Taking.{Took};

use book::select::Filter;
use market::row::Row;
use matching::take::{Taken, Taker, take};
use order_table::table::Table;
use sharing::rule::SharingRule;

// Takes what is in bounds, which is never refused.
pub(super) fn take_in_bounds<R: SharingRule>(
    rule: &R,
    table: &mut Table,
    filter: Filter,
    taker: Taker,
    rows: &mut [Row],
) -> Taken
    requires claims { count_by (passes filter) (orders table.old) ≤ 160 }
    requires rows_fit { count_by (passes filter) (orders table.old) ≤ length rows.old }
    requires amounts { taker.taking.amount.count ≤ 1599840 }
    requires guarantees { taker.taking.guarantee.count ≤ 9999 }
    ensures took { Took (R.shared rule.now) (passes filter) taker table.old table.new rows.old rows.new result }
    ensures within { result.traded.count ≤ taker.taking.amount.count }
{
    take(rule, table, filter, taker, rows).unwrap()
}
