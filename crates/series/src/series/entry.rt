// The entry of an order while the series trades.
ghost use Rattle.std.specs.Prelude.{◌≡◌, ◌+◌, ◌<◌, ◌≤◌, true, ◌++◌, length, take, drop};
ghost use Rattle.std.specs.List.{AllByRecursion};
ghost use Rattle.market.specs.Words.{limit_at, or_else, price_of};
ghost use Rattle.rules.specs.Calls.{resting, remainder};
ghost use Rattle.rules.specs.Calls as calls;
ghost use Rattle.rules.specs.Prices.{cents};
ghost use Rattle.rules.specs.Prices as model;
ghost use Rattle.rules.specs.Runs.{nothing};
ghost use Rattle.order_table.specs.Changes.{admissible};
ghost use Rattle.order_table.specs.Orders.{orders, next_number};
ghost use Rattle.series.specs.Answers.{Answers, told_entry};
ghost use Rattle.series.specs.Entering.{Enterable, Admitted};
ghost use Rattle.series.specs.Remainders.{standing_orders, returning_rows};
ghost use Rattle.series.specs.State.{state};

use crate::answer::Entered;
use crate::pass::TradingPass;
use crate::remainder::Remainder;
use crate::series::Series;
use crate::series::orders::new_order;
use crate::series::taking::take_in_bounds;
use book::allocation::Taking;
use book::select::Filter;
use market::order::{Account, Order, OrderKind, Role, Side};
use market::refusal::Refusal;
use market::row::{NO_PRICE, Row, RowKind};
use market::units::{Cents, Contracts, Millis};
use matching::take::Taker;
use order_table::prices::{bound, reaches};
use order_table::table::Table;
use sharing::rule::SharingRule;

// How long a remainder is exposed.
const EXPOSURE: u32 = 3_000;

// What stands of an entering order.
fn resting_order(order: Order, left: Contracts, kind: OrderKind, exposed: Option<Millis>) -> Order
    requires { left.count ≤ order.size.count }
    ensures { result ≡ resting order left.count kind exposed }
{
    Order {
        kind,
        left,
        traded: Contracts {
            count: order.size.count - left.count,
        },
        exposed,
        ..order
    }
}

// What becomes of a remainder: it is returned or exposed at the away best if its limit reaches that, and stands otherwise.
fn remainder_of(
    order: Order,
    left: Contracts,
    best: Option<Cents>,
    end: Millis,
) -> Option<Remainder>
    requires { left.count ≤ order.size.count }
    ensures orders { standing_orders result ≡ (remainder order left.count order.account (model.reaches order.side (price_of order.kind) (cents best)) (or_else (cents best) 0) end.count).0 }
    ensures rows { returning_rows result ≡ (remainder order left.count order.account (model.reaches order.side (price_of order.kind) (cents best)) (or_else (cents best) 0) end.count).1 }
{
    if left.count == 0 {
        return None;
    }
    Some(match best {
        Some(price) if reaches(order.side, order.kind.price(), best) => {
            if order.account.is_market_maker() {
                Remainder::Returned(Row::departure(RowKind::Returned, order.number, NO_PRICE, left))
            } else {
                Remainder::Stands(resting_order(order, left, OrderKind::Limit(price), Some(end)))
            }
        }
        _ => Remainder::Stands(resting_order(order, left, order.kind, None)),
    })
}

// Lets a remainder stand, or writes its row behind the first `count`, and answers how many rows there are then.
fn place_remainder(
    table: &mut Table,
    remainder: Option<Remainder>,
    rows: &mut [Row],
    count: usize,
) -> usize
    requires room { count < length rows.old }
    requires numbers { next_number table.old ≤ 65535 }
    requires admissible { AllByRecursion (λ o. admissible o (orders table.old) (next_number table.old) ≡ true) (standing_orders remainder) }
    ensures records { orders table.new ≡ orders table.old ++ standing_orders remainder }
    ensures numbers { next_number table.new ≡ next_number table.old + 1 }
    ensures counted { result ≡ count + length (returning_rows remainder) }
    ensures written { rows.new ≡ take count rows.old ++ (returning_rows remainder ++ drop result rows.old) }
{
    match remainder {
        None => {
            let _ = table.skip_number();
            count
        }
        Some(Remainder::Stands(order)) => {
            let _ = table.append(order);
            count
        }
        Some(Remainder::Returned(row)) => {
            let _ = table.skip_number();
            rows[count] = row;
            count + 1
        }
    }
}

// Trades an order with the book up to its bound, and then its remainder stands, is exposed or is returned. Answers how
// many rows are written. The parameters are the parts of a series that it needs and the order's own: a struct of them
// would be made for this one use.
fn enter_order<R: SharingRule>(
    rule: &R,
    table: &mut Table,
    order: Order,
    best: Option<Cents>,
    end: Millis,
    rows: &mut [Row],
) -> usize
    requires order { Enterable order table.old }
    requires best { or_else (cents best) 0 ≤ 99999 }
    requires room { 192 ≤ length rows.old }
    ensures { Admitted (R.shared rule.now) order (cents best) end.count table.old table.new rows.old rows.new result }
{
    let reach = bound(order.side, order.kind.price(), best);
    let taker = Taker {
        side: order.side,
        number: order.number,
        taking: Taking {
            amount: order.size,
            marked: None,
            guarantee: Contracts::NONE,
        },
    };
    let taken = take_in_bounds(
        rule,
        table,
        Filter::Reachable(order.side, reach),
        taker,
        rows,
    );
    let left = order.size - taken.traded;
    let remainder = remainder_of(order, left, best, end);
    place_remainder(table, remainder, rows, taken.rows)
}

impl<R: SharingRule> Series<R> {
    // Trades an order with the book, no worse than the away best, and what is left of it is exposed or stands.
    // The parameters of a call are a rule of this project.
    pub fn enter(
        &mut self,
        pass: &TradingPass,
        time: Millis,
        member: u16,
        side: Side,
        account: Account,
        price: Cents,
        size: Contracts,
        rows: &mut [Row],
    ) -> Result<Entered, Refusal>
        ensures rule { self.new.rule ≡ self.old.rule }
        ensures answers { Answers (R.shared self.old.rule) (state self.old) (state self.new) rows.new (told_entry result) nothing (calls.enter pass.now.series time member side account price size rows.old) }
    {
        self.check_enter(pass, time, member, side, account, price, size, rows)?;
        let number = self.table.next() as u16;
        let kind = OrderKind::Limit(price);
        let order = new_order(number, member, side, account, kind, size, Role::Book);
        let best = self.away.best(side);
        let end = Millis {
            count: time.count + EXPOSURE,
        };
        let count = enter_order(&self.rule, &mut self.table, order, best, end, rows);
        self.time = time;
        Ok(Entered {
            rows: count,
            number,
        })
    }
}
