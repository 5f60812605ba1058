// The records of new orders, and orders that replace others.
ghost use Rattle.std.specs.Prelude.{◌≡◌, ◌+◌, ◌≤◌, true, [], ◌∷◌, ◌++◌, length};
ghost use Rattle.market.specs.Words.{limit_at};
ghost use Rattle.market.specs.declared.order.Account.TheVariants.{MarketMaker};
ghost use Rattle.rules.specs.Calls.{new_order, without_old, withdrawn_rows};
ghost use Rattle.rules.specs.Runs.{written};
ghost use Rattle.order_table.specs.Changes.{admissible};
ghost use Rattle.order_table.specs.Orders.{orders, next_number};

use book::select::Filter;
use market::order::{Account, Order, OrderKind, Role, Side};
use market::row::Row;
use market::units::{Cents, Contracts};
use order_table::departures::Departure;
use order_table::table::Table;

// An order of which nothing has traded. Its parameters are the fields that differ: a struct of them would be the order
// once more.
pub(super) fn new_order(
    number: u16,
    member: u16,
    side: Side,
    account: Account,
    kind: OrderKind,
    size: Contracts,
    role: Role,
) -> Order
    ensures { result ≡ new_order number member side account kind size.count role }
{
    Order {
        number,
        member,
        side,
        account,
        kind,
        size,
        left: size,
        traded: Contracts::NONE,
        gone: Contracts::NONE,
        exposed: None,
        role,
    }
}

// A market maker's order with a limit. Its parameters are the fields that differ, as above.
pub(super) fn maker_order(
    number: u16,
    member: u16,
    side: Side,
    price: Cents,
    size: Contracts,
    role: Role,
) -> Order
    ensures { result ≡ new_order number member side MarketMaker (limit_at price.value) size.count role }
{
    let kind = OrderKind::Limit(price);
    new_order(number, member, side, Account::MarketMaker, kind, size, role)
}

// Takes an order off, if there is one, and writes its row. Answers how many rows.
fn take_off(table: &mut Table, old: Option<Order>, rows: &mut [Row]) -> usize
    requires { 1 ≤ length rows.old }
    ensures records { orders table.new ≡ without_old old (orders table.old) }
    ensures numbers { next_number table.new ≡ next_number table.old }
    ensures count { result ≡ length (withdrawn_rows old) }
    ensures rows { rows.new ≡ written (withdrawn_rows old) rows.old }
{
    match old {
        Some(order) => {
            rows[0] = Departure::Withdrawal.row(&order);
            table.keep(Filter::Besides(order.number));
            1
        }
        None => 0,
    }
}

// Adds an order, in the place of an old one if there is one, whose row is written. Answers how many rows.
pub(super) fn replace_order(
    table: &mut Table,
    old: Option<Order>,
    new: Order,
    rows: &mut [Row],
) -> usize
    requires room { 1 ≤ length rows.old }
    requires admissible { admissible new (without_old old (orders table.old)) (next_number table.old) ≡ true }
    ensures records { orders table.new ≡ without_old old (orders table.old) ++ new ∷ [] }
    ensures numbers { next_number table.new ≡ next_number table.old + 1 }
    ensures count { result ≡ length (withdrawn_rows old) }
    ensures rows { rows.new ≡ written (withdrawn_rows old) rows.old }
{
    let count = take_off(table, old, rows);
    let _ = table.append(new);
    count
}
