// Tables and rows to test with.
use market::close::Close;
use market::order::{Account, Order, OrderKind, Role, Side};
use market::row::{Row, RowKind};
use market::units::{Cents, Contracts};
use order_table::table::Table;
use std::process::Abort;
use std::test::*;

pub const MOO: OrderKind = OrderKind::MarketOnOpening;

pub const BLANK_ROW: Row = Row {
    kind: RowKind::Withdrawn,
    first: 9,
    second: 9,
    price: Cents { value: 9 },
    contracts: Contracts { count: 9 },
};

pub fn cents(value: u32) -> Cents {
    Cents { value }
}

pub fn contracts(count: u32) -> Contracts {
    Contracts { count }
}

pub fn limit(price: u32) -> OrderKind {
    OrderKind::Limit(cents(price))
}

pub fn close_at(price: u32) -> Result<Close, Fail> {
    Ok(Close::new(cents(price))?)
}

// An order of which nothing has traded yet.
pub fn new_order(number: u16, side: Side, kind: OrderKind, size: u32) -> Order {
    Order {
        number,
        member: 7,
        side,
        account: Account::Customer,
        kind,
        size: contracts(size),
        left: contracts(size),
        traded: Contracts::NONE,
        gone: Contracts::NONE,
        exposed: None,
        role: Role::Book,
    }
}

// Adds an order of the book under the next number, and answers whether it is taken.
pub fn add(table: &mut Table, side: Side, kind: OrderKind, size: u32) -> bool {
    u16::try_from(table.next()).is_ok_and(|number| table.append(new_order(
        number, side, kind, size,
    )))
}

// A T row, written out: what is expected does not come from the code that is tested.
pub fn trade(buyer: u16, seller: u16, price: u32, count: u32) -> Row {
    Row {
        kind: RowKind::Trade,
        first: buyer,
        second: seller,
        price: cents(price),
        contracts: contracts(count),
    }
}

// Checks that the rows begin as expected, and that the next one is untouched.
pub fn check_rows(rt: &impl Abort, rows: &[Row], expected: &[Row]) -> Result<(), Fail> {
    assert!(rt; rows.starts_with(expected), "a row differs");
    assert!(rt;
        rows.get(expected.len()) == Some(&BLANK_ROW),
        "a row is written past the last"
    );
    Ok(())
}
