// Openings: the theoretical price, the rows and what is left.
use crate::tables::{BLANK_ROW, MOO, add, cents, check_rows, close_at, limit, trade};
use book::select::Filter;
use discovery::opening_price::{demand, supply, top};
use market::order::Side;
use market::refusal::Refusal;
use matching::opening::open_at;
use order_table::table::Table;
use sharing::time::TimeWithGuarantee;
use std::test::*;

#[test]
fn both_sides_and_market_on_opening(rt: HostRuntime) -> Result<(), Fail> {
    let mut table = Table::new();
    assert!(rt; add(&mut table, Side::Buy, limit(210), 10));
    assert!(rt; add(&mut table, Side::Buy, MOO, 5));
    assert!(rt; add(&mut table, Side::Buy, limit(200), 10));
    assert!(rt; add(&mut table, Side::Sell, limit(195), 8));
    assert!(rt; add(&mut table, Side::Sell, limit(205), 10));
    assert!(rt; demand(&table, cents(205)).count == 15);
    assert!(rt; supply(&table, cents(205)).count == 18);
    assert_eq!(rt; top(&table, close_at(200)?), Some((205, 15)));
    let mut rows = [BLANK_ROW; 192];
    assert_eq!(rt;
        open_at(&TimeWithGuarantee, &mut table, cents(205), &mut rows).ok(),
        Some(3)
    );
    check_rows(
        &rt,
        &rows,
        &[
            trade(2, 4, 205, 5),
            trade(1, 4, 205, 3),
            trade(1, 5, 205, 7),
        ],
    )?;
    assert!(rt; table.live().len() == 2);
    assert!(rt; table.volume(Filter::Numbered(3)).count == 10);
    assert!(rt; table.volume(Filter::Numbered(5)).count == 3);
    Ok(())
}

#[test]
fn least_surplus_before_the_close(rt: HostRuntime) -> Result<(), Fail> {
    let mut table = Table::new();
    assert!(rt; add(&mut table, Side::Buy, limit(105), 10));
    assert!(rt; add(&mut table, Side::Buy, limit(100), 5));
    assert!(rt; add(&mut table, Side::Sell, limit(100), 10));
    assert_eq!(rt; top(&table, close_at(100)?), Some((105, 10)));
    Ok(())
}

// This and the next are two cases with other orders.
#[test]
fn lower_of_two_as_near(rt: HostRuntime) -> Result<(), Fail> {
    let mut table = Table::new();
    assert!(rt; add(&mut table, Side::Buy, limit(310), 1));
    assert!(rt; add(&mut table, Side::Sell, limit(300), 1));
    assert_eq!(rt; top(&table, close_at(305)?), Some((300, 1)));
    Ok(())
}

#[test]
fn a_price_that_no_order_names(rt: HostRuntime) -> Result<(), Fail> {
    let mut table = Table::new();
    assert!(rt; add(&mut table, Side::Buy, limit(210), 1));
    assert!(rt; add(&mut table, Side::Sell, limit(200), 1));
    assert_eq!(rt; top(&table, close_at(205)?), Some((205, 1)));
    Ok(())
}

#[test]
fn no_price_trades(rt: HostRuntime) -> Result<(), Fail> {
    let mut table = Table::new();
    assert_eq!(rt; top(&table, close_at(205)?), None);
    assert!(rt; add(&mut table, Side::Buy, limit(200), 1));
    assert!(rt; add(&mut table, Side::Sell, limit(205), 1));
    assert_eq!(rt; top(&table, close_at(205)?), None);
    Ok(())
}

#[test]
fn market_on_opening_left_over_stands_at_the_opening_price(rt: HostRuntime) -> Result<(), Fail> {
    let mut table = Table::new();
    assert!(rt; add(&mut table, Side::Buy, MOO, 9));
    assert!(rt; add(&mut table, Side::Sell, limit(120), 4));
    let mut rows = [BLANK_ROW; 192];
    assert_eq!(rt;
        open_at(&TimeWithGuarantee, &mut table, cents(120), &mut rows).ok(),
        Some(1)
    );
    check_rows(&rt, &rows, &[trade(1, 2, 120, 4)])?;
    match table.live() {
        [order] => {
            assert!(rt; order.kind == limit(120) && order.left.count == 5);
            Ok(())
        },
        _ => Err(Fail::new("one order is left")),
    }
}

#[test]
fn too_few_rows(rt: HostRuntime) -> Result<(), Fail> {
    let mut table = Table::new();
    assert!(rt; add(&mut table, Side::Buy, limit(120), 9));
    assert!(rt; add(&mut table, Side::Sell, limit(120), 4));
    let mut rows = [BLANK_ROW; 1];
    let refused = open_at(&TimeWithGuarantee, &mut table, cents(120), &mut rows);
    assert!(rt; refused == Err(Refusal::OutOfBounds));
    assert!(rt; table.live().len() == 2 && rows[0].first == 9);
    Ok(())
}
