// The table at its limits, and takers at levels of many orders.
use crate::tables::{BLANK_ROW, add, cents, check_rows, contracts, limit, new_order, trade};
use book::allocation::Taking;
use book::select::{Filter, count, find};
use market::order::{Order, Side};
use market::refusal::Refusal;
use market::row::{Row, RowKind};
use market::units::Contracts;
use matching::take::{Taken, Taker, take};
use order_table::departures::{Departure, write_departures};
use order_table::table::Table;
use sharing::pro_rata::ProRata;
use sharing::rule::SharingRule;
use sharing::time::TimeWithGuarantee;
use std::process::Abort;
use std::test::*;

// A buyer takes contracts from all sells of the book up to a price.
fn buy<R: SharingRule>(
    rule: &R,
    table: &mut Table,
    price: u32,
    amount: u32,
    rows: &mut [Row],
) -> Result<Taken, Refusal> {
    let taker = Taker {
        side: Side::Buy,
        number: 900,
        taking: Taking {
            amount: contracts(amount),
            marked: None,
            guarantee: Contracts::NONE,
        },
    };
    take(
        rule,
        table,
        Filter::Reachable(Side::Buy, cents(price)),
        taker,
        rows,
    )
}

#[test]
fn pro_rata_at_one_level(rt: HostRuntime) -> Result<(), Fail> {
    let mut table = Table::new();
    assert!(rt; add(&mut table, Side::Sell, limit(200), 20));
    assert!(rt; add(&mut table, Side::Sell, limit(200), 20));
    let mut rows = [BLANK_ROW; 192];
    let taken = buy(&ProRata, &mut table, 200, 15, &mut rows)?;
    assert!(rt; taken.rows == 2 && taken.traded.count == 15);
    check_rows(&rt, &rows, &[trade(900, 1, 200, 8), trade(900, 2, 200, 7)])
}

#[test]
fn best_price_first_then_number(rt: HostRuntime) -> Result<(), Fail> {
    let mut table = Table::new();
    assert!(rt; add(&mut table, Side::Sell, limit(205), 3));
    assert!(rt; add(&mut table, Side::Sell, limit(200), 4));
    assert!(rt; add(&mut table, Side::Sell, limit(205), 3));
    assert!(rt; add(&mut table, Side::Sell, limit(200), 2));
    assert!(rt; add(&mut table, Side::Sell, limit(210), 9));
    let mut rows = [BLANK_ROW; 192];
    let taken = buy(&TimeWithGuarantee, &mut table, 205, 50, &mut rows)?;
    assert!(rt; taken.rows == 4 && taken.traded.count == 12);
    check_rows(
        &rt,
        &rows,
        &[
            trade(900, 2, 200, 4),
            trade(900, 4, 200, 2),
            trade(900, 1, 205, 3),
            trade(900, 3, 205, 3),
        ],
    )?;
    assert!(rt; table.live().len() == 1);
    Ok(())
}

#[test]
fn a_full_table_refuses_one_more(rt: HostRuntime) -> Result<(), Fail> {
    let mut table = Table::new();
    for _ in 0..128 {
        assert!(rt; add(&mut table, Side::Sell, limit(200), 1));
    }
    assert!(rt;
        !add(&mut table, Side::Buy, limit(100), 1),
        "128 orders stand"
    );
    assert!(rt; table.next() == 129 && table.live().len() == 128);
    table.keep(Filter::Besides(5));
    assert!(rt; find(table.live(), Filter::Numbered(5)).is_none());
    assert!(rt;
        add(&mut table, Side::Buy, limit(100), 1),
        "a record is free again"
    );
    Ok(())
}

#[test]
fn one_level_of_128_orders(rt: HostRuntime) -> Result<(), Fail> {
    let mut table = Table::new();
    for _ in 0..128 {
        assert!(rt; add(&mut table, Side::Sell, limit(200), 2));
    }
    let mut rows = [BLANK_ROW; 192];
    let taken = buy(&ProRata, &mut table, 200, 128, &mut rows)?;
    assert!(rt; taken.rows == 128 && taken.traded.count == 128);
    assert!(rt; table.volume(Filter::InBook).count == 128);
    let again = buy(&TimeWithGuarantee, &mut table, 200, 100, &mut rows)?;
    assert!(rt; again.rows == 100 && table.live().len() == 28);
    assert!(rt; table.volume(Filter::Numbered(100)).count == 0);
    assert!(rt; table.volume(Filter::Numbered(101)).count == 1);
    Ok(())
}

// An order is added, and all of it is bought.
fn sell_out(rt: &impl Abort, table: &mut Table) -> Result<(), Fail> {
    let mut rows = [BLANK_ROW; 192];
    assert!(rt; add(table, Side::Sell, limit(200), 3));
    let taken = buy(&TimeWithGuarantee, table, 200, 3, &mut rows)?;
    assert!(rt; taken.rows == 1);
    Ok(())
}

#[test]
fn freed_records_are_used_again(rt: HostRuntime) -> Result<(), Fail> {
    let mut table = Table::new();
    for _ in 0..300 {
        sell_out(&rt, &mut table)?;
    }
    assert!(rt; table.live().is_empty() && table.next() == 301);
    Ok(())
}

#[test]
fn records_that_no_table_takes(rt: HostRuntime) -> Result<(), Fail> {
    let mut table = Table::new();
    let order = new_order(1, Side::Buy, limit(100), 5);
    assert!(rt;
        !table.append(new_order(2, Side::Buy, limit(100), 5)),
        "not the next number"
    );
    assert!(rt;
        !table.append(new_order(1, Side::Buy, limit(100), 10_000)),
        "too large"
    );
    assert!(rt;
        !table.append(new_order(1, Side::Buy, limit(100_000), 5)),
        "no price"
    );
    assert!(rt;
        !table.append(Order {
            left: contracts(4),
            ..order
        }),
        "the sum is not the size"
    );
    assert!(rt; table.live().is_empty());
    assert!(rt; table.append(order));
    assert!(rt; table.skip_number() && table.next() == 3);
    Ok(())
}

#[test]
fn rows_of_departures(rt: HostRuntime) -> Result<(), Fail> {
    let mut table = Table::new();
    assert!(rt; add(&mut table, Side::Buy, limit(100), 5));
    assert!(rt; add(&mut table, Side::Sell, limit(200), 6));
    assert!(rt; add(&mut table, Side::Buy, limit(105), 7));
    let buys = Filter::Contra(Side::Sell);
    assert!(rt; count(table.live(), buys) == 2);
    let mut rows = [BLANK_ROW; 3];
    let few = write_departures(table.live(), buys, Departure::Withdrawal, &mut rows[0..1]);
    assert!(rt; few == Err(Refusal::OutOfBounds) && rows[0].first == 9);
    let written = write_departures(table.live(), buys, Departure::ExposureEnd, &mut rows)?;
    assert!(rt; written == 2 && rows[1].kind == RowKind::Sent);
    assert!(rt; rows[1].first == 3 && rows[1].price.value == 105 && rows[1].contracts.count == 7);
    assert!(rt; rows[2].first == 9);
    Ok(())
}
