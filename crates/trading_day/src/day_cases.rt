// Rows of whole days, full books and the last order numbers.
use crate::calls::{
    CLOSE, at, away, buys, cents, clock, contracts, enter, finish, improve, limit, open, place,
    sells, start, ticket,
};
use crate::journals::{check_day, check_last, count_full, departure, row_count, trade};
use market::close::Close;
use market::order::{Account, Side};
use market::refusal::Refusal;
use market::row::{Row, RowKind};
use series::day::{DayCall, UNUSED_ROW};
use series::pass::PreOpeningPass;
use series::series::Series;
use series::series::replay::replay;
use sharing::pro_rata::ProRata;
use sharing::rule::SharingRule;
use sharing::time::TimeWithGuarantee;
use std::process::Abort;
use std::test::*;

#[test]
fn opening_rows(rt: HostRuntime) -> Result<(), Fail> {
    let journal = check_day(
        &rt,
        TimeWithGuarantee,
        &[
            (place(0, buys(1, Account::Customer, 10), limit(210)), 0),
            (
                place(
                    0,
                    buys(2, Account::Customer, 5),
                    market::order::OrderKind::MarketOnOpening,
                ),
                0,
            ),
            (place(0, buys(3, Account::Customer, 10), limit(200)), 0),
            (place(0, sells(4, Account::Customer, 8), limit(195)), 0),
            (place(0, sells(5, Account::Customer, 10), limit(205)), 0),
            (open(0), 0),
        ],
    )?;
    check_last(
        &rt,
        &journal,
        &[
            trade(2, 4, 205, 5),
            trade(1, 4, 205, 3),
            trade(1, 5, 205, 7),
        ],
    )
}

// Offers of 4 at 200, 3 at 205 and 9 at 210, an away offer of 205, and a buy of 10 at 210.
fn check_entry(
    rt: &(impl Abort + AllocGlobal),
    account: Account,
    after: DayCall,
    rows: &[Row],
) -> Result<(), Fail> {
    let journal = check_day(
        rt,
        TimeWithGuarantee,
        &[
            (open(0), 0),
            (enter(0, sells(1, Account::MarketMaker, 4), 200), 0),
            (enter(0, sells(2, Account::MarketMaker, 3), 205), 0),
            (enter(0, sells(3, Account::MarketMaker, 9), 210), 0),
            (away(0, 1, None, Some(cents(205))), 0),
            (enter(0, buys(4, account, 10), 210), 0),
            (after, 0),
        ],
    )?;
    check_last(rt, &journal, rows)
}

#[test]
fn a_customers_remainder_is_exposed_and_sent(rt: HostRuntime) -> Result<(), Fail> {
    check_entry(&rt, Account::Customer, clock(2_999), &[])?;
    check_entry(
        &rt,
        Account::Customer,
        clock(3_000),
        &[departure(RowKind::Sent, 4, 205, 3)],
    )
}

#[test]
fn a_linkage_remainder_is_exposed_and_returned(rt: HostRuntime) -> Result<(), Fail> {
    check_entry(
        &rt,
        Account::Linkage,
        clock(3_000),
        &[departure(RowKind::Returned, 4, 0, 3)],
    )
}

// An away offer of 209, an auction of 20 at 208, improved by 5 at 207 and 10 at 208.
fn check_auction<R: SharingRule + Drop>(
    rt: &(impl Abort + AllocGlobal),
    rule: R,
    rows: &[Row],
) -> Result<(), Fail> {
    let journal = check_day(
        rt,
        rule,
        &[
            (open(0), 0),
            (away(0, 1, None, Some(cents(209))), 0),
            (start(0, 40, Side::Buy, 208, 20), 0),
            (improve(0, 41, 207, 5, None), 0),
            (improve(0, 42, 208, 10, None), 0),
            (finish(3_000, ticket(1, false)), 0),
        ],
    )?;
    check_last(rt, &journal, rows)
}

#[test]
fn auctions_by_both_rules(rt: HostRuntime) -> Result<(), Fail> {
    check_auction(
        &rt,
        TimeWithGuarantee,
        &[
            trade(1, 3, 207, 5),
            trade(1, 2, 208, 8),
            trade(1, 4, 208, 7),
            departure(RowKind::Withdrawn, 2, 0, 12),
            departure(RowKind::Withdrawn, 4, 0, 3),
        ],
    )?;
    check_auction(
        &rt,
        ProRata,
        &[
            trade(1, 3, 207, 5),
            trade(1, 2, 208, 10),
            trade(1, 4, 208, 5),
            departure(RowKind::Withdrawn, 2, 0, 10),
            departure(RowKind::Withdrawn, 4, 0, 5),
        ],
    )
}

#[test]
fn a_full_book(rt: HostRuntime) -> Result<(), Fail> {
    let mut calls: Vec<DayCall> = Vec::new(rt.alloc());
    for _ in 0..128 {
        calls.push(place(0, sells(7, Account::Customer, 2), limit(205)))?;
    }
    calls.push(place(0, buys(8, Account::Customer, 1), limit(195)))?;
    calls.push(open(0))?;
    calls.push(enter(0, buys(8, Account::Customer, 1), 195))?;
    let journal = replay(rt.alloc(), ProRata, 1, Close::new(CLOSE)?, &calls)?;
    assert_eq!(rt; count_full(&journal), 2);
    Ok(())
}

#[test]
fn an_auction_of_32_orders(rt: HostRuntime) -> Result<(), Fail> {
    let mut calls: Vec<DayCall> = Vec::new(rt.alloc());
    calls.push(open(0))?;
    calls.push(away(0, 1, None, Some(cents(209))))?;
    calls.push(start(0, 40, Side::Buy, 208, 100))?;
    for _ in 0..31 {
        calls.push(improve(0, 41, 207, 1, None))?;
    }
    calls.push(improve(0, 41, 207, 1, None))?;
    calls.push(improve(0, 41, 206, 1, Some(3)))?;
    calls.push(finish(3_000, ticket(1, false)))?;
    let journal = replay(rt.alloc(), ProRata, 1, Close::new(CLOSE)?, &calls)?;
    assert_eq!(rt; count_full(&journal), 1);
    let Some(entry) = journal.last() else {
        return Err(Fail::new("the journal is empty"));
    };
    assert_eq!(rt; row_count(entry), 33);
    Ok(())
}

// Places an order and withdraws it again.
fn use_number(
    series: &mut Series<TimeWithGuarantee>,
    pass: &PreOpeningPass,
) -> Result<(), Refusal> {
    let mut rows = [UNUSED_ROW; 192];
    let entered = series.place(
        pass,
        at(0),
        7,
        Side::Buy,
        Account::Customer,
        limit(100),
        contracts(1),
    )?;
    let _ = series.withdraw(at(0), 7, entered.number, &mut rows)?;
    Ok(())
}

#[test]
fn the_last_order_numbers(rt: HostRuntime) -> Result<(), Fail> {
    let (mut series, pass) = Series::new(1, Close::new(CLOSE)?, TimeWithGuarantee);
    for _ in 0..65_535 {
        use_number(&mut series, &pass)?;
    }
    assert!(rt; use_number(&mut series, &pass) == Err(Refusal::NumbersUsedUp));
    assert!(rt; series.left(65_535).count == 0);
    Ok(())
}
