// Every refusal once, beside a call that is accepted.
use crate::calls::{
    at, away, better, buys, cents, clock, contracts, enter, finish, improve, limit, open, place,
    sells, start, ticket, withdraw,
};
use crate::journals::check_day;
use market::order::{Account, OrderKind, Side};
use series::day::{ClockCall, DayCall, OpenCall, PlaceCall, ShownTicket};
use sharing::time::TimeWithGuarantee;
use std::test::*;

const MOO: OrderKind = OrderKind::MarketOnOpening;

#[test]
fn checks_of_an_order(rt: HostRuntime) -> Result<(), Fail> {
    let sell = sells(7, Account::Customer, 10);
    let of_another_series = DayCall::Place(PlaceCall {
        pass: 2,
        time: at(5),
        member: 7,
        side: Side::Buy,
        account: Account::Customer,
        kind: limit(100),
        size: contracts(1),
    });
    let _ = check_day(
        &rt,
        TimeWithGuarantee,
        &[
            (place(5, sell, limit(205)), 0),
            (of_another_series, 1),
            (place(4, sell, limit(205)), 2),
            (place(86_400_001, sell, limit(205)), 2),
            (place(5, sells(0, Account::Customer, 10), limit(205)), 4),
            (place(5, sells(1, Account::Customer, 10), limit(205)), 0),
            (place(5, sells(999, Account::Customer, 10), limit(205)), 0),
            (place(5, sells(1_000, Account::Customer, 10), limit(205)), 4),
            (place(5, sell, limit(206)), 5),
            (place(5, sell, limit(0)), 5),
            (place(5, sell, limit(99_990)), 0),
            (place(5, sell, limit(100_000)), 5),
            (place(5, sells(7, Account::Customer, 0), limit(205)), 6),
            (place(5, sells(7, Account::Customer, 9_999), limit(205)), 0),
            (place(5, sells(7, Account::Customer, 10_000), limit(205)), 6),
            (place(86_400_000, sell, limit(205)), 0),
        ],
    )?;
    Ok(())
}

#[test]
fn rows_lent(rt: HostRuntime) -> Result<(), Fail> {
    let short_clock = DayCall::Clock(ClockCall {
        time: at(1),
        lent: 191,
    });
    let short_open = DayCall::Open(OpenCall {
        pass: 1,
        time: at(1),
        waived: false,
        lent: 191,
    });
    let _ = check_day(
        &rt,
        TimeWithGuarantee,
        &[
            (short_clock, 7),
            (clock(1), 0),
            (short_open, 7),
            (open(1), 0),
            (open(1), 1),
        ],
    )?;
    Ok(())
}

#[test]
fn checks_of_an_opening(rt: HostRuntime) -> Result<(), Fail> {
    let waived = DayCall::Open(OpenCall {
        pass: 1,
        time: at(3),
        waived: true,
        lent: 192,
    });
    let _ = check_day(
        &rt,
        TimeWithGuarantee,
        &[
            (enter(0, buys(7, Account::Customer, 1), 205), 1),
            (place(1, buys(7, Account::Customer, 5), MOO), 0),
            (open(2), 12),
            (place(2, sells(8, Account::Customer, 5), limit(300)), 0),
            (open(3), 13),
            (waived, 0),
        ],
    )?;
    Ok(())
}

#[test]
fn away_markets_and_withdrawals(rt: HostRuntime) -> Result<(), Fail> {
    let _ = check_day(
        &rt,
        TimeWithGuarantee,
        &[
            (away(1, 0, None, None), 16),
            (away(1, 1, None, None), 0),
            (away(1, 8, Some(cents(99_999)), None), 0),
            (away(1, 9, None, None), 16),
            (away(1, 1, Some(cents(0)), None), 5),
            (away(1, 1, Some(cents(200)), Some(cents(200))), 16),
            (away(1, 1, Some(cents(199)), Some(cents(200))), 0),
            (place(2, sells(7, Account::Customer, 10), limit(205)), 0),
            (withdraw(2, 8, 1), 10),
            (withdraw(2, 7, 2), 10),
            (withdraw(2, 7, 1), 0),
            (withdraw(2, 7, 1), 10),
        ],
    )?;
    Ok(())
}

#[test]
fn exposures_and_times(rt: HostRuntime) -> Result<(), Fail> {
    let buy = buys(7, Account::Customer, 1);
    let _ = check_day(
        &rt,
        TimeWithGuarantee,
        &[
            (open(0), 0),
            (away(0, 1, None, Some(cents(205))), 0),
            (enter(1_000, buy, 205), 0),
            (enter(3_999, buys(7, Account::MarketMaker, 1), 205), 0),
            (enter(4_000, buy, 205), 3),
            (withdraw(4_000, 7, 1), 3),
            (clock(4_000), 0),
            (withdraw(4_000, 7, 1), 10),
            (enter(86_390_001, buy, 200), 2),
            (enter(86_390_000, buy, 200), 0),
        ],
    )?;
    Ok(())
}

#[test]
fn checks_of_an_auction(rt: HostRuntime) -> Result<(), Fail> {
    let elsewhere = ShownTicket {
        series: 2,
        customer: 1,
        discharged: false,
    };
    let _ = check_day(
        &rt,
        TimeWithGuarantee,
        &[
            (open(0), 0),
            (start(0, 40, Side::Buy, 208, 20), 14),
            (away(0, 1, None, Some(cents(209))), 0),
            (improve(0, 41, 207, 5, None), 11),
            (improve(0, 41, 207, 5, Some(3)), 10),
            (start(0, 40, Side::Buy, 209, 20), 14),
            (start(0, 40, Side::Buy, 208, 20), 0),
            (start(0, 40, Side::Buy, 208, 20), 11),
            (improve(0, 40, 207, 5, None), 4),
            (improve(0, 41, 209, 5, None), 14),
            (improve(0, 41, 208, 21, None), 14),
            (improve(0, 41, 208, 20, None), 0),
            (improve(0, 41, 208, 20, Some(3)), 14),
            (improve(0, 41, 207, 20, Some(3)), 0),
            (better(0, 1, 208), 14),
            (better(0, 2, 207), 1),
            (better(0, 1, 207), 0),
            (finish(3_000, elsewhere), 1),
            (finish(2_999, ticket(1, false)), 15),
            (better(3_000, 1, 206), 3),
            (finish(3_000, ticket(1, false)), 0),
            (finish(3_000, ticket(1, false)), 1),
        ],
    )?;
    Ok(())
}
