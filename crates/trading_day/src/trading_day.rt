// A day from the first order to the last auction.
use crate::calls::{
    away, better, buys, cents, clock, enter, finish, improve, limit, open, place, sells, start,
    ticket, withdraw,
};
use market::order::{Account, OrderKind, Side};
use series::day::DayCall;

// Orders before the bell, one of them off the grid, and the opening.
pub fn opening() -> [DayCall; 8] {
    [
        place(0, buys(7, Account::Customer, 10), limit(210)),
        place(0, buys(8, Account::Customer, 5), OrderKind::MarketOnOpening),
        place(1_000, buys(9, Account::MarketMaker, 10), limit(200)),
        place(1_000, sells(11, Account::MarketMaker, 8), limit(195)),
        place(2_000, sells(12, Account::Customer, 10), limit(205)),
        place(2_000, sells(12, Account::Customer, 10), limit(207)),
        enter(2_500, buys(7, Account::Customer, 1), 205),
        open(3_000),
    ]
}

// Orders of all three accounts against an away market, and exposures that end.
pub fn trading() -> [DayCall; 13] {
    [
        away(4_000, 1, Some(cents(200)), Some(cents(210))),
        away(4_000, 9, Some(cents(200)), Some(cents(210))),
        enter(5_000, buys(7, Account::Customer, 15), 215),
        enter(5_500, buys(21, Account::MarketMaker, 4), 210),
        enter(5_600, sells(22, Account::Linkage, 5), 195),
        enter(5_700, sells(22, Account::Linkage, 20), 200),
        clock(8_699),
        enter(8_700, sells(22, Account::Linkage, 1), 200),
        clock(8_700),
        enter(9_000, buys(30, Account::Customer, 6), 215),
        clock(12_000),
        enter(12_500, sells(31, Account::MarketMaker, 8), 220),
        enter(12_600, sells(32, Account::Customer, 5), 215),
    ]
}

// An auction of 20 contracts with improvements and a better price of the starter, and what comes after it.
pub fn auction() -> [DayCall; 12] {
    [
        start(13_000, 40, Side::Buy, 210, 20),
        start(13_000, 40, Side::Buy, 209, 20),
        improve(13_500, 41, 207, 5, None),
        improve(13_600, 42, 209, 10, None),
        improve(13_700, 40, 207, 5, None),
        better(14_000, 13, 208),
        improve(14_500, 42, 208, 10, Some(16)),
        finish(15_999, ticket(13, false)),
        finish(16_000, ticket(13, false)),
        finish(16_100, ticket(13, true)),
        withdraw(17_000, 31, 12),
        withdraw(17_000, 31, 11),
    ]
}
