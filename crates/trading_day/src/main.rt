// Prints a day of one series: the questions that may be asked before the opening, then every call with its answer and rows.
#![tactic(auto)]

mod calls;
#[cfg(test)]
mod day_cases;
#[cfg(test)]
mod journals;
mod print;
#[cfg(test)]
mod refusal_cases;
mod trading_day;

use crate::calls::{CLOSE, SERIES};
use crate::print::print_entry;
use market::close::Close;
use market::order::{Account, OrderKind, Side};
use market::units::{Cents, Contracts, Millis};
use series::day::DayCall;
use series::series::Series;
use series::series::replay::replay;
use sharing::time::TimeWithGuarantee;
use std::io;

// Two orders before the opening, and what the series answers then.
fn print_questions(rt: &HostRuntime, close: Close) -> io::Result<()> {
    let (mut series, pass) = Series::new(SERIES, close, TimeWithGuarantee);
    let start = Millis { count: 0 };
    let size = Contracts { count: 10 };
    let bid = OrderKind::Limit(Cents { value: 210 });
    let offer = OrderKind::Limit(Cents { value: 195 });
    let _ = series.place(&pass, start, 7, Side::Buy, Account::Customer, bid, size);
    let _ = series.place(&pass, start, 8, Side::Sell, Account::Customer, offer, size);
    if let Ok(Some((price, quantity))) = series.top(&pass) {
        println!(rt; "Would open at {price}, {quantity} contracts would trade")?;
    }
    for order in 1..4 {
        let left = series.left(order);
        println!(rt; "Left of order {order}: {left}")?;
    }
    Ok(())
}

fn print_day(rt: &HostRuntime, close: Close) -> anyhow::Result<()> {
    let mut calls: Vec<DayCall> = Vec::new(rt.alloc());
    calls.extend_from_slice(&trading_day::opening())?;
    calls.extend_from_slice(&trading_day::trading())?;
    calls.extend_from_slice(&trading_day::auction())?;
    let journal = replay(rt.alloc(), TimeWithGuarantee, SERIES, close, &calls)?;
    for entry in &journal {
        print_entry(rt, entry)?;
    }
    Ok(())
}

fn main(rt: HostRuntime) -> anyhow::Result<()> {
    let close = Close::new(CLOSE).unwrap();
    println!(&rt; "Two orders, before the opening")?;
    print_questions(&rt, close)?;
    println!(&rt; "")?;
    println!(&rt; "A day, by time with guarantee")?;
    print_day(&rt, close)
}
