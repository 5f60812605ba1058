// Days and what their journals must say.
use crate::calls::{CLOSE, SERIES, cents, contracts};
use market::close::Close;
use market::refusal::Refusal;
use market::row::{Row, RowKind};
use series::day::{DayCall, JournalEntry, UNUSED_ROW};
use series::series::replay::replay;
use sharing::rule::SharingRule;
use std::process::Abort;
use std::test::*;

// The number of an entry's refusal, 0 where the call is accepted: a number stays, since the days in the tests have one
// beside each call, which is shorter to read than a refusal or none.
pub fn refusal(entry: &JournalEntry) -> u8 {
    entry
        .outcome
        .answer
        .map_or_else(|refusal| refusal.number(), |_| 0)
}

// How many rows an entry counts.
pub fn row_count(entry: &JournalEntry) -> usize {
    entry.outcome.answer.map_or(0, |accepted| accepted.rows)
}

// How many calls find the book or the auction full.
pub fn count_full(journal: &[JournalEntry]) -> usize {
    journal
        .iter()
        .filter(|entry| entry.outcome.answer == Err(Refusal::Full))
        .count()
}

// Replays a day of calls, each with the number of the refusal that it must get, 0 for none.
pub fn check_day<R: SharingRule + Drop>(
    rt: &(impl Abort + AllocGlobal),
    rule: R,
    day: &[(DayCall, u8)],
) -> Result<Vec<JournalEntry>, Fail> {
    let calls: Vec<DayCall> = day.iter().map(|(call, _)| *call).collect(rt.alloc())?;
    let journal = replay(rt.alloc(), rule, SERIES, Close::new(CLOSE)?, &calls)?;
    for (entry, (_, expected)) in journal.iter().zip(day.iter()) {
        assert_eq!(rt; refusal(entry), *expected);
    }
    Ok(journal)
}

// A row, written out: what is expected does not come from the code that is tested.
fn row(kind: RowKind, first: u16, second: u16, price: u32, count: u32) -> Row {
    Row {
        kind,
        first,
        second,
        price: cents(price),
        contracts: contracts(count),
    }
}

pub fn departure(kind: RowKind, order: u16, price: u32, count: u32) -> Row {
    row(kind, order, 0, price, count)
}

pub fn trade(buyer: u16, seller: u16, price: u32, count: u32) -> Row {
    row(RowKind::Trade, buyer, seller, price, count)
}

// The rows of the last call of a day, and the memory behind them.
pub fn check_last(rt: &impl Abort, journal: &[JournalEntry], expected: &[Row]) -> Result<(), Fail> {
    let Some(entry) = journal.last() else {
        return Err(Fail::new("the journal is empty"));
    };
    assert_eq!(rt; row_count(entry), expected.len());
    assert!(rt; entry.memory.starts_with(expected), "a row differs");
    assert!(rt;
        entry.memory.get(expected.len()) == Some(&UNUSED_ROW),
        "memory behind the rows is written"
    );
    Ok(())
}
