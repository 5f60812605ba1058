// A whole day on a fresh series.
ghost use Rattle.std.specs.Prelude.{◌≡◌, IfOk};
ghost use Rattle.rules.specs.Runs.{after, event};
ghost use Rattle.series.specs.Days.{Replayed, call_of, event_of, lent_to, unused};
ghost use Rattle.series.specs.State.{state};

use crate::day::{DayCall, JournalEntry, MOST_LENT, UNUSED_ROW};
use crate::series::Series;
use market::close::Close;
use market::row::Row;
use sharing::rule::SharingRule;
use std::alloc::{AllocError, Global};

impl DayCall {
    // How many rows the call is lent, before the limit. A match: three cases are lent none, and have no field for it.
    fn lent(self) -> usize
        ensures { result ≡ lent_to self }
    {
        match self {
            DayCall::Place(_) => 0,
            DayCall::Withdraw(call) => call.lent,
            DayCall::Away(_) => 0,
            DayCall::Open(call) => call.lent,
            DayCall::Enter(call) => call.lent,
            DayCall::Clock(call) => call.lent,
            DayCall::Start(_) => 0,
            DayCall::Improve(call) => call.lent,
            DayCall::Better(call) => call.lent,
            DayCall::Finish(call) => call.lent,
        }
    }
}

// Memory to lend.
fn unused_rows() -> [Row; 192]
    ensures { result ≡ unused 192 }
{
    [UNUSED_ROW; 192]
}

impl<R: SharingRule> Series<R> {
    // Makes a call, and notes what became of it.
    fn record(&mut self, call: DayCall) -> JournalEntry
        ensures rule { self.new.rule ≡ self.old.rule }
        ensures state { state self.new ≡ after (R.shared self.old.rule) (state self.old) (call_of call) }
        ensures event { event_of result ≡ event (R.shared self.old.rule) (state self.old) (call_of call) }
    {
        let mut memory = unused_rows();
        let lent = call.lent().min(MOST_LENT);
        let outcome = self.play(call, &mut memory[0..lent]);
        JournalEntry {
            call,
            outcome,
            memory,
        }
    }
}

// Makes the calls of a day in turn on a new series, and answers the journal of their events. No sequence of calls can
// deny an order the best terms on offer, under this rule or any other.
pub fn replay<R: SharingRule + Drop>(
    heap: Global,
    rule: R,
    number: u16,
    close: Close,
    calls: &[DayCall],
) -> Result<Vec<JournalEntry>, AllocError>
    ensures { IfOk result (λ j. Replayed (R.shared rule) number close.price.value calls.now j.items) }
{
    let (mut series, _pass) = Series::new(number, close, rule);
    let mut journal = Vec::new(heap);
    for call in calls {
        journal.push(series.record(*call))?;
    }
    Ok(journal)
}
