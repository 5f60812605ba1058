// The opening of a series.
ghost use Rattle.std.specs.Prelude.{◌≡◌, ◌≤◌, length};
ghost use Rattle.order_table.specs.Orders.{orders};
ghost use Rattle.rules.specs.Calls as calls;
ghost use Rattle.series.specs.Answers.{Answers, told_open, handed_open};
ghost use Rattle.series.specs.Openings.{Priced, Matched};
ghost use Rattle.series.specs.State.{state};

use crate::answer::Opened;
use crate::pass::{PreOpeningPass, TradingPass};
use crate::phase::Phase;
use crate::series::Series;
use discovery::opening_price::top;
use market::refusal::Refusal;
use market::row::Row;
use market::units::{Cents, Millis};
use matching::opening::open_at;
use order_table::table::Table;
use sharing::rule::SharingRule;

// Matches the orders at the opening price, if there is one, and answers how many rows are written.
fn match_orders<R: SharingRule>(
    rule: &R,
    table: &mut Table,
    opening: Option<(u32, u32)>,
    rows: &mut [Row],
) -> usize
    requires few { length (orders table.old) ≤ 128 }
    requires room { 192 ≤ length rows.old }
    requires price { Priced opening }
    ensures { Matched (R.shared rule.now) opening table.old table.new rows.old rows.new result }
{
    match opening {
        Some((price, _)) => open_at(rule, table, Cents { value: price }, rows).unwrap(),
        None => 0,
    }
}

impl<R: SharingRule> Series<R> {
    // Opens at the best price, and exchanges the pass. A price far from the close wants a waiver.
    pub fn open(
        &mut self,
        pass: PreOpeningPass,
        time: Millis,
        waived: bool,
        rows: &mut [Row],
    ) -> Result<(TradingPass, Opened), (PreOpeningPass, Refusal)>
        ensures rule { self.new.rule ≡ self.old.rule }
        ensures answers { Answers (R.shared self.old.rule) (state self.old) (state self.new) rows.new (told_open result) (handed_open result) (calls.opening pass.series time waived rows.old) }
    {
        let opening = top(&self.table, self.close);
        match self.check_open(&pass, time, waived, opening, rows) {
            Ok(()) => {
                let count = match_orders(&self.rule, &mut self.table, opening, rows);
                self.phase = Phase::Trading { auction: None };
                self.time = time;
                let trading_pass = TradingPass {
                    series: self.number,
                };
                Ok((
                    trading_pass,
                    Opened {
                        rows: count,
                        opening,
                    },
                ))
            }
            Err(refusal) => Err((pass, refusal)),
        }
    }
}
