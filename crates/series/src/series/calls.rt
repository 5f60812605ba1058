// A new series, questions to it, and away prices.
ghost use Rattle.std.specs.Prelude.{◌≡◌, []};
ghost use Rattle.rules.specs.Calls as calls;
ghost use Rattle.rules.specs.Runs.{reply, ask_top, nothing};
ghost use Rattle.rules.specs.Series.{fresh, left_under};
ghost use Rattle.series.specs.Answers.{Answers, told_nothing, told_top};
ghost use Rattle.series.specs.State.{state};

use crate::away::AwayQuotes;
use crate::pass::PreOpeningPass;
use crate::phase::Phase;
use crate::series::Series;
use book::select::Filter;
use discovery::opening_price::top;
use market::close::Close;
use market::quote::Quote;
use market::refusal::Refusal;
use market::units::{Cents, Contracts, Millis};
use order_table::table::Table;
use sharing::rule::SharingRule;

impl<R: SharingRule> Series<R> {
    // A new series, before its opening, with the pass to it.
    pub fn new(number: u16, close: Close, rule: R) -> (Series<R>, PreOpeningPass)
        ensures state { state result.0 ≡ fresh number close.price.value }
        ensures rule { result.0.rule ≡ rule }
        ensures pass { result.1.series ≡ number }
    {
        let series = Series {
            rule,
            number,
            close,
            phase: Phase::PreOpening,
            time: Millis { count: 0 },
            away: AwayQuotes::new(),
            table: Table::new(),
        };
        (series, PreOpeningPass { series: number })
    }

    // The contracts standing under an order number, and 0 for any other number.
    pub fn left(&self, order: u16) -> Contracts
        ensures { result.count ≡ left_under (state self.now).orders order }
    {
        self.table.volume(Filter::Numbered(order))
    }

    // The price at which the series would open now, with the quantity that would trade.
    pub fn top(&self, pass: &PreOpeningPass) -> Result<Option<(u32, u32)>, Refusal>
        ensures { told_top result ≡ reply (state self.now) (ask_top pass.now.series) }
    {
        self.check_top(pass)?;
        Ok(top(&self.table, self.close))
    }

    // Takes down the best prices of an away market, each of which may be missing.
    pub fn away(
        &mut self,
        time: Millis,
        market: u8,
        bid: Option<Cents>,
        offer: Option<Cents>,
    ) -> Result<(), Refusal>
        ensures rule { self.new.rule ≡ self.old.rule }
        ensures answers { Answers (R.shared self.old.rule) (state self.old) (state self.new) [] (told_nothing result) nothing (calls.away time market bid offer) }
    {
        self.check_away(time, market, bid, offer)?;
        self.away.replace(market, Quote { bid, offer });
        self.time = time;
        Ok(())
    }
}
