// When the opening and the question for its price are refused. A check has its call's own parameters: a struct of them
// would be made for this one use.
ghost use Rattle.std.specs.Prelude.{◌≡◌, count_by, nat_lt};
ghost use Rattle.market.specs.Refusals.{refused_by, first_hit};
ghost use Rattle.rules.specs.Calls.{checks};
ghost use Rattle.rules.specs.Calls as calls;
ghost use Rattle.rules.specs.Opening.{top};
ghost use Rattle.rules.specs.Runs.{question_checks, ask_top};
ghost use Rattle.rules.specs.Series.{on_opening, opens_out_of_range};
ghost use Rattle.series.specs.State.{state};

use crate::pass::PreOpeningPass;
use crate::series::Series;
use crate::series::conditions::{DAY_END, are_few};
use market::order::{Order, OrderKind};
use market::refusal::{Refusal, refuse_if};
use market::row::Row;
use market::units::{Cents, Millis};
use order_table::prices::is_out_of_range;
use sharing::rule::SharingRule;

fn is_on_opening(kind: OrderKind) -> bool
    ensures { result ≡ on_opening kind }
{
    kind == OrderKind::MarketOnOpening
}

// Whether a Market-on-Opening order stands.
fn has_on_opening(orders: &[Order]) -> bool
    ensures { result ≡ nat_lt 0 (count_by (λ o. on_opening o.kind) orders.now) }
{
    orders.iter().any(|order| is_on_opening(order.kind))
}

// Whether a series would open too far from the close.
fn opens_out_of_range(close: Cents, opens: Option<(u32, u32)>) -> bool
    ensures { result ≡ opens_out_of_range close.value opens }
{
    opens.is_some_and(|(price, _)| is_out_of_range(close, Cents { value: price }))
}

impl<R: SharingRule> Series<R> {
    pub(super) fn check_top(&self, pass: &PreOpeningPass) -> Result<(), Refusal>
        ensures { refused_by result ≡ first_hit (question_checks (state self.now) (ask_top pass.now.series)) }
    {
        refuse_if(self.is_wrong_pass(pass.series, false), Refusal::WrongPass)
    }

    // Is told the opening price with its quantity.
    pub(super) fn check_open(
        &self,
        pass: &PreOpeningPass,
        time: Millis,
        waived: bool,
        opens: Option<(u32, u32)>,
        rows: &[Row],
    ) -> Result<(), Refusal>
        requires { opens ≡ top (state self.now).orders (state self.now).close }
        ensures { refused_by result ≡ first_hit (checks (state self.now) (calls.opening pass.now.series time waived rows.now)) }
    {
        refuse_if(self.is_wrong_pass(pass.series, false), Refusal::WrongPass)?;
        refuse_if(self.is_early_or_late(time, DAY_END), Refusal::BadTime)?;
        refuse_if(are_few(rows), Refusal::OutOfBounds)?;
        refuse_if(
            opens.is_none() && has_on_opening(self.table.live()),
            Refusal::NoOpeningPrice,
        )?;
        refuse_if(
            !waived && opens_out_of_range(self.close.price(), opens),
            Refusal::FarFromClose,
        )
    }
}
