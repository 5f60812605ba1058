// When the calls on the book and on away prices are refused. A check has its call's own parameters: a struct of them
// would be made for this one use.
ghost use Rattle.std.specs.Prelude.{◌≡◌, IfOk, Some};
ghost use Rattle.market.specs.Refusals.{refused_by, first_hit};
ghost use Rattle.rules.specs.Calls.{checks};
ghost use Rattle.rules.specs.Calls as calls;
ghost use Rattle.rules.specs.Series.{off_grid, bad_quote, crossed, found, book_order};
ghost use Rattle.series.specs.State.{state};

use crate::pass::{PreOpeningPass, TradingPass};
use crate::series::Series;
use crate::series::conditions::{DAY_END, LAST_BEGIN, are_few, is_bad_member};
use book::select::{Filter, find};
use market::order::{Account, Order, OrderKind, Side};
use market::refusal::{Refusal, refuse_if};
use market::row::Row;
use market::units::{Cents, Contracts, Millis};
use sharing::rule::SharingRule;

const MARKETS: u8 = 8;

fn is_off_grid(kind: OrderKind) -> bool
    ensures { result ≡ off_grid kind }
{
    match kind {
        OrderKind::Limit(price) => !price.is_on_grid(),
        OrderKind::MarketOnOpening => false,
    }
}

fn is_bad_quote(price: Option<Cents>) -> bool
    ensures { result ≡ bad_quote price }
{
    price.is_some_and(|price| !price.is_price())
}

// Whether a bid is not below the offer.
fn is_crossed(bid: Option<Cents>, offer: Option<Cents>) -> bool
    ensures { result ≡ crossed bid offer }
{
    bid.zip(offer).is_some_and(|(bid, offer)| offer <= bid)
}

impl<R: SharingRule> Series<R> {
    pub(super) fn check_place(
        &self,
        pass: &PreOpeningPass,
        time: Millis,
        member: u16,
        side: Side,
        account: Account,
        kind: OrderKind,
        size: Contracts,
    ) -> Result<(), Refusal>
        ensures { refused_by result ≡ first_hit (checks (state self.now) (calls.place pass.now.series time member side account kind size)) }
    {
        refuse_if(self.is_wrong_pass(pass.series, false), Refusal::WrongPass)?;
        refuse_if(self.is_early_or_late(time, DAY_END), Refusal::BadTime)?;
        refuse_if(is_bad_member(member), Refusal::BadMember)?;
        refuse_if(is_off_grid(kind), Refusal::BadPrice)?;
        refuse_if(!size.is_size(), Refusal::BadSize)?;
        refuse_if(self.is_book_full(), Refusal::Full)?;
        refuse_if(self.is_short_of_numbers(1), Refusal::NumbersUsedUp)
    }

    // Answers the order to be withdrawn.
    pub(super) fn check_withdraw(
        &self,
        time: Millis,
        member: u16,
        order: u16,
        rows: &[Row],
    ) -> Result<Order, Refusal>
        ensures refusal { refused_by result ≡ first_hit (checks (state self.now) (calls.withdraw time member order rows.now)) }
        ensures order { IfOk result (λ o. found (book_order member order) (state self.now).orders ≡ Some o) }
    {
        refuse_if(self.is_early_or_late(time, DAY_END), Refusal::BadTime)?;
        refuse_if(self.is_something_due(time), Refusal::EndDue)?;
        refuse_if(is_bad_member(member), Refusal::BadMember)?;
        refuse_if(are_few(rows), Refusal::OutOfBounds)?;
        find(self.table.live(), Filter::OwnedBy(member, order)).ok_or(Refusal::NoSuchOrder)
    }

    pub(super) fn check_away(
        &self,
        time: Millis,
        market: u8,
        bid: Option<Cents>,
        offer: Option<Cents>,
    ) -> Result<(), Refusal>
        ensures { refused_by result ≡ first_hit (checks (state self.now) (calls.away time market bid offer)) }
    {
        refuse_if(self.is_early_or_late(time, DAY_END), Refusal::BadTime)?;
        refuse_if(self.is_something_due(time), Refusal::EndDue)?;
        refuse_if(is_bad_quote(bid) || is_bad_quote(offer), Refusal::BadPrice)?;
        refuse_if(
            market == 0 || market > MARKETS || is_crossed(bid, offer),
            Refusal::BadQuote,
        )
    }

    pub(super) fn check_enter(
        &self,
        pass: &TradingPass,
        time: Millis,
        member: u16,
        side: Side,
        account: Account,
        price: Cents,
        size: Contracts,
        rows: &[Row],
    ) -> Result<(), Refusal>
        ensures { refused_by result ≡ first_hit (checks (state self.now) (calls.enter pass.now.series time member side account price size rows.now)) }
    {
        refuse_if(self.is_wrong_pass(pass.series, true), Refusal::WrongPass)?;
        refuse_if(self.is_early_or_late(time, LAST_BEGIN), Refusal::BadTime)?;
        refuse_if(self.is_something_due(time), Refusal::EndDue)?;
        refuse_if(is_bad_member(member), Refusal::BadMember)?;
        refuse_if(!price.is_on_grid(), Refusal::BadPrice)?;
        refuse_if(!size.is_size(), Refusal::BadSize)?;
        refuse_if(are_few(rows), Refusal::OutOfBounds)?;
        refuse_if(self.is_book_full(), Refusal::Full)?;
        refuse_if(self.is_short_of_numbers(1), Refusal::NumbersUsedUp)
    }

    pub(super) fn check_clock(&self, time: Millis, rows: &[Row]) -> Result<(), Refusal>
        ensures { refused_by result ≡ first_hit (checks (state self.now) (calls.clock time rows.now)) }
    {
        refuse_if(self.is_early_or_late(time, DAY_END), Refusal::BadTime)?;
        refuse_if(are_few(rows), Refusal::OutOfBounds)
    }
}
