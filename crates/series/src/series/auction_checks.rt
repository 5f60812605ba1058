// When the calls on an auction are refused. A check has its call's own parameters: a struct of them would be made for
// this one use.
ghost use Rattle.std.specs.Prelude.{◌≡◌};
ghost use Rattle.market.specs.Refusals.{refused_by, first_hit};
ghost use Rattle.rules.specs.Calls.{checks};
ghost use Rattle.rules.specs.Calls as calls;
ghost use Rattle.series.specs.State.{state};
ghost use Rattle.series.specs.Tickets.{shown};

use crate::pass::TradingPass;
use crate::series::Series;
use crate::series::auction_conditions::{is_before_end, is_starters_member};
use crate::series::conditions::{DAY_END, LAST_BEGIN, are_few, is_bad_member};
use crate::ticket::Ticket;
use market::order::Side;
use market::refusal::{Refusal, refuse_if};
use market::row::Row;
use market::units::{Cents, Contracts, Millis};
use sharing::rule::SharingRule;

impl<R: SharingRule> Series<R> {
    pub(super) fn check_start(
        &self,
        pass: &TradingPass,
        time: Millis,
        member: u16,
        side: Side,
        price: Cents,
        size: Contracts,
    ) -> Result<(), Refusal>
        ensures { refused_by result ≡ first_hit (checks (state self.now) (calls.start pass.now.series time member side price size)) }
    {
        refuse_if(self.is_wrong_pass(pass.series, true), Refusal::WrongPass)?;
        refuse_if(self.is_early_or_late(time, LAST_BEGIN), Refusal::BadTime)?;
        refuse_if(self.is_something_due(time), Refusal::EndDue)?;
        refuse_if(is_bad_member(member), Refusal::BadMember)?;
        refuse_if(!price.is_price(), Refusal::BadPrice)?;
        refuse_if(!size.is_size(), Refusal::BadSize)?;
        refuse_if(self.is_short_of_numbers(2), Refusal::NumbersUsedUp)?;
        refuse_if(self.phase.auction().is_some(), Refusal::AuctionState)?;
        refuse_if(self.is_not_below_best(side, price), Refusal::NotBetter)
    }

    pub(super) fn check_improve(
        &self,
        pass: &TradingPass,
        time: Millis,
        member: u16,
        price: Cents,
        size: Contracts,
        replaces: Option<u16>,
        rows: &[Row],
    ) -> Result<(), Refusal>
        ensures { refused_by result ≡ first_hit (checks (state self.now) (calls.improve pass.now.series time member price size replaces rows.now)) }
    {
        let auction = self.phase.auction();
        refuse_if(self.is_wrong_pass(pass.series, true), Refusal::WrongPass)?;
        refuse_if(self.is_early_or_late(time, DAY_END), Refusal::BadTime)?;
        refuse_if(self.is_something_due(time), Refusal::EndDue)?;
        refuse_if(
            is_bad_member(member) || is_starters_member(member, auction),
            Refusal::BadMember,
        )?;
        refuse_if(!price.is_price(), Refusal::BadPrice)?;
        refuse_if(!size.is_size(), Refusal::BadSize)?;
        refuse_if(are_few(rows), Refusal::OutOfBounds)?;
        refuse_if(replaces.is_none() && self.is_auction_full(), Refusal::Full)?;
        refuse_if(self.is_short_of_numbers(1), Refusal::NumbersUsedUp)?;
        let old = self.replaced(member, replaces);
        refuse_if(replaces.is_some() && old.is_none(), Refusal::NoSuchOrder)?;
        refuse_if(auction.is_none(), Refusal::AuctionState)?;
        refuse_if(
            self.is_bad_improvement(price, size, old),
            Refusal::NotBetter,
        )
    }

    pub(super) fn check_better(
        &self,
        pass: &TradingPass,
        ticket: &Ticket,
        time: Millis,
        price: Cents,
        rows: &[Row],
    ) -> Result<(), Refusal>
        ensures { refused_by result ≡ first_hit (checks (state self.now) (calls.better pass.now.series (shown ticket.now) time price rows.now)) }
    {
        refuse_if(
            self.is_wrong_pass(pass.series, true) || self.is_wrong_ticket(ticket),
            Refusal::WrongPass,
        )?;
        refuse_if(self.is_early_or_late(time, DAY_END), Refusal::BadTime)?;
        refuse_if(self.is_something_due(time), Refusal::EndDue)?;
        refuse_if(!price.is_price(), Refusal::BadPrice)?;
        refuse_if(are_few(rows), Refusal::OutOfBounds)?;
        refuse_if(self.is_short_of_numbers(1), Refusal::NumbersUsedUp)?;
        refuse_if(self.is_not_bettered(price), Refusal::NotBetter)
    }

    pub(super) fn check_finish(
        &self,
        ticket: &Ticket,
        time: Millis,
        rows: &[Row],
    ) -> Result<(), Refusal>
        ensures { refused_by result ≡ first_hit (checks (state self.now) (calls.finish (shown ticket.now) time rows.now)) }
    {
        refuse_if(self.is_wrong_ticket(ticket), Refusal::WrongPass)?;
        refuse_if(self.is_early_or_late(time, DAY_END), Refusal::BadTime)?;
        refuse_if(self.is_exposure_due(time), Refusal::EndDue)?;
        refuse_if(are_few(rows), Refusal::OutOfBounds)?;
        refuse_if(
            is_before_end(time, self.phase.auction()),
            Refusal::BeforeEnd,
        )
    }
}
