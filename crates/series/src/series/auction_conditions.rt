// Conditions by which the calls on an auction are refused.
ghost use Rattle.std.specs.Prelude.{◌≡◌};
ghost use Rattle.rules.specs.Calls.{wrong_ticket, not_its_customer};
ghost use Rattle.rules.specs.Prices.{cents};
ghost use Rattle.rules.specs.Series.{national_best, not_below_best, before_end, starters_member, auction_full, starter_order, starter_price, bad_replacement, bad_improvement, not_bettered};
ghost use Rattle.rules.specs.Series as model;
ghost use Rattle.series.specs.State.{state};
ghost use Rattle.series.specs.Tickets.{shown};

use crate::series::Series;
use crate::ticket::Ticket;
use book::select::{Filter, count, find};
use market::auction::Auction;
use market::order::{Order, Side};
use market::row::NO_PRICE;
use market::units::{Cents, Contracts, Millis};
use order_table::prices::{better_price, book_best, is_better};
use sharing::rule::SharingRule;

// Places for the starter's order and the competing ones.
const AUCTION_PLACES: usize = 32;

// Whether a price is no better than the best, or there is no best.
fn is_not_below(side: Side, price: Cents, best: Option<Cents>) -> bool
    ensures { result ≡ not_below_best side price.value (cents best) }
{
    best.is_none_or(|best| !is_better(side, price, best))
}

pub(super) fn is_starters_member(member: u16, auction: Option<Auction>) -> bool
    ensures { result ≡ starters_member member auction }
{
    auction.is_some_and(|auction| member == auction.member)
}

fn is_not_its_customer(number: u16, auction: Option<Auction>) -> bool
    ensures { result ≡ not_its_customer number auction }
{
    auction.is_none_or(|auction| number != auction.customer)
}

pub(super) fn is_before_end(time: Millis, auction: Option<Auction>) -> bool
    ensures { result ≡ before_end time.count auction }
{
    auction.is_some_and(|auction| time < auction.end)
}

// Whether an order would be replaced at a worse price, by a larger one, or by one that alters neither.
fn is_bad_replacement(side: Side, price: Cents, size: Contracts, old: Option<Order>) -> bool
    ensures { result ≡ bad_replacement side price.value size.count old }
{
    old.is_some_and(|old| {
        is_better(side, old.kind.price(), price)
            || old.size < size
            || (old.kind.price() == price && old.size == size)
    })
}

impl<R: SharingRule> Series<R> {
    // The better of the away best and the book's best for a taker on that side.
    fn national_best(&self, side: Side) -> Option<Cents>
        ensures { cents result ≡ national_best side (state self.now) }
    {
        let away = self.away.best(side);
        let book = book_best(side, self.table.live());
        better_price(side, away, book)
    }

    pub(super) fn is_not_below_best(&self, side: Side, price: Cents) -> bool
        ensures { result ≡ not_below_best side price.value (national_best side (state self.now)) }
    {
        is_not_below(side, price, self.national_best(side))
    }

    pub(super) fn is_wrong_ticket(&self, ticket: &Ticket) -> bool
        ensures { result ≡ wrong_ticket (shown ticket.now) (state self.now) }
    {
        ticket.series != self.number
            || ticket.discharged
            || is_not_its_customer(ticket.customer, self.phase.auction())
    }

    // Whether no place is left for one more order besides the customer's.
    pub(super) fn is_auction_full(&self) -> bool
        ensures { result ≡ auction_full (state self.now) }
    {
        AUCTION_PLACES <= count(self.table.live(), Filter::AuctionContra)
    }

    // The order that an improvement replaces.
    pub(super) fn replaced(&self, member: u16, replaces: Option<u16>) -> Option<Order>
        ensures { result ≡ model.replaced member replaces (state self.now) }
    {
        replaces.and_then(|number| find(self.table.live(), Filter::CompetingOf(member, number)))
    }

    // The starter's order.
    pub(super) fn starter_order(&self, auction: Auction) -> Option<Order>
        ensures { result ≡ starter_order (state self.now) auction }
    {
        find(self.table.live(), Filter::Numbered(auction.starter))
    }

    // The price of the starter's order. The rules say 0 where it is gone.
    fn starter_price(&self, auction: Auction) -> Cents
        ensures { result.value ≡ starter_price (state self.now) auction }
    {
        self.starter_order(auction)
            .map_or(NO_PRICE, |order| order.kind.price())
    }

    // Whether a price and a size are no improvement, given the order that is replaced.
    pub(super) fn is_bad_improvement(
        &self,
        price: Cents,
        size: Contracts,
        old: Option<Order>,
    ) -> bool
        ensures { result ≡ bad_improvement price.value size.count old (state self.now) }
    {
        self.phase.auction().is_some_and(|auction| {
            is_better(auction.side, self.starter_price(auction), price)
                || auction.size < size
                || is_bad_replacement(auction.side, price, size, old)
        })
    }

    // Whether a price is no better than that of the starter's order.
    pub(super) fn is_not_bettered(&self, price: Cents) -> bool
        ensures { result ≡ not_bettered price.value (state self.now) }
    {
        self.phase.auction().is_none_or(|auction| !is_better(
            auction.side,
            price,
            self.starter_price(auction),
        ))
    }
}
