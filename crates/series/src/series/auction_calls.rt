// Auctions: started, improved by other members, and bettered by their starters.
ghost use Rattle.std.specs.Prelude.{◌≡◌, ◌+◌, ◌≤◌, [], ◌∷◌, ◌++◌, count_by};
ghost use Rattle.market.specs.Words.{other, limit_at};
ghost use Rattle.market.specs.declared.order.Account.TheVariants.{Customer, MarketMaker};
ghost use Rattle.market.specs.declared.order.Role.TheVariants.{Auctioned, Starter};
ghost use Rattle.rules.specs.Calls as calls;
ghost use Rattle.rules.specs.Calls.{new_order};
ghost use Rattle.rules.specs.Runs.{nothing};
ghost use Rattle.rules.specs.Runs as runs;
ghost use Rattle.order_table.specs.Orders.{orders, next_number};
ghost use Rattle.book.specs.Records.{customers, auction_contra};
ghost use Rattle.series.specs.Answers.{Answers, told_start, told_entry, handed_start};
ghost use Rattle.series.specs.State.{state};
ghost use Rattle.series.specs.Tickets.{shown};

use crate::answer::{Entered, Started};
use crate::pass::TradingPass;
use crate::phase::Phase;
use crate::series::Series;
use crate::series::orders::{maker_order, new_order, replace_order};
use crate::ticket::Ticket;
use market::auction::Auction;
use market::order::{Account, OrderKind, Role, Side};
use market::refusal::Refusal;
use market::row::Row;
use market::units::{Cents, Contracts, Millis};
use order_table::table::Table;
use sharing::rule::SharingRule;

// How long an auction runs.
const AUCTION_LENGTH: u32 = 3_000;

// Adds the customer's and the starter's order of a new auction.
fn append_pair(table: &mut Table, member: u16, side: Side, price: Cents, size: Contracts) -> Started
    requires numbers { next_number table.old + 2 ≤ 65536 }
    requires price { price.value ≤ 99999 }
    requires size { size.count ≤ 9999 }
    requires customers { count_by customers (orders table.old) ≡ 0 }
    requires contra { count_by auction_contra (orders table.old) ≡ 0 }
    ensures records { orders table.new ≡ orders table.old ++ new_order (next_number table.old) member side Customer (limit_at price.value) size.count Auctioned ∷ new_order (next_number table.old + 1) member (other side) MarketMaker (limit_at price.value) size.count Starter ∷ [] }
    ensures numbers { next_number table.new ≡ next_number table.old + 2 }
    ensures customer { result.customer ≡ next_number table.old }
    ensures starter { result.starter ≡ next_number table.old + 1 }
{
    let customer = table.next() as u16;
    let starter = customer + 1;
    let kind = OrderKind::Limit(price);
    let order = new_order(
        customer,
        member,
        side,
        Account::Customer,
        kind,
        size,
        Role::Auctioned,
    );
    let contra = maker_order(starter, member, side.other(), price, size, Role::Starter);
    let _ = table.append(order);
    let _ = table.append(contra);
    Started { customer, starter }
}

impl<R: SharingRule> Series<R> {
    // Starts an auction of a customer's order; its ticket is the duty to finish it.
    // The parameters of a call are a rule of this project.
    pub fn start(
        &mut self,
        pass: &TradingPass,
        time: Millis,
        member: u16,
        side: Side,
        price: Cents,
        size: Contracts,
    ) -> Result<(Ticket, Started), Refusal>
        ensures rule { self.new.rule ≡ self.old.rule }
        ensures answers { Answers (R.shared self.old.rule) (state self.old) (state self.new) [] (told_start result) (handed_start result) (calls.start pass.now.series time member side price size) }
    {
        self.check_start(pass, time, member, side, price, size)?;
        let started = append_pair(&mut self.table, member, side, price, size);
        let auction = Auction {
            customer: started.customer,
            starter: started.starter,
            member,
            side,
            size,
            end: Millis {
                count: time.count + AUCTION_LENGTH,
            },
        };
        self.phase = Phase::Trading {
            auction: Some(auction),
        };
        self.time = time;
        let ticket = Ticket {
            series: self.number,
            customer: started.customer,
            discharged: false,
        };
        Ok((ticket, started))
    }

    // Adds an order against the customer, or replaces one of the same member.
    // The parameters of a call are a rule of this project.
    pub fn improve(
        &mut self,
        pass: &TradingPass,
        time: Millis,
        member: u16,
        price: Cents,
        size: Contracts,
        replaces: Option<u16>,
        rows: &mut [Row],
    ) -> Result<Entered, Refusal>
        ensures rule { self.new.rule ≡ self.old.rule }
        ensures answers { Answers (R.shared self.old.rule) (state self.old) (state self.new) rows.new (told_entry result) nothing (calls.improve pass.now.series time member price size replaces rows.old) }
    {
        self.check_improve(pass, time, member, price, size, replaces, rows)?;
        let old = self.replaced(member, replaces);
        let number = self.table.next() as u16;
        // An auction runs: it is checked.
        let side = self.phase.auction().unwrap().side.other();
        let order = maker_order(number, member, side, price, size, Role::Competing);
        let count = replace_order(&mut self.table, old, order, rows);
        self.time = time;
        Ok(Entered {
            rows: count,
            number,
        })
    }

    // Replaces the starter's order by one at a better price.
    // The parameters of a call are a rule of this project.
    pub fn better(
        &mut self,
        pass: &TradingPass,
        ticket: &Ticket,
        time: Millis,
        price: Cents,
        rows: &mut [Row],
    ) -> Result<Entered, Refusal>
        ensures rule { self.new.rule ≡ self.old.rule }
        ensures answers { Answers (R.shared self.old.rule) (state self.old) (state self.new) rows.new (told_entry result) (runs.ticket (shown ticket.now)) (calls.better pass.now.series (shown ticket.now) time price rows.old) }
    {
        self.check_better(pass, ticket, time, price, rows)?;
        // The ticket is of a running auction.
        let auction = self.phase.auction().unwrap();
        let old = self.starter_order(auction);
        let number = self.table.next() as u16;
        let side = auction.side.other();
        let order = maker_order(
            number,
            auction.member,
            side,
            price,
            auction.size,
            Role::Starter,
        );
        let count = replace_order(&mut self.table, old, order, rows);
        let bettered = Auction {
            starter: number,
            ..auction
        };
        self.phase = Phase::Trading {
            auction: Some(bettered),
        };
        self.time = time;
        Ok(Entered {
            rows: count,
            number,
        })
    }
}
