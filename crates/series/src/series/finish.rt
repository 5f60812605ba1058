// The finish of an auction.
ghost use Rattle.std.specs.Prelude.{◌≡◌, ◌≤◌, ◌++◌, map, length, drop, count_by, filter};
ghost use Rattle.rules.specs.Calls.{withdrawn_row, without};
ghost use Rattle.rules.specs.Calls as calls;
ghost use Rattle.rules.specs.Runs as runs;
ghost use Rattle.book.specs.Filters.{passes};
ghost use Rattle.order_table.specs.Orders.{orders};
ghost use Rattle.series.specs.Answers.{Answers, told_rows};
ghost use Rattle.series.specs.Finishing.{customer_taker, Finished};
ghost use Rattle.series.specs.State.{state};
ghost use Rattle.series.specs.Tickets.{shown};

use crate::phase::Phase;
use crate::series::Series;
use crate::series::taking::take_in_bounds;
use crate::ticket::Ticket;
use book::allocation::Taking;
use book::select::Filter;
use market::auction::Auction;
use market::order::Order;
use market::refusal::Refusal;
use market::row::Row;
use market::units::{Contracts, Millis};
use matching::take::Taker;
use order_table::departures::{Departure, write_departures};
use order_table::table::Table;
use sharing::rule::SharingRule;

// Writes the W rows of the orders outside the book, for which there is room, and answers how many.
fn write_withdrawals(orders: &[Order], rows: &mut [Row]) -> usize
    requires { count_by (passes Filter.Outside) orders.now ≤ length rows.old }
    ensures counted { result ≡ length (map withdrawn_row (filter (passes Filter.Outside) orders.now)) }
    ensures written { rows.new ≡ map withdrawn_row (filter (passes Filter.Outside) orders.now) ++ drop result rows.old }
{
    write_departures(orders, Filter::Outside, Departure::Withdrawal, rows).unwrap()
}

// The customer of an auction as a taker: the starter's order has a guarantee of two fifths.
fn customer_taker(auction: Auction) -> Taker
    requires { auction.size.count ≤ 9999 }
    ensures { result ≡ customer_taker auction }
{
    Taker {
        side: auction.side,
        number: auction.customer,
        taking: Taking {
            amount: auction.size,
            marked: Some(auction.starter),
            guarantee: Contracts {
                count: 2 * auction.size.count / 5,
            },
        },
    }
}

// Trades the customer's order with all orders against it, and withdraws what is left of the auction. Answers how many
// rows are written.
fn finish_auction<R: SharingRule>(
    rule: &R,
    table: &mut Table,
    auction: Auction,
    rows: &mut [Row],
) -> usize
    requires claims { count_by (passes (Filter.Contra auction.side)) (orders table.old) ≤ 160 }
    requires others { count_by (passes Filter.Outside) (without auction.customer (orders table.old)) ≤ 32 }
    requires size { auction.size.count ≤ 9999 }
    requires room { 192 ≤ length rows.old }
    ensures { Finished (R.shared rule.now) auction table.old table.new rows.old rows.new result }
{
    let taken = take_in_bounds(
        rule,
        table,
        Filter::Contra(auction.side),
        customer_taker(auction),
        rows,
    );
    table.keep(Filter::Besides(auction.customer));
    let traded = taken.rows;
    let withdrawn = write_withdrawals(table.live(), &mut rows[traded..]);
    table.keep(Filter::InBook);
    traded + withdrawn
}

impl<R: SharingRule> Series<R> {
    // Ends the auction of a ticket, and discharges the ticket.
    pub fn finish(
        &mut self,
        ticket: &mut Ticket,
        time: Millis,
        rows: &mut [Row],
    ) -> Result<usize, Refusal>
        ensures rule { self.new.rule ≡ self.old.rule }
        ensures answers { Answers (R.shared self.old.rule) (state self.old) (state self.new) rows.new (told_rows result) (runs.ticket (shown ticket.new)) (calls.finish (shown ticket.old) time rows.old) }
    {
        self.check_finish(ticket, time, rows)?;
        // The ticket is of a running auction.
        let auction = self.phase.auction().unwrap();
        let count = finish_auction(&self.rule, &mut self.table, auction, rows);
        self.phase = Phase::Trading { auction: None };
        self.time = time;
        ticket.discharged = true;
        Ok(count)
    }
}
