// Orders placed before the opening, orders withdrawn, and exposures that end.
ghost use Rattle.std.specs.Prelude.{◌≡◌, []};
ghost use Rattle.rules.specs.Calls as calls;
ghost use Rattle.rules.specs.Runs.{nothing};
ghost use Rattle.series.specs.Answers.{Answers, told_rows, told_entry};
ghost use Rattle.series.specs.State.{state};

use crate::answer::Entered;
use crate::pass::PreOpeningPass;
use crate::series::Series;
use crate::series::orders::new_order;
use book::select::Filter;
use market::order::{Account, OrderKind, Role, Side};
use market::refusal::Refusal;
use market::row::Row;
use market::units::{Contracts, Millis};
use order_table::departures::{Departure, write_departures};
use sharing::rule::SharingRule;

impl<R: SharingRule> Series<R> {
    // Puts an order into the book before the opening.
    // The parameters of a call are a rule of this project.
    pub fn place(
        &mut self,
        pass: &PreOpeningPass,
        time: Millis,
        member: u16,
        side: Side,
        account: Account,
        kind: OrderKind,
        size: Contracts,
    ) -> Result<Entered, Refusal>
        ensures rule { self.new.rule ≡ self.old.rule }
        ensures answers { Answers (R.shared self.old.rule) (state self.old) (state self.new) [] (told_entry result) nothing (calls.place pass.now.series time member side account kind size) }
    {
        self.check_place(pass, time, member, side, account, kind, size)?;
        let number = self.table.next() as u16;
        let order = new_order(number, member, side, account, kind, size, Role::Book);
        let _ = self.table.append(order);
        self.time = time;
        Ok(Entered { rows: 0, number })
    }

    // Takes a member's order off the book.
    pub fn withdraw(
        &mut self,
        time: Millis,
        member: u16,
        order: u16,
        rows: &mut [Row],
    ) -> Result<usize, Refusal>
        ensures rule { self.new.rule ≡ self.old.rule }
        ensures answers { Answers (R.shared self.old.rule) (state self.old) (state self.new) rows.new (told_rows result) nothing (calls.withdraw time member order rows.old) }
    {
        let withdrawn = self.check_withdraw(time, member, order, rows)?;
        rows[0] = Departure::Withdrawal.row(&withdrawn);
        self.table.keep(Filter::Besides(order));
        self.time = time;
        Ok(1)
    }

    // Takes off the orders whose exposure has ended.
    pub fn clock(&mut self, time: Millis, rows: &mut [Row]) -> Result<usize, Refusal>
        ensures rule { self.new.rule ≡ self.old.rule }
        ensures answers { Answers (R.shared self.old.rule) (state self.old) (state self.new) rows.new (told_rows result) nothing (calls.clock time rows.old) }
    {
        self.check_clock(time, rows)?;
        let live = self.table.live();
        let due = Filter::Due(time);
        // The rows fit: there is room for one of each order.
        let count = write_departures(live, due, Departure::ExposureEnd, rows).unwrap();
        self.table.keep(Filter::Lasting(time));
        self.time = time;
        Ok(count)
    }
}
