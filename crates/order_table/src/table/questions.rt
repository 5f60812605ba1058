// What a table is asked.
ghost use Rattle.std.specs.Prelude.{◌≡◌, true, sum_by, filter as kept_by};
ghost use Rattle.std.specs.List.{AllByRecursion};
ghost use Rattle.market.specs.Words.{standing};
ghost use Rattle.book.specs.Filters.{passes};
ghost use Rattle.book.specs.Records.{Live};
ghost use Rattle.order_table.specs.Orders.{orders, next_number};
ghost use Rattle.order_table.specs.Records.{priced};

use crate::table::Table;
use book::select::{Filter, volume};
use market::order::Order;
use market::units::Contracts;

impl Table {
    // The live records.
    pub fn live(&self) -> &[Order]
        ensures is { result.now ≡ orders self.now }
        ensures kept { Live result.now (next_number self.now) }
        ensures priced { AllByRecursion (λ o. priced o ≡ true) result.now }
    {
        self.records.live()
    }

    // The number of the next order.
    pub fn next(&self) -> u32
        ensures { result ≡ next_number self.now }
    {
        self.records.next()
    }

    // The contracts that stand of the orders that pass.
    pub fn volume(&self, filter: Filter) -> Contracts
        ensures { result.count ≡ sum_by standing (kept_by (passes filter) (orders self.now)) }
    {
        volume(self.live(), filter)
    }
}
