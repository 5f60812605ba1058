// What can be done with the table.
ghost use Rattle.std.specs.Prelude.{◌≡◌, ◌+◌, ◌≤◌, [], ◌∷◌, ◌++◌, filter as kept_by};
ghost use Rattle.book.specs.Filters.{passes};
ghost use Rattle.book.specs.Orders.{orders};
ghost use Rattle.book.specs.Records.{Live};

use crate::room::{BLANK, order_room};
use crate::select::{Filter, pick};
use crate::table::Table;
use market::order::Order;

impl Table {
    pub fn new() -> Table
        ensures empty { orders result ≡ [] }
        ensures first { result.next ≡ 1 }
    {
        Table {
            records: [BLANK; 161],
            count: 0,
            next: 1,
        }
    }

    // The live records.
    pub fn live(&self) -> &[Order]
        ensures is { result.now ≡ orders self.now }
        ensures kept { Live result.now self.now.next }
    {
        &self.records[0..self.count]
    }

    // The number of the next order.
    pub fn next(&self) -> u32
        ensures { result ≡ self.now.next }
    {
        self.next
    }

    // Adds an order under the next number.
    pub fn append(&mut self, order: Order)
        requires unused { order.number ≡ self.old.next }
        requires live { Live (orders self.old ++ order ∷ []) (self.old.next + 1) }
        ensures records { orders self.new ≡ orders self.old ++ order ∷ [] }
        ensures numbers { self.new.next ≡ self.old.next + 1 }
    {
        let mut records = self.records;
        records[self.count] = order;
        self.records = records;
        self.count += 1;
        self.next = order.number as u32 + 1;
    }

    // Uses up the next number without an order.
    pub fn skip_number(&mut self)
        requires left { self.old.next ≤ 65535 }
        ensures records { orders self.new ≡ orders self.old }
        ensures numbers { self.new.next ≡ self.old.next + 1 }
    {
        self.next += 1;
    }

    // Puts other orders in the place of the live ones.
    pub fn replace(&mut self, live: &[Order], next: u32)
        requires live { Live live.now next }
        ensures records { orders self.new ≡ live.now }
        ensures numbers { self.new.next ≡ next }
    {
        let n = live.len();
        let mut records = [BLANK; 161];
        records[0..n].copy_from_slice(live);
        self.records = records;
        self.count = n;
        self.next = next;
    }

    // Keeps only the orders that pass.
    pub fn keep(&mut self, filter: Filter)
        ensures records { orders self.new ≡ kept_by (passes filter) (orders self.old) }
        ensures numbers { self.new.next ≡ self.old.next }
    {
        let mut kept = order_room();
        let n = pick(self.live(), filter, &mut kept);
        self.replace(&kept[0..n], self.next);
    }
}
