// What can be done with a table.
ghost use Rattle.std.specs.Prelude.{◌≡◌, [], filter as kept_by};
ghost use Rattle.sharing.specs.Asked.{counts};
ghost use Rattle.book.specs.Filters.{passes};
ghost use Rattle.book.specs.Settling.{settled_up_to};
ghost use Rattle.order_table.specs.Orders.{orders, next_number};
ghost use Rattle.order_table.specs.Records.{sound_record};
ghost use Rattle.order_table.specs.Changes.{Appended, Skipped, role_room, limited};

use crate::limits::limit_orders;
use crate::table::{Records, Table};
use book::room::order_room;
use book::select::{Filter, count};
use book::settle::settle;
use market::checks::{HIGHEST_PRICE, LARGEST_SIZE};
use market::order::{Order, Role};
use market::units::{Cents, Contracts};

// The most orders in the book, and the most in an auction besides the customer's.
pub const MOST_IN_BOOK: usize = 128;

pub const MOST_AUCTION_CONTRA: usize = 32;

const LAST_NUMBER: u32 = 65_535;

// Whether a record's sums and price are in order.
fn is_sound(order: &Order) -> bool
    ensures { result ≡ sound_record order.now }
{
    let sum = order.left.count as u64 + order.traded.count as u64 + order.gone.count as u64;
    sum == order.size.count as u64
        && order.size.count <= LARGEST_SIZE
        && order.kind.price().value <= HIGHEST_PRICE
}

impl Table {
    pub fn new() -> Table
        ensures empty { orders result ≡ [] }
        ensures first { next_number result ≡ 1 }
    {
        Table {
            records: Records::new(),
        }
    }

    // Whether there is room for one more order of a role.
    fn has_room(&self, role: Role) -> bool
        ensures { result ≡ role_room role (orders self.now) }
    {
        match role {
            Role::Book => count(self.live(), Filter::InBook) < MOST_IN_BOOK,
            Role::Auctioned => count(self.live(), Filter::Auctioned) < 1,
            Role::Starter | Role::Competing => count(self.live(), Filter::AuctionContra)
                < MOST_AUCTION_CONTRA,
        }
    }

    // Adds an order under the next number, if the order is sound and there is room for it. Answers whether it is added: the
    // contract says which of the two it is, and a Result would say no more.
    pub fn append(&mut self, order: Order) -> bool
        ensures { Appended order self.old self.new result }
    {
        if order.number as u32 != self.next() {
            return false;
        }
        if !is_sound(&order) {
            return false;
        }
        if !self.has_room(order.role) {
            return false;
        }
        self.records.append(order);
        true
    }

    // Uses up the next number without an order. Answers whether one was left.
    pub fn skip_number(&mut self) -> bool
        ensures { Skipped self.old self.new result }
    {
        if self.next() > LAST_NUMBER {
            return false;
        }
        self.records.skip_number();
        true
    }

    // Keeps only the orders that pass.
    pub fn keep(&mut self, filter: Filter)
        ensures records { orders self.new ≡ kept_by (passes filter) (orders self.old) }
        ensures numbers { next_number self.new ≡ next_number self.old }
    {
        self.records.keep(filter);
    }

    // The orders that pass trade their fills, in the order of the live records, and a record with nothing left is freed.
    pub fn settle(&mut self, filter: Filter, fills: &[Contracts])
        ensures records { orders self.new ≡ settled_up_to (passes filter) (orders self.old) (counts fills.now) }
        ensures numbers { next_number self.new ≡ next_number self.old }
    {
        let mut kept = order_room();
        let n = settle(self.live(), filter, fills, &mut kept);
        let next = self.next();
        self.records.replace(&kept[0..n], next);
    }

    // What is left of Market-on-Opening orders stands at a limit.
    pub fn limit(&mut self, price: Cents)
        ensures records { orders self.new ≡ limited price.value (orders self.old) }
        ensures numbers { next_number self.new ≡ next_number self.old }
    {
        if price.value > HIGHEST_PRICE {
            return;
        }
        let mut room = order_room();
        let kept = &mut room[0..self.live().len()];
        kept.copy_from_slice(self.live());
        limit_orders(kept, price);
        let next = self.next();
        self.records.replace(kept, next);
    }
}
