// The theoretical opening price of a table.
ghost use Rattle.std.specs.Prelude.{◌≡◌};
ghost use Rattle.order_table.specs.Orders.{orders};
ghost use Rattle.rules.specs.Volume.{of_order};
ghost use Rattle.rules.specs.Volume as model;
ghost use Rattle.rules.specs.Opening as openings;

use book::opening_price;
use market::close::Close;
use market::units::{Cents, Contracts};
use order_table::table::Table;

// What buyers would take at a price: all Market-on-Opening buys and the buys limited there or higher.
pub fn demand(table: &Table, price: Cents) -> Contracts
    ensures { result.count ≡ model.demand of_order (orders table.now) price.value }
{
    opening_price::demand(table.live(), price)
}

// What sellers would give at a price: all Market-on-Opening sells and the sells limited there or lower.
pub fn supply(table: &Table, price: Cents) -> Contracts
    ensures { result.count ≡ model.supply of_order (orders table.now) price.value }
{
    opening_price::supply(table.live(), price)
}

// The opening price with its quantity, none where no price trades.
pub fn top(table: &Table, close: Close) -> Option<(u32, u32)>
    ensures { result ≡ openings.top (orders table.now) close.price.value }
{
    let (price, quantity) = opening_price::top(table.live(), close.price())?;
    Some((price, quantity))
}
