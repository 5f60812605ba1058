// The theoretical opening price. What is asked of the orders is asked of a plain list: see the crate's head.
ghost use Rattle.std.specs.Prelude.{◌≡◌, ◌≤◌, length};
ghost use Rattle.std.specs.List.{AllByRecursion};
ghost use Rattle.market.specs.Words.{standing, price_of};
ghost use Rattle.rules.specs.Volume.{of_order};
ghost use Rattle.rules.specs.Volume as model;
ghost use Rattle.rules.specs.Opening as openings;

mod price;
mod search;

use crate::ladder::Ladder;
use crate::select::{Filter, volume};
use market::order::{Order, Side};
use market::units::{Cents, Contracts};
use price::Price;
use search::Opening;

// What buyers would take at a price: all Market-on-Opening buys and the buys limited there or higher.
pub fn demand(orders: &[Order], price: Cents) -> Contracts
    requires few { length orders.now ≤ 161 }
    requires small { AllByRecursion (λ o. standing o ≤ 9999) orders.now }
    ensures { result.count ≡ model.demand of_order orders.now price.value }
{
    volume(orders, Filter::Willing(Side::Buy, price))
}

// What sellers would give at a price: all Market-on-Opening sells and the sells limited there or lower.
pub fn supply(orders: &[Order], price: Cents) -> Contracts
    requires few { length orders.now ≤ 161 }
    requires small { AllByRecursion (λ o. standing o ≤ 9999) orders.now }
    ensures { result.count ≡ model.supply of_order orders.now price.value }
{
    volume(orders, Filter::Willing(Side::Sell, price))
}

// The opening price with its quantity, none where no price trades.
pub fn top(orders: &[Order], close: Cents) -> Option<(u32, u32)>
    requires few { length orders.now ≤ 161 }
    requires small { AllByRecursion (λ o. standing o ≤ 9999) orders.now }
    requires prices { AllByRecursion (λ o. price_of o.kind ≤ 99999) orders.now }
    requires close { close.value ≤ 99999 }
    ensures { result ≡ openings.top orders.now close.value }
{
    let opening = Opening {
        buys: Ladder::build(Side::Buy, orders),
        sells: Ladder::build(Side::Sell, orders),
        close: Price { value: close.value },
    };
    let best = opening.find_best();
    if best.volume > 0 {
        Some((best.price, best.volume))
    } else {
        None
    }
}
