// What an opening leaves of the kinds of orders.
ghost use Rattle.std.specs.Prelude.{◌≡◌, map};
ghost use Rattle.rules.specs.Opening.{limited_at};

use market::order::{Order, OrderKind};
use market::units::Cents;

// What is left of a Market-on-Opening order stands at the opening price.
fn with_limit(order: Order, price: Cents) -> Order
    ensures { result ≡ limited_at price.value order }
{
    match order.kind {
        OrderKind::Limit(_) => order,
        OrderKind::MarketOnOpening => Order {
            kind: OrderKind::Limit(price),
            ..order
        },
    }
}

// The same of each order.
pub(crate) fn limit_orders(orders: &mut [Order], price: Cents)
    ensures { orders.new ≡ map (limited_at price.value) orders.old }
{
    for order in orders.iter_mut() {
        *order = with_limit(*order, price);
    }
}
