// The remainder of an entering order.
use market::order::Order;
use market::row::Row;

// What becomes of what is left: it stands as an order, or it is returned by a row.
#[derive(Clone, Copy)]
pub enum Remainder {
    Stands(Order),
    Returned(Row),
}
