// Room for the records of one series, in arrays: the project uses no heap here.
use crate::priority::Ranked;
use market::order::{Account, Order, OrderKind, Role, Side};
use market::units::{Cents, Contracts};

// A record that no order uses.
pub const BLANK: Order = Order {
    number: 0,
    member: 0,
    side: Side::Buy,
    account: Account::Customer,
    kind: OrderKind::Limit(Cents { value: 0 }),
    size: Contracts::NONE,
    left: Contracts::NONE,
    traded: Contracts::NONE,
    gone: Contracts::NONE,
    exposed: None,
    role: Role::Book,
};

// Room for orders, and for their contracts. What it holds at first plays no part.
pub fn order_room() -> [Order; 161] {
    [BLANK; 161]
}

pub fn contract_room() -> [Contracts; 161] {
    [Contracts::NONE; 161]
}

pub fn rank_room() -> [Ranked; 161] {
    [Ranked {
        place: 0,
        priority: 0,
    }; 161]
}
