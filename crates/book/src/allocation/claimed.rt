// The ranked orders that claim what is taken.
ghost use Rattle.std.specs.Prelude.{◌≡◌, ◌≤◌, All, map, length};
ghost use Rattle.market.specs.Words.{standing};
ghost use Rattle.sharing.specs.Asked.{counts};
ghost use Rattle.book.specs.Places.{orders_at, TrueRank};

use crate::allocation::Taking;
use crate::priority::Ranked;
use market::order::Order;
use market::units::Contracts;

// Ranked orders with what each of them claims, and what is taken from them.
#[derive(Clone, Copy)]
pub struct Claimed<'a> {
    pub orders: &'a [Order],
    pub ranked: &'a [Ranked],
    pub claims: &'a [Contracts],
    pub taking: Taking,
    ghost ranks: { All (TrueRank orders.now) ranked.now },
    ghost claimed: { counts claims.now ≡ map standing (orders_at orders.now ranked.now) },
    ghost few: { length ranked.now ≤ 160 },
    ghost small: { All (λ c. c.count ≤ 9999) claims.now },
    ghost amount: { taking.amount.count ≤ 1599840 },
    ghost guarantee: { taking.guarantee.count ≤ 9999 },
}
