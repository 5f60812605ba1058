// What an order says of itself.
ghost use Rattle.std.specs.Prelude.{◌≡◌};
ghost use Rattle.market.specs.Words.{other, same_side, market_maker, in_book, auctioned, competing, price_of};

use crate::row::NO_PRICE;
use crate::units::{Cents, Contracts, Millis};
use std::fmt;

#[derive(Clone, Copy, PartialEq, Eq, Debug)]
pub enum Side {
    Buy,
    Sell,
}

// For whom an order is entered. A linkage order comes from another exchange.
#[derive(Clone, Copy, PartialEq, Eq, Debug)]
pub enum Account {
    Customer,
    Linkage,
    MarketMaker,
}

// A limit with its price, or an order that trades at whatever price the series opens at. It is an enum of its own and no
// Option, as a rule of this project: the case without a price has a name.
#[derive(Clone, Copy, PartialEq, Eq, Debug)]
pub enum OrderKind {
    Limit(Cents),
    MarketOnOpening,
}

// Where an order stands: in the book, or in an auction as the customer's, the starter's or a competing order.
#[derive(Clone, Copy, PartialEq, Eq, Debug)]
pub enum Role {
    Book,
    Auctioned,
    Starter,
    Competing,
}

// The record of an order. What is left, what has traded and what is gone add up to its size.
#[derive(Clone, Copy, PartialEq, Eq, Debug)]
pub struct Order {
    pub number: u16,
    pub member: u16,
    pub side: Side,
    pub account: Account,
    pub kind: OrderKind,
    pub size: Contracts,
    pub left: Contracts,
    pub traded: Contracts,
    pub gone: Contracts,
    // when its exposure ends, if it is exposed
    pub exposed: Option<Millis>,
    pub role: Role,
}

impl Side {
    // The side that trades against this one.
    pub fn other(self) -> Side
        ensures { result ≡ other self }
    {
        match self {
            Side::Buy => Side::Sell,
            Side::Sell => Side::Buy,
        }
    }

    // Whether both are the same side.
    pub fn is(self, side: Side) -> bool
        ensures { result ≡ same_side self side }
    {
        self == side
    }
}

impl OrderKind {
    // The price of a limit, and 0 without one, as rows write it.
    pub fn price(self) -> Cents
        ensures { result.value ≡ price_of self }
    {
        match self {
            OrderKind::Limit(price) => price,
            OrderKind::MarketOnOpening => NO_PRICE,
        }
    }
}

impl Account {
    pub fn is_market_maker(self) -> bool
        ensures { result ≡ market_maker self }
    {
        self == Account::MarketMaker
    }
}

impl Role {
    pub fn is_in_book(self) -> bool
        ensures { result ≡ in_book self }
    {
        self == Role::Book
    }

    pub fn is_auctioned(self) -> bool
        ensures { result ≡ auctioned self }
    {
        self == Role::Auctioned
    }

    pub fn is_competing(self) -> bool
        ensures { result ≡ competing self }
    {
        self == Role::Competing
    }
}

// The letter by which rows and journals name an account.
impl fmt::Display for Account {
    ghost use Rattle.std.specs.Prelude.{Some, codes};
    ghost use Rattle.std.specs.Fmt.{styled_text};
    ghost use Rattle.market.specs.declared.order.Account.TheVariants.{Customer, Linkage, MarketMaker};

    ghost output = { λ a. Some (elim a [ Customer ↦ codes "C" | Linkage ↦ codes "L" | MarketMaker ↦ codes "M" ]) };

    ghost styled_output = { λ a style. Some (styled_text style (elim a [ Customer ↦ codes "C" | Linkage ↦ codes "L" | MarketMaker ↦ codes "M" ])) };

    fn fmt<W: fmt::Write>(&self, f: &mut fmt::Formatter<W>) -> fmt::Result {
        f.pad(match self {
            Account::Customer => "C",
            Account::Linkage => "L",
            Account::MarketMaker => "M",
        })
    }
}
