// The rows that a call writes, one for each movement of contracts.
ghost use Rattle.std.specs.Prelude.{◌≡◌};
ghost use Rattle.market.specs.Words.{trade, departure};

use crate::order::Side;
use crate::units::{Cents, Contracts};
use std::fmt;

#[derive(Clone, Copy, PartialEq, Eq, Debug)]
pub enum RowKind {
    // T: a buyer and a seller trade
    Trade,
    // S: sent to an away market
    Sent,
    // R: returned to the member
    Returned,
    // W: withdrawn
    Withdrawn,
}

// The price of a row that has none, as members read it.
pub const NO_PRICE: Cents = Cents { value: 0 };

// A trade names the buyer's order first and the seller's second. Any other row names its order first, and 0 second.
#[derive(Clone, Copy, PartialEq, Eq, Debug)]
pub struct Row {
    pub kind: RowKind,
    pub first: u16,
    pub second: u16,
    pub price: Cents,
    pub contracts: Contracts,
}

impl Row {
    // A trade of a taker on a side. It names the buyer first.
    pub fn trade(side: Side, taker: u16, maker: u16, price: Cents, contracts: Contracts) -> Row
        ensures { result ≡ trade side taker maker price.value contracts.count }
    {
        let (first, second) = match side {
            Side::Buy => (taker, maker),
            Side::Sell => (maker, taker),
        };
        Row {
            kind: RowKind::Trade,
            first,
            second,
            price,
            contracts,
        }
    }

    // Contracts of an order that leave without a trade.
    pub fn departure(kind: RowKind, number: u16, price: Cents, contracts: Contracts) -> Row
        ensures { result ≡ departure kind number price.value contracts.count }
    {
        Row {
            kind,
            first: number,
            second: 0,
            price,
            contracts,
        }
    }
}

// The letter by which a row shows its kind.
impl fmt::Display for RowKind {
    ghost use Rattle.std.specs.Prelude.{Some, codes};
    ghost use Rattle.std.specs.Fmt.{styled_text};
    ghost use Rattle.market.specs.declared.row.RowKind.TheVariants.{Trade, Sent, Returned, Withdrawn};

    ghost output = { λ k. Some (elim k [ Trade ↦ codes "T" | Sent ↦ codes "S" | Returned ↦ codes "R" | Withdrawn ↦ codes "W" ]) };

    ghost styled_output = { λ k style. Some (styled_text style (elim k [ Trade ↦ codes "T" | Sent ↦ codes "S" | Returned ↦ codes "R" | Withdrawn ↦ codes "W" ])) };

    fn fmt<W: fmt::Write>(&self, f: &mut fmt::Formatter<W>) -> fmt::Result {
        f.pad(match self {
            RowKind::Trade => "T",
            RowKind::Sent => "S",
            RowKind::Returned => "R",
            RowKind::Withdrawn => "W",
        })
    }
}
