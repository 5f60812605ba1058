// A day as data: calls with all that they are given, and the journal of their events.
use market::order::{Account, OrderKind, Side};
use market::refusal::Refusal;
use market::row::{NO_PRICE, Row, RowKind};
use market::units::{Cents, Contracts, Millis};

// A ticket as it is shown: its series, its customer's order number, whether it is discharged.
#[derive(Clone, Copy, PartialEq, Eq, Debug)]
pub struct ShownTicket {
    pub series: u16,
    pub customer: u16,
    pub discharged: bool,
}

// The most rows that a call is lent.
pub const MOST_LENT: usize = 192;

// Lent memory before a call writes to it.
pub const UNUSED_ROW: Row = Row {
    kind: RowKind::Withdrawn,
    first: 0,
    second: 0,
    price: NO_PRICE,
    contracts: Contracts::NONE,
};

// An order before the opening.
#[derive(Clone, Copy)]
pub struct PlaceCall {
    pub pass: u16,
    pub time: Millis,
    pub member: u16,
    pub side: Side,
    pub account: Account,
    pub kind: OrderKind,
    pub size: Contracts,
}

// A withdrawal of an order of the book.
#[derive(Clone, Copy)]
pub struct WithdrawCall {
    pub time: Millis,
    pub member: u16,
    pub order: u16,
    pub lent: usize,
}

// The prices of an away market.
#[derive(Clone, Copy)]
pub struct AwayCall {
    pub time: Millis,
    pub market: u8,
    pub bid: Option<Cents>,
    pub offer: Option<Cents>,
}

// The opening. That a far price is waived is yes or no, as the member says it.
#[derive(Clone, Copy)]
pub struct OpenCall {
    pub pass: u16,
    pub time: Millis,
    pub waived: bool,
    pub lent: usize,
}

// An order while the series trades.
#[derive(Clone, Copy)]
pub struct EnterCall {
    pub pass: u16,
    pub time: Millis,
    pub member: u16,
    pub side: Side,
    pub account: Account,
    pub price: Cents,
    pub size: Contracts,
    pub lent: usize,
}

// The time, at which exposures end.
#[derive(Clone, Copy)]
pub struct ClockCall {
    pub time: Millis,
    pub lent: usize,
}

// The start of an auction.
#[derive(Clone, Copy)]
pub struct StartCall {
    pub pass: u16,
    pub time: Millis,
    pub member: u16,
    pub side: Side,
    pub price: Cents,
    pub size: Contracts,
}

// A competing order in an auction, new or in the place of another.
#[derive(Clone, Copy)]
pub struct ImproveCall {
    pub pass: u16,
    pub time: Millis,
    pub member: u16,
    pub price: Cents,
    pub size: Contracts,
    pub replaces: Option<u16>,
    pub lent: usize,
}

// A better price of the auction's starter.
#[derive(Clone, Copy)]
pub struct BetterCall {
    pub pass: u16,
    pub ticket: ShownTicket,
    pub time: Millis,
    pub price: Cents,
    pub lent: usize,
}

// The end of an auction.
#[derive(Clone, Copy)]
pub struct FinishCall {
    pub ticket: ShownTicket,
    pub time: Millis,
    pub lent: usize,
}

// A call with all that it is given. A pass is the series number that it bears. A call that may write rows is lent so many
// unused ones, at most 192.
#[derive(Clone, Copy)]
pub enum DayCall {
    Place(PlaceCall),
    Withdraw(WithdrawCall),
    Away(AwayCall),
    Open(OpenCall),
    Enter(EnterCall),
    Clock(ClockCall),
    Start(StartCall),
    Improve(ImproveCall),
    Better(BetterCall),
    Finish(FinishCall),
}

// The order numbers that a call uses: an order's, or those of an auction's customer and starter.
#[derive(Clone, Copy, PartialEq, Eq, Debug)]
pub enum NewNumbers {
    One(u16),
    Two(u16, u16),
}

// What an accepted call answers: how many rows it wrote, its new order numbers and, from open, the opening price with
// its quantity.
#[derive(Clone, Copy, PartialEq, Eq, Debug)]
pub struct Accepted {
    pub rows: usize,
    pub numbers: Option<NewNumbers>,
    pub opening: Option<(u32, u32)>,
}

// A pass, by its series, or a ticket that a call hands back.
#[derive(Clone, Copy, PartialEq, Eq, Debug)]
pub enum HandedBack {
    PreOpeningPass(u16),
    TradingPass(u16),
    Ticket(ShownTicket),
}

// What becomes of a call besides its rows.
#[derive(Clone, Copy, PartialEq, Eq, Debug)]
pub struct Outcome {
    pub answer: Result<Accepted, Refusal>,
    pub handed: Option<HandedBack>,
}

// A call, what became of it, and its memory when it returned: as many rows as it was lent. The memory is an array, as that
// of a caller without a heap.
#[derive(Clone, Copy)]
pub struct JournalEntry {
    pub call: DayCall,
    pub outcome: Outcome,
    pub memory: [Row; 192],
}
