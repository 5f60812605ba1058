// The calls of a day, in short.
use market::order::{Account, OrderKind, Side};
use market::units::{Cents, Contracts, Millis};
use series::day::{
    AwayCall, BetterCall, ClockCall, DayCall, EnterCall, FinishCall, ImproveCall, MOST_LENT,
    OpenCall, PlaceCall, ShownTicket, StartCall, WithdrawCall,
};

// The number of the series.
pub const SERIES: u16 = 1;

pub const CLOSE: Cents = Cents { value: 200 };

// A member's order: side, account and size.
#[derive(Clone, Copy)]
pub struct Ordered {
    pub member: u16,
    pub side: Side,
    pub account: Account,
    pub size: u32,
}

// Two names for one record, so that a call reads as what a member does.
pub fn buys(member: u16, account: Account, size: u32) -> Ordered {
    Ordered {
        member,
        side: Side::Buy,
        account,
        size,
    }
}

pub fn sells(member: u16, account: Account, size: u32) -> Ordered {
    Ordered {
        member,
        side: Side::Sell,
        account,
        size,
    }
}

pub fn at(count: u32) -> Millis {
    Millis { count }
}

pub fn cents(value: u32) -> Cents {
    Cents { value }
}

pub fn contracts(count: u32) -> Contracts {
    Contracts { count }
}

pub fn limit(price: u32) -> OrderKind {
    OrderKind::Limit(cents(price))
}

pub fn place(time: u32, order: Ordered, kind: OrderKind) -> DayCall {
    DayCall::Place(PlaceCall {
        pass: SERIES,
        time: at(time),
        member: order.member,
        side: order.side,
        account: order.account,
        kind,
        size: contracts(order.size),
    })
}

pub fn withdraw(time: u32, member: u16, order: u16) -> DayCall {
    DayCall::Withdraw(WithdrawCall {
        time: at(time),
        member,
        order,
        lent: MOST_LENT,
    })
}

pub fn away(time: u32, market: u8, bid: Option<Cents>, offer: Option<Cents>) -> DayCall {
    DayCall::Away(AwayCall {
        time: at(time),
        market,
        bid,
        offer,
    })
}

pub fn open(time: u32) -> DayCall {
    DayCall::Open(OpenCall {
        pass: SERIES,
        time: at(time),
        waived: false,
        lent: MOST_LENT,
    })
}

pub fn enter(time: u32, order: Ordered, price: u32) -> DayCall {
    DayCall::Enter(EnterCall {
        pass: SERIES,
        time: at(time),
        member: order.member,
        side: order.side,
        account: order.account,
        price: cents(price),
        size: contracts(order.size),
        lent: MOST_LENT,
    })
}

pub fn clock(time: u32) -> DayCall {
    DayCall::Clock(ClockCall {
        time: at(time),
        lent: MOST_LENT,
    })
}

pub fn start(time: u32, member: u16, side: Side, price: u32, size: u32) -> DayCall {
    DayCall::Start(StartCall {
        pass: SERIES,
        time: at(time),
        member,
        side,
        price: cents(price),
        size: contracts(size),
    })
}

pub fn improve(time: u32, member: u16, price: u32, size: u32, replaces: Option<u16>) -> DayCall {
    DayCall::Improve(ImproveCall {
        pass: SERIES,
        time: at(time),
        member,
        price: cents(price),
        size: contracts(size),
        replaces,
        lent: MOST_LENT,
    })
}

// The ticket of a customer's order.
pub fn ticket(customer: u16, discharged: bool) -> ShownTicket {
    ShownTicket {
        series: SERIES,
        customer,
        discharged,
    }
}

pub fn better(time: u32, customer: u16, price: u32) -> DayCall {
    DayCall::Better(BetterCall {
        pass: SERIES,
        ticket: ticket(customer, false),
        time: at(time),
        price: cents(price),
        lent: MOST_LENT,
    })
}

pub fn finish(time: u32, shown: ShownTicket) -> DayCall {
    DayCall::Finish(FinishCall {
        ticket: shown,
        time: at(time),
        lent: MOST_LENT,
    })
}
