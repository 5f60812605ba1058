// One line for each call, answer and row.
use market::order::{OrderKind, Side};
use market::row::{NO_PRICE, Row};
use market::units::Cents;
use series::day::{
    Accepted, AwayCall, DayCall, EnterCall, ImproveCall, JournalEntry, NewNumbers, PlaceCall,
    StartCall,
};
use std::io;

// No `Display`: this is a word of the program's lines, and the type is another crate's.
fn verb(side: Side) -> &'static str {
    match side {
        Side::Buy => "buys",
        Side::Sell => "sells",
    }
}

// A price of an away market, 0 for none.
fn or_zero(price: Option<Cents>) -> Cents {
    price.unwrap_or(NO_PRICE)
}

fn print_place(rt: &HostRuntime, call: PlaceCall) -> io::Result<()> {
    let PlaceCall {
        time,
        member,
        account,
        size,
        ..
    } = call;
    let verb = verb(call.side);
    match call.kind {
        OrderKind::Limit(price) => {
            println!(rt; "{time:>6} place    {member} {verb} {size} at {price} ({account})")
        }
        OrderKind::MarketOnOpening => {
            println!(rt; "{time:>6} place    {member} {verb} {size} at the opening ({account})")
        }
    }
}

fn print_enter(rt: &HostRuntime, call: EnterCall) -> io::Result<()> {
    let EnterCall {
        time,
        member,
        account,
        price,
        size,
        ..
    } = call;
    let verb = verb(call.side);
    println!(rt; "{time:>6} enter    {member} {verb} {size} at {price} ({account})")
}

fn print_away(rt: &HostRuntime, call: AwayCall) -> io::Result<()> {
    let (time, market) = (call.time, call.market);
    let (bid, offer) = (or_zero(call.bid), or_zero(call.offer));
    println!(rt; "{time:>6} away     market {market} bids {bid}, offers {offer}")
}

fn print_start(rt: &HostRuntime, call: StartCall) -> io::Result<()> {
    let StartCall {
        time,
        member,
        price,
        size,
        ..
    } = call;
    let verb = verb(call.side);
    println!(rt; "{time:>6} start    {member}: its customer {verb} {size} at {price}")
}

fn print_improve(rt: &HostRuntime, call: ImproveCall) -> io::Result<()> {
    let ImproveCall {
        time,
        member,
        price,
        size,
        ..
    } = call;
    match call.replaces {
        Some(order) => {
            println!(rt;
                "{time:>6} improve  {member} offers {size} at {price}, in place of {order}"
            )
        }
        None => println!(rt; "{time:>6} improve  {member} offers {size} at {price}"),
    }
}

fn print_call(rt: &HostRuntime, call: DayCall) -> io::Result<()> {
    match call {
        DayCall::Place(call) => print_place(rt, call),
        DayCall::Withdraw(call) => {
            let (time, member, order) = (call.time, call.member, call.order);
            println!(rt; "{time:>6} withdraw {member} order {order}")
        }
        DayCall::Away(call) => print_away(rt, call),
        DayCall::Open(call) => println!(rt; "{:>6} open", call.time),
        DayCall::Enter(call) => print_enter(rt, call),
        DayCall::Clock(call) => println!(rt; "{:>6} clock", call.time),
        DayCall::Start(call) => print_start(rt, call),
        DayCall::Improve(call) => print_improve(rt, call),
        DayCall::Better(call) => {
            let (time, customer, price) = (call.time, call.ticket.customer, call.price);
            println!(rt; "{time:>6} better   auction of {customer}: the starter's price is {price}")
        }
        DayCall::Finish(call) => {
            let (time, customer) = (call.time, call.ticket.customer);
            println!(rt; "{time:>6} finish   auction of {customer}")
        }
    }
}

fn print_numbers(rt: &HostRuntime, numbers: NewNumbers) -> io::Result<()> {
    match numbers {
        NewNumbers::One(order) => println!(rt; "         order {order}"),
        NewNumbers::Two(customer, starter) => {
            println!(rt; "         orders {customer} (customer) and {starter} (starter)")
        }
    }
}

fn print_row(rt: &HostRuntime, row: Row) -> io::Result<()> {
    let Row {
        kind,
        first,
        second,
        price,
        contracts,
    } = row;
    println!(rt; "         {kind} {first:>3} {second:>3} {price:>5} x {contracts}")
}

// What an accepted call answers, with its rows, which stand first in its memory.
fn print_accepted(rt: &HostRuntime, accepted: Accepted, memory: &[Row]) -> io::Result<()> {
    if let Some(numbers) = accepted.numbers {
        print_numbers(rt, numbers)?;
    }
    if let Some((price, quantity)) = accepted.opening {
        println!(rt; "         opens at {price}, {quantity} contracts trade")?;
    }
    for row in memory.iter().take(accepted.rows) {
        print_row(rt, *row)?;
    }
    Ok(())
}

// A call, its answer and its rows.
pub fn print_entry(rt: &HostRuntime, entry: &JournalEntry) -> io::Result<()> {
    print_call(rt, entry.call)?;
    match entry.outcome.answer {
        Ok(accepted) => print_accepted(rt, accepted, &entry.memory),
        Err(refusal) => {
            let number = refusal.number();
            println!(rt; "         refused by {number}")
        }
    }
}
