// Prints the opening prices of random books. With a number of rounds it also times the search for them.
#![tactic(auto)]

ghost use Rattle.std.specs.Prelude.{◌<◌};

use discovery::opening_price::top;
use market::close::Close;
use market::order::{Account, Order, OrderKind, Role, Side};
use market::units::{Cents, Contracts};
use order_table::table::Table;
use std::time::Instant;
use std::{env, io};

const SIZES: [u32; 3] = [16, 64, 128];

// A linear congruential generator, the same as in the plain Rust program.
#[derive(Drop)]
struct Random {
    state: u64,
}

impl Random {
    fn below(&mut self, bound: u32) -> u32
        requires { 0 < bound }
        ensures { result < bound }
    {
        self.state = self
            .state
            .wrapping_mul(6_364_136_223_846_793_005)
            .wrapping_add(1_442_695_040_888_963_407);
        let high = (self.state >> 33) as u32;
        high % bound
    }
}

fn random_order(random: &mut Random, number: u16) -> Order {
    let side = if random.below(2) == 0 {
        Side::Buy
    } else {
        Side::Sell
    };
    let price = Cents {
        value: (30 + random.below(30)) * 10,
    };
    let size = Contracts {
        count: 1 + random.below(100),
    };
    Order {
        number,
        member: 1,
        side,
        account: Account::Customer,
        kind: OrderKind::Limit(price),
        size,
        left: size,
        traded: Contracts::NONE,
        gone: Contracts::NONE,
        exposed: None,
        role: Role::Book,
    }
}

// A table of random limit orders.
fn random_table(orders: u32) -> Table {
    let mut random = Random {
        state: 20_090_401 + orders as u64,
    };
    let mut table = Table::new();
    for _ in 0..orders {
        if let Ok(number) = u16::try_from(table.next()) {
            let _ = table.append(random_order(&mut random, number));
        }
    }
    table
}

// The opening price at a close, if there is one.
fn price_at(table: &Table, close: u32) -> Option<u32> {
    let close = Close::new(Cents { value: close }).ok()?;
    let (price, _) = top(table, close)?;
    Some(price)
}

// The opening prices at so many closes in turn, added up.
fn sum_of_prices(table: &Table, rounds: u32) -> u64 {
    (0..rounds)
        .filter_map(|round| price_at(table, 300 + round % 300))
        .fold(0, |sum: u64, price| sum.wrapping_add(u64::from(price)))
}

fn print_table(rt: &HostRuntime, orders: u32, rounds: Option<u32>) -> io::Result<()> {
    let table = random_table(orders);
    let sum = sum_of_prices(&table, 300);
    println!(rt; "{orders} orders: {sum}")?;
    let Some(rounds) = rounds else {
        return Ok(());
    };
    let start = Instant::now(rt)?;
    let timed = sum_of_prices(&table, rounds);
    let nanos = start.elapsed(rt)?.as_nanos();
    println!(rt; "{orders} orders, timed: {timed} {nanos}")
}

// The number of rounds, if one is given that is not 0.
fn rounds_given(rt: &HostRuntime) -> io::Result<Option<u32>> {
    let rounds = env::args(rt)?
        .skip(1)
        .find_map(|word| word.parse::<u32>().ok());
    Ok(rounds.filter(|rounds| *rounds > 0))
}

fn main(rt: HostRuntime) -> anyhow::Result<()> {
    let rounds = rounds_given(&rt)?;
    for orders in SIZES {
        print_table(&rt, orders, rounds)?;
    }
    Ok(())
}
