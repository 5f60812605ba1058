// Prints how the two sharing rules divide a few price levels.
#![tactic(auto)]

use market::units::Contracts;
use sharing::pro_rata::ProRata;
use sharing::rule::SharingRule;
use sharing::time::TimeWithGuarantee;
use std::io;

// A price level to share: what each order claims there, and what is to be shared.
#[derive(Clone, Copy)]
struct Level {
    title: &'static str,
    claims: &'static [Contracts],
    amount: Contracts,
    // the place of the claim that has the guarantee
    mark: Option<usize>,
    guarantee: Contracts,
}

const LEVELS: [Level; 5] = [
    Level {
        title: "Two orders of 20 at one price, 15 contracts to share",
        claims: &[Contracts { count: 20 }, Contracts { count: 20 }],
        amount: Contracts { count: 15 },
        mark: None,
        guarantee: Contracts::NONE,
    },
    Level {
        title: "Orders of 7, 5 and 1, 10 contracts to share",
        claims: &[
            Contracts { count: 7 },
            Contracts { count: 5 },
            Contracts { count: 1 },
        ],
        amount: Contracts { count: 10 },
        mark: None,
        guarantee: Contracts::NONE,
    },
    // The starter of an auction of 20 contracts has two fifths of them guaranteed.
    Level {
        title: "Auction of 20, 15 left at 208: the starter's 20 first, 40 percent guaranteed",
        claims: &[Contracts { count: 20 }, Contracts { count: 10 }],
        amount: Contracts { count: 15 },
        mark: Some(0),
        guarantee: Contracts { count: 8 },
    },
    Level {
        title: "An amount that covers all claims",
        claims: &[
            Contracts { count: 4 },
            Contracts { count: 0 },
            Contracts { count: 9_999 },
        ],
        amount: Contracts { count: 20_000 },
        mark: None,
        guarantee: Contracts::NONE,
    },
    Level {
        title: "A claim over the largest size",
        claims: &[Contracts { count: 10_000 }],
        amount: Contracts { count: 1 },
        mark: None,
        guarantee: Contracts::NONE,
    },
];

fn print_counts(rt: &HostRuntime, counts: &[Contracts]) -> io::Result<()> {
    for count in counts {
        print!(rt; " {count:>6}")?;
    }
    println!(rt; "")
}

// One line: the shares by a rule, or the refusal.
fn print_shares<R: SharingRule>(
    rt: &HostRuntime,
    name: &str,
    rule: &R,
    level: &Level,
) -> io::Result<()> {
    let mut shares = vec![in rt.alloc(); Contracts::NONE; level.claims.len()]?;
    print!(rt; "  {name:<20}")?;
    match rule.share(
        level.claims,
        level.amount,
        level.mark,
        level.guarantee,
        &mut shares,
    ) {
        Ok(()) => print_counts(rt, &shares),
        Err(refusal) => println!(rt; " refused by {}", refusal.number()),
    }
}

fn print_level(rt: &HostRuntime, level: &Level) -> io::Result<()> {
    rt.println(level.title)?;
    print!(rt; "  {:<20}", "claims")?;
    print_counts(rt, level.claims)?;
    print_shares(rt, "time with guarantee", &TimeWithGuarantee, level)?;
    print_shares(rt, "pro rata", &ProRata, level)
}

fn main(rt: HostRuntime) -> io::Result<()> {
    for level in &LEVELS {
        print_level(&rt, level)?;
    }
    Ok(())
}
