// One series.
ghost use Rattle.std.specs.Prelude.{◌≡◌, ◌≤◌, true};
ghost use Rattle.order_table.specs.Orders.{orders};
ghost use Rattle.series.specs.Phases.{running};
ghost use Rattle.series.specs.Held.{held_well};

use crate::away::AwayQuotes;
use crate::phase::Phase;
use market::close::Close;
use market::units::Millis;
use order_table::table::Table;

mod auction_calls;
mod auction_checks;
mod auction_conditions;
mod book_calls;
mod book_checks;
mod calls;
mod conditions;
mod entry;
mod finish;
mod opening;
mod opening_checks;
mod orders;
mod play;
pub mod replay;
mod taking;

// What it holds. The table has the orders, which `held` ties to the running auction.
#[derive(Drop)]
pub struct Series<R> {
    rule: R,
    number: u16,
    close: Close,
    phase: Phase,
    // the last accepted time
    time: Millis,
    away: AwayQuotes,
    table: Table,
    ghost day: { time.count ≤ 86400000 },
    ghost held: { held_well (running phase) (orders table) ≡ true },
}
