// The table that holds the order records.
ghost use Rattle.std.specs.Prelude.{◌≡◌, true};
ghost use Rattle.std.specs.List.{list_all};
ghost use Rattle.order_table.specs.Records.{priced};

use book::table::Table as Records;

mod changes;
mod questions;

// The records of the book, each of which is priced, live or not.
#[derive(Clone, Copy)]
pub struct Table {
    records: Records,
    ghost prices: { list_all priced records.records ≡ true },
}
