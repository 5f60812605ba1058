// The table that holds the order records.
ghost use Rattle.std.specs.Prelude.{◌≡◌, ◌≤◌, true, length, take, drop, count_by};
ghost use Rattle.std.specs.List.{list_all};
ghost use Rattle.book.specs.Records.{balanced, free_record, booked, auction_contra, customers, rises};

use market::order::Order;

mod changes;

// The first `count` records are live, in rising order of their numbers, all below `next`; the others are free. They stand in
// an array and no Vec: the project uses no heap here.
#[derive(Clone, Copy)]
pub struct Table {
    records: [Order; 161],
    count: usize,
    next: u32,
    ghost long: { length records ≡ 161 },
    ghost few: { count ≤ 161 },
    ghost sound: { list_all balanced records ≡ true },
    ghost free: { list_all free_record (drop count records) ≡ true },
    ghost rising: { rises 0 (take count records) next ≡ true },
    ghost books: { count_by booked (take count records) ≤ 128 },
    ghost rivals: { count_by auction_contra (take count records) ≤ 32 },
    ghost customer: { count_by customers (take count records) ≤ 1 },
    ghost numbers: { next ≤ 65536 },
}
