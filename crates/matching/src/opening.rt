// The opening match.
ghost use Rattle.std.specs.Prelude.{◌≡◌, ◌<◌, ◌≤◌, ◌++◌, map, length, drop};
ghost use Rattle.std.proofs.Props.{props};
ghost use Rattle.std.specs.List.{AllByRecursion};
ghost use Rattle.market.specs.Refusals.{refused_by, first_hit};
ghost use Rattle.rules.specs.Opening.{filled, opening_fill, opening_rows};
ghost use Rattle.rules.specs.Volume.{matched_volume, of_order};
ghost use Rattle.sharing.specs.Asked.{counts};
ghost use Rattle.book.specs.Pairing.{filled_pair};
ghost use Rattle.book.specs.Places.{orders_at};
ghost use Rattle.book.specs.Records.{Live};
ghost use Rattle.book.specs.Settling.{filled_places};
ghost use Rattle.order_table.specs.Orders.{orders};
ghost use Rattle.matching.specs.Matching.{numbered_fills, wills, both_filled, opening_checks, Opens};

use book::allocation::{Taking, allocate};
use book::pairing::{Filled, pair};
use book::priority::Ranked;
use book::room::{contract_room, rank_room};
use book::select::Filter;
use book::settle::scatter;
use market::checks::HIGHEST_PRICE;
use market::order::{Order, Side};
use market::refusal::{Refusal, refuse_if};
use market::row::Row;
use market::units::{Cents, Contracts};
use order_table::table::Table;
use sharing::rule::{MOST_CLAIMS, SharingRule};

// The orders of an opening, its price, and the contracts that trade there.
#[derive(Clone, Copy)]
struct Opening<'a> {
    orders: &'a [Order],
    price: Cents,
    quantity: Contracts,
    ghost live: { Live orders.now 65536 } by { Prim.hlevel props },
    ghost few: { length orders.now ≤ 160 },
    ghost opens: { quantity.count ≡ matched_volume of_order orders.now price.value },
}

// Room for as many fills as a table holds orders, in an array: no heap. What it has at first plays no part.
fn filled_room() -> [Filled; 161] {
    [Filled {
        number: 0,
        contracts: Contracts::NONE,
    }; 161]
}

// Lists the ranked orders by number with what each trades.
fn list_fills(orders: &[Order], ranked: &[Ranked], shares: &[Contracts], filled: &mut [Filled])
    requires places { AllByRecursion (λ r. r.place < length orders.now) ranked.now }
    requires even { length ranked.now ≡ length shares.now }
    requires room { length ranked.now ≡ length filled.old }
    ensures { map filled_pair filled.new ≡ numbered_fills (orders_at orders.now ranked.now) (counts shares.now) }
{
    // By index: what is written through a zipped `iter_mut` is not known afterwards.
    for (i, (r, share)) in ranked.iter().zip(shares).enumerate() {
        filled[i] = Filled {
            number: orders[r.place].number,
            contracts: *share,
        };
    }
}

impl Opening<'_> {
    // Fills one side: lists the orders willing at the price with what each trades, and writes that to their places.
    fn fill_side<R: SharingRule>(
        &self,
        rule: &R,
        side: Side,
        traders: &mut [Filled],
        fills: &mut [Contracts],
    ) -> usize
        requires traders_fit { length self.now.orders.now ≡ length traders.old }
        requires fills_fit { length self.now.orders.now ≡ length fills.old }
        ensures within { result ≤ length self.now.orders.now }
        ensures listed { map filled_pair (drop result traders.new) ≡ filled (R.shared rule.now) self.now.orders.now self.now.price.value side }
        ensures placed { counts fills.new ≡ filled_places (wills side self.now.price.value) (opening_fill (R.shared rule.now) self.now.orders.now self.now.price.value side) self.now.orders.now (counts fills.old) }
    {
        let n = self.orders.len();
        let taking = Taking {
            amount: self.quantity,
            marked: None,
            guarantee: Contracts::NONE,
        };
        let filter = Filter::Willing(side, self.price);
        let mut ranks = rank_room();
        let mut shares = contract_room();
        let (ranks, shares) = (&mut ranks[0..n], &mut shares[0..n]);
        let start = allocate(rule, self.orders, filter, taking, ranks, shares);
        let (ranked, shares) = (&ranks[start..n], &shares[start..n]);
        list_fills(self.orders, ranked, shares, &mut traders[start..n]);
        scatter(ranked, shares, fills);
        start
    }

    // Writes the rows of an opening, and what each order trades to its place.
    fn write<R: SharingRule>(&self, rule: &R, fills: &mut [Contracts], rows: &mut [Row]) -> usize
        requires fills_fit { length self.now.orders.now ≡ length fills.old }
        requires rows_fit { length self.now.orders.now ≤ length rows.old }
        ensures counted { result ≡ length (opening_rows (R.shared rule.now) self.now.orders.now self.now.price.value) }
        ensures written { rows.new ≡ opening_rows (R.shared rule.now) self.now.orders.now self.now.price.value ++ drop result rows.old }
        ensures filled { counts fills.new ≡ both_filled (R.shared rule.now) self.now.orders.now self.now.price.value (counts fills.old) }
    {
        let n = self.orders.len();
        let mut buyers = filled_room();
        let mut sellers = filled_room();
        let (buyers, sellers) = (&mut buyers[0..n], &mut sellers[0..n]);
        let buyer = self.fill_side(rule, Side::Buy, buyers, fills);
        let seller = self.fill_side(rule, Side::Sell, sellers, fills);
        pair(&buyers[buyer..n], &sellers[seller..n], self.price, rows)
    }
}

// Refuses more orders than a rule can be asked about or than there are rows, and a price that is none.
fn check_opening(orders: usize, price: Cents, rows: usize) -> Result<(), Refusal>
    ensures { refused_by result ≡ first_hit (opening_checks orders price.value rows) }
{
    let fits = orders <= MOST_CLAIMS && orders <= rows && price.value <= HIGHEST_PRICE;
    refuse_if(!fits, Refusal::OutOfBounds)
}

// The contracts that trade at a price.
fn matched_volume(table: &Table, price: Cents) -> Contracts
    ensures { result.count ≡ matched_volume of_order (orders table.now) price.value }
{
    let demand = table.volume(Filter::Willing(Side::Buy, price));
    let supply = table.volume(Filter::Willing(Side::Sell, price));
    demand.min(supply)
}

// Opens at a price: T rows pair the buyers and sellers by priority, and what is left of the orders stands at a limit.
pub fn open_at<R: SharingRule>(
    rule: &R,
    table: &mut Table,
    price: Cents,
    rows: &mut [Row],
) -> Result<usize, Refusal>
    ensures { Opens (R.shared rule.now) price.value table.old table.new rows.old rows.new result }
{
    let orders = table.live();
    let n = orders.len();
    check_opening(n, price, rows.len())?;
    let opening = Opening {
        orders,
        price,
        quantity: matched_volume(table, price),
    };
    let mut room = contract_room();
    let fills = &mut room[0..n];
    let count = opening.write(rule, fills, rows);
    table.settle(Filter::Crossed(price), fills);
    table.limit(price);
    Ok(count)
}
