// What each of the ranked orders trades when an amount is taken from them.
ghost use Rattle.std.specs.Prelude.{◌≡◌, ◌==◌, All, ℕ, ◌<◌, ◌≤◌, map, length, drop, filter as kept_by};
ghost use Rattle.std.specs.List.{AllByRecursion, prefix_len};
ghost use Rattle.market.specs.Words.{standing};
ghost use Rattle.rules.specs.Allocation.{by_priority, fill, level, mark_among, place_of};
ghost use Rattle.rules.specs.Law.{Rising};
ghost use Rattle.sharing.specs.Asked.{counts};
ghost use Rattle.book.specs.Places.{orders_at, Sorted};
ghost use Rattle.book.specs.Claims.{claimants, fill_of};
ghost use Rattle.book.specs.Filters.{passes};
ghost use Rattle.book.specs.Ranking.{by_rank, ranked_from, priority_at_place};

mod claimed;

use crate::priority::{Ranked, rank};
use crate::room::contract_room;
use crate::select::Filter;
use claimed::Claimed;
use market::order::Order;
use market::units::Contracts;
use sharing::rule::SharingRule;
use sharing::sums::sum_of;

// How much is taken, and which order has which guarantee.
#[derive(Clone, Copy)]
pub struct Taking {
    pub amount: Contracts,
    pub marked: Option<u16>,
    pub guarantee: Contracts,
}

// Writes what stands of each order.
fn claim(orders: &[Order], ranked: &[Ranked], claims: &mut [Contracts])
    requires places { All (λ r. r.place < length orders.now) ranked.now }
    requires even { length ranked.now ≡ length claims.old }
    ensures { counts claims.new ≡ map standing (orders_at orders.now ranked.now) }
{
    // By index: what is written through a zipped `iter_mut` is not known afterwards.
    for (i, r) in ranked.iter().enumerate() {
        claims[i] = orders[r.place].left;
    }
}

// The place of an order number among ranked orders.
fn place_of(orders: &[Order], ranked: &[Ranked], number: u16) -> Option<usize>
    requires { All (λ r. r.place < length orders.now) ranked.now }
    ensures { result ≡ place_of number (orders_at orders.now ranked.now) }
{
    ranked.iter().position(|r| orders[r.place].number == number)
}

impl Claimed<'_> {
    // The place of the marked order.
    fn mark(&self) -> Option<usize>
        ensures { result ≡ mark_among self.now.taking.marked (claimants self.now) }
    {
        place_of(self.orders, self.ranked, self.taking.marked?)
    }

    // Asks the rule to share among these orders.
    fn share<R: SharingRule>(&self, rule: &R, shares: &mut [Contracts])
        requires { length shares.old ≡ length self.now.ranked.now }
        ensures { counts shares.new ≡ R.shared rule.now (counts self.now.claims.now) self.now.taking.amount.count (mark_among self.now.taking.marked (claimants self.now)) self.now.taking.guarantee.count }
    {
        let taking = self.taking;
        let mark = self.mark();
        rule.share(self.claims, taking.amount, mark, taking.guarantee, shares)
            .unwrap();
    }
}

// How many ranked orders share the priority of the first.
fn level_len(ranked: &[Ranked]) -> usize
    requires { 0 < length ranked.now }
    ensures is { result ≡ prefix_len (λ r. r.priority == priority_at_place ranked.now 0) ranked.now }
    ensures some { 0 < result }
    ensures within { result ≤ length ranked.now }
{
    let first = ranked[0].priority;
    ranked.iter().take_while(|r| r.priority == first).count()
}

// Asks the rule for each level in turn: a level shares what the better ones leave.
fn share_levels<R: SharingRule>(rule: &R, all: &Claimed<'_>, shares: &mut [Contracts])
    requires sorted { Sorted (claimants all.now) }
    requires rising { (r : ℕ) → Rising (λ o. o.number) 0 (level r (claimants all.now)) }
    requires even { length shares.old ≡ length all.now.ranked.now }
    ensures { counts shares.new ≡ map (fill_of (R.shared rule.now) all.now) (claimants all.now) }
{
    let mut start = 0;
    let mut ahead = 0;
    // No `for` over `chunk_by`: it gets no proof yet in a function with a type parameter.
    while start < all.ranked.len() {
        let end = start + level_len(&all.ranked[start..]);
        let claims = &all.claims[start..end];
        let taking = Taking {
            amount: Contracts {
                count: all.taking.amount.count.saturating_sub(ahead),
            },
            ..all.taking
        };
        let level = Claimed {
            orders: all.orders,
            ranked: &all.ranked[start..end],
            claims,
            taking,
        };
        level.share(rule, &mut shares[start..end]);
        ahead += sum_of(claims).count;
        start = end;
    }
}

// Ranks the orders that pass, and writes what each of them trades, in that order, from the answered place on.
pub fn allocate<R: SharingRule>(
    rule: &R,
    orders: &[Order],
    filter: Filter,
    taking: Taking,
    ranked: &mut [Ranked],
    shares: &mut [Contracts],
) -> usize
    requires rising { Rising (λ o. o.number) 0 orders.now }
    requires small { AllByRecursion (λ o. standing o ≤ 9999) orders.now }
    requires long { length orders.now ≤ 161 }
    requires few { length (kept_by (passes filter) orders.now) ≤ 160 }
    requires ranked_fit { length orders.now ≡ length ranked.old }
    requires shares_fit { length orders.now ≡ length shares.old }
    requires amounts { taking.amount.count ≤ 1599840 }
    requires guarantees { taking.guarantee.count ≤ 9999 }
    ensures within { result ≤ length orders.now }
    ensures ranked { drop result ranked.new ≡ by_rank (ranked_from (passes filter) 0 orders.now) }
    ensures shares { counts (drop result shares.new) ≡ map (fill (R.shared rule.now) (kept_by (passes filter) orders.now) taking.amount.count taking.marked taking.guarantee.count) (by_priority (kept_by (passes filter) orders.now)) }
{
    let n = orders.len();
    let start = rank(orders, filter, ranked);
    let ranked = &ranked[start..n];
    let mut room = contract_room();
    let claims = &mut room[start..n];
    claim(orders, ranked, claims);
    let claimed = Claimed {
        orders,
        ranked,
        claims,
        taking,
    };
    share_levels(rule, &claimed, &mut shares[start..n]);
    start
}
