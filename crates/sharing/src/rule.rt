// What a sharing rule is, and which inputs every rule accepts.
ghost use Rattle.std.specs.Prelude.{◌≡◌, nat_le};
ghost use Rattle.std.specs.List.{list_all};
ghost use Rattle.market.specs.Refusals.{refused_by, first_hit};
ghost use Rattle.sharing.specs.Sharing.{Sharing, Lawful, IgnoresOutsideMarks};
ghost use Rattle.sharing.specs.Asked.{Answered, counts, bounds_checks};

use market::refusal::{Refusal, refuse_if};
use market::units::Contracts;

pub const MOST_CLAIMS: usize = 160;

pub const LARGEST_CLAIM: u32 = 9_999;

pub const LARGEST_AMOUNT: u32 = 1_599_840;

// What `share` is given, and that it fills a lent slice, is a rule of this project.
pub trait SharingRule {
    // which shares belong to which claims, amount, mark and guarantee
    ghost shared: { Self → Sharing };

    // Writes the share of each claim, or refuses an input outside the bounds and leaves the shares as they are.
    // Each rule writes this body itself, since its contract may say more, as that of `ProRata`.
    fn share(
        &self,
        claims: &[Contracts],
        amount: Contracts,
        mark: Option<usize>,
        guarantee: Contracts,
        shares: &mut [Contracts],
    ) -> Result<(), Refusal>
        ensures { Answered (shared self.now) (counts claims.now) amount.count mark guarantee.count shares.old shares.new result };

    ghost lawful: { (rule : Self) → Lawful (shared rule) };

    ghost outside: { (rule : Self) → IgnoresOutsideMarks (shared rule) };
}

// Whether no claim is over the largest.
fn are_small(claims: &[Contracts]) -> bool
    ensures { result ≡ list_all (λ c. nat_le c 9999) (counts claims.now) }
{
    claims
        .iter()
        .map(|claim| claim.count)
        .all(|count| count <= LARGEST_CLAIM)
}

// Refuses what no rule accepts: claims, an amount or a guarantee outside the bounds, or not one place for each share.
pub fn check_bounds(
    claims: &[Contracts],
    amount: Contracts,
    guarantee: Contracts,
    places: usize,
) -> Result<(), Refusal>
    ensures { refused_by result ≡ first_hit (bounds_checks (counts claims.now) amount.count guarantee.count places) }
{
    let fits = claims.len() <= MOST_CLAIMS
        && places == claims.len()
        && amount.count <= LARGEST_AMOUNT
        && guarantee.count <= LARGEST_CLAIM
        && are_small(claims);
    refuse_if(!fits, Refusal::OutOfBounds)
}
