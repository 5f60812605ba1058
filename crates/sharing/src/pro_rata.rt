// Sharing in proportion to the claims.
ghost use Rattle.std.specs.Prelude.{◌≡◌, ◌+◌, ◌*◌, ◌<◌, ◌^◌, length, None, sum, sum_by, OnOk};
ghost use Rattle.sharing.specs.Asked.{counts, Answered};
ghost use Rattle.sharing.specs.ProRata.{part, extra, parts, pro_rata, Near};
ghost use Rattle.sharing.specs.Proportion.{pro_rata_lawful, ignores_marks};

use crate::rule::{SharingRule, check_bounds};
use crate::sums::sum_of;
use market::refusal::Refusal;
use market::units::Contracts;

#[derive(Clone, Copy, Debug)]
pub struct ProRata;

impl SharingRule for ProRata {
    ghost shared = { λ _. pro_rata };

    ghost lawful = { λ rule. pro_rata_lawful };

    ghost outside = { λ rule. ignores_marks };

    #[tactic(auto, using(crate::proofs::Bounds::accepted_sum))]
    fn share(
        &self,
        claims: &[Contracts],
        amount: Contracts,
        mark: Option<usize>,
        guarantee: Contracts,
        shares: &mut [Contracts],
    ) -> Result<(), Refusal>
        ensures answered { Answered pro_rata (counts claims.now) amount.count mark guarantee.count shares.old shares.new result }
        ensures near { OnOk result (Near (counts claims.now) amount.count (counts shares.new)) }
    {
        check_bounds(claims, amount, guarantee, shares.len())?;
        divide(claims, amount, shares);
        Ok(())
    }
}

// Writes the shares.
#[tactic(auto, using(crate::specs::Proportion::sum_part_le))]
fn divide(claims: &[Contracts], amount: Contracts, shares: &mut [Contracts])
    requires room { length shares.old ≡ length claims.now }
    requires sum { sum (counts claims.now) < 2 ^ 32 }
    ensures { counts shares.new ≡ pro_rata (counts claims.now) amount.count None 0 }
{
    shares.copy_from_slice(claims);
    let total = sum_of(claims);
    if amount < total {
        let ratio = Ratio { amount, total };
        let spare = amount - sum_of_parts(claims, ratio);
        cut_to_parts(ratio, spare, shares);
    }
}

// An amount that does not cover the claims, and what they claim in total.
#[derive(Clone, Copy)]
struct Ratio {
    amount: Contracts,
    total: Contracts,
    ghost less: { amount.count < total.count },
}

impl Ratio {
    // A claim times the amount.
    fn product(self, claim: Contracts) -> u64
        ensures { result ≡ claim.count * self.amount.count }
    {
        u64::from(claim.count) * u64::from(self.amount.count)
    }

    // A claim's part of the amount, rounded down.
    fn part_of(self, claim: Contracts) -> Contracts
        ensures { result.count ≡ part self.amount.count self.total.count claim.count }
    {
        Contracts {
            count: (self.product(claim) / u64::from(self.total.count)) as u32,
        }
    }

    // One contract more, if the division leaves a remainder and there are contracts to spare.
    fn extra_of(self, claim: Contracts, spare: Contracts) -> Contracts
        ensures is { result.count ≡ extra self.amount.count self.total.count claim.count spare.count }
        ensures fits { part self.amount.count self.total.count claim.count + result.count < 2 ^ 32 }
    {
        let remainder = self.product(claim) % u64::from(self.total.count);
        if spare.count > 0 && remainder > 0 {
            Contracts { count: 1 }
        } else {
            Contracts::NONE
        }
    }
}

// The parts of all claims together.
fn sum_of_parts(claims: &[Contracts], ratio: Ratio) -> Contracts
    requires { sum_by (part ratio.amount.count ratio.total.count) (counts claims.now) < 2 ^ 32 }
    ensures { result.count ≡ sum_by (part ratio.amount.count ratio.total.count) (counts claims.now) }
{
    Contracts {
        count: claims.iter().map(|claim| ratio.part_of(*claim).count).sum(),
    }
}

// Cuts each claim to its part, and hands out what is to spare.
fn cut_to_parts(ratio: Ratio, spare: Contracts, shares: &mut [Contracts])
    ensures { counts shares.new ≡ parts ratio.amount.count ratio.total.count (counts shares.old) spare.count }
{
    let mut left = spare;
    for share in shares.iter_mut() {
        let extra = ratio.extra_of(*share, left);
        *share = ratio.part_of(*share) + extra;
        left -= extra;
    }
}
