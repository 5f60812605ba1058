// Sharing by time, with a guarantee for one marked claim.
ghost use Rattle.std.specs.Prelude.{◌≡◌, ◌-◌, length, sum};
ghost use Rattle.sharing.specs.Asked.{counts};
ghost use Rattle.sharing.specs.Time.{in_order, time_with_guarantee};
ghost use Rattle.sharing.specs.InOrder.{time_with_guarantee_lawful, outside_mark};

use crate::rule::{SharingRule, check_bounds};
use market::refusal::Refusal;
use market::units::Contracts;

#[derive(Clone, Copy, Debug)]
pub struct TimeWithGuarantee;

impl SharingRule for TimeWithGuarantee {
    ghost shared = { λ _. time_with_guarantee };

    ghost lawful = { λ rule. time_with_guarantee_lawful };

    ghost outside = { λ rule. outside_mark };

    fn share(
        &self,
        claims: &[Contracts],
        amount: Contracts,
        mark: Option<usize>,
        guarantee: Contracts,
        shares: &mut [Contracts],
    ) -> Result<(), Refusal> {
        check_bounds(claims, amount, guarantee, shares.len())?;
        divide(claims, amount, mark, guarantee, shares);
        Ok(())
    }
}

// Writes the shares. A mark outside the list counts as none.
fn divide(
    claims: &[Contracts],
    amount: Contracts,
    mark: Option<usize>,
    guarantee: Contracts,
    shares: &mut [Contracts],
)
    requires { length shares.old ≡ length claims.now }
    ensures { counts shares.new ≡ time_with_guarantee (counts claims.now) amount.count mark guarantee.count }
{
    shares.copy_from_slice(claims);
    match mark {
        Some(m) if m < claims.len() => {
            let claim = claims[m];
            let first = claim.min(guarantee).min(amount);
            shares[m] = Contracts::NONE;
            let left = cut_in_order(amount - first, shares);
            shares[m] = first + left.min(claim - first);
        }
        _ => {
            cut_in_order(amount, shares);
        }
    }
}

// Cuts each claim to what it can take, in order, and answers what is left of the amount.
fn cut_in_order(amount: Contracts, shares: &mut [Contracts]) -> Contracts
    ensures filled { counts shares.new ≡ in_order (counts shares.old) amount.count }
    ensures rest { result.count ≡ amount.count - sum (counts shares.old) }
{
    let mut left = amount;
    for share in shares.iter_mut() {
        *share = (*share).min(left);
        left -= *share;
    }
    left
}
