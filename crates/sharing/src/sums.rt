// Contracts added up.
ghost use Rattle.std.specs.Prelude.{◌≡◌, ◌<◌, ◌^◌, ◌-◌, min, sum};
ghost use Rattle.sharing.specs.Asked.{counts};

use market::units::Contracts;

// The contracts in a list together, or the largest count where they are more.
pub fn sum_of(contracts: &[Contracts]) -> Contracts
    ensures most { result.count ≡ min (sum (counts contracts.now)) (2 ^ 32 - 1) }
    ensures exact { sum (counts contracts.now) < 2 ^ 32 → result.count ≡ sum (counts contracts.now) }
{
    let mut sum: u32 = 0;
    for c in contracts {
        sum = sum.saturating_add(c.count);
    }
    Contracts { count: sum }
}
