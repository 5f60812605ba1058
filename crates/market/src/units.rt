// Prices, sizes and times, each a type of its own.
ghost use Rattle.std.specs.Prelude.{◌≡◌, ◌+◌, ◌-◌, ◌^◌, ◌<◌, ◌≤◌, Some, decimal, min};
ghost use Rattle.std.specs.Fmt.{styled_decimal};

use std::fmt;
use std::ops::{Add, Sub, SubAssign};

// A price in cents.
#[derive(Clone, Copy, PartialEq, Eq, PartialOrd, Ord, Debug)]
pub struct Cents {
    pub value: u32,
}

// A count of contracts.
#[derive(Clone, Copy, PartialEq, Eq, PartialOrd, Ord, Debug)]
pub struct Contracts {
    pub count: u32,
}

// A time: the milliseconds since the day began.
#[derive(Clone, Copy, PartialEq, Eq, PartialOrd, Ord, Debug)]
pub struct Millis {
    pub count: u32,
}

impl Contracts {
    pub const NONE: Contracts = Contracts { count: 0 };

    // The smaller of two counts.
    pub fn min(self, other: Contracts) -> Contracts
        ensures { result.count ≡ min self.count other.count }
    {
        Ord::min(self, other)
    }
}

// The operators are written out, since they have no derive.
impl Add<Contracts> for Contracts {
    type Output = Contracts;

    ghost can_add = { λ x y. x.count + y.count < 2 ^ 32 };

    ghost add_gives = { λ x y r. r.count ≡ x.count + y.count };

    fn add(self, rhs: Contracts) -> Contracts {
        Contracts {
            count: self.count + rhs.count,
        }
    }
}

impl Sub<Contracts> for Contracts {
    type Output = Contracts;

    ghost can_sub = { λ x y. y.count ≤ x.count };

    ghost sub_gives = { λ x y r. r.count ≡ x.count - y.count };

    fn sub(self, rhs: Contracts) -> Contracts {
        Contracts {
            count: self.count - rhs.count,
        }
    }
}

impl SubAssign<Contracts> for Contracts {
    ghost can_sub_assign = { λ x y. y.count ≤ x.count };

    ghost sub_assign_gives = { λ x y r. r.count ≡ x.count - y.count };

    fn sub_assign(&mut self, rhs: Contracts) {
        self.count -= rhs.count;
    }
}

// The number alone, as of a count or a time.
impl fmt::Display for Cents {
    ghost output = { λ x. Some (decimal x.value) };

    ghost styled_output = { λ x style. Some (styled_decimal style x.value) };

    fn fmt<W: fmt::Write>(&self, f: &mut fmt::Formatter<W>) -> fmt::Result {
        fmt::Display::fmt(&self.value, f)
    }
}

impl fmt::Display for Contracts {
    ghost output = { λ x. Some (decimal x.count) };

    ghost styled_output = { λ x style. Some (styled_decimal style x.count) };

    fn fmt<W: fmt::Write>(&self, f: &mut fmt::Formatter<W>) -> fmt::Result {
        fmt::Display::fmt(&self.count, f)
    }
}

impl fmt::Display for Millis {
    ghost output = { λ x. Some (decimal x.count) };

    ghost styled_output = { λ x style. Some (styled_decimal style x.count) };

    fn fmt<W: fmt::Write>(&self, f: &mut fmt::Formatter<W>) -> fmt::Result {
        fmt::Display::fmt(&self.count, f)
    }
}
