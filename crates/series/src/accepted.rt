// What an accepted call answers, from what it returns.
ghost use Rattle.std.specs.Prelude.{◌≡◌, None, Some};
ghost use Rattle.series.specs.declared.day.NewNumbers.TheVariants.{One, Two};

use crate::answer::{Entered, Opened, Started};
use crate::day::{Accepted, NewNumbers};

impl From<()> for Accepted {
    ghost from_gives = { λ _ a. a ≡ record { rows = 0; numbers = None; opening = None } };

    fn from(_nothing: ()) -> Accepted {
        Accepted::from(0)
    }
}

impl From<usize> for Accepted {
    ghost from_gives = { λ rows a. a ≡ record { rows = rows; numbers = None; opening = None } };

    fn from(rows: usize) -> Accepted {
        Accepted {
            rows,
            numbers: None,
            opening: None,
        }
    }
}

impl From<Entered> for Accepted {
    ghost from_gives = { λ e a. a ≡ record { rows = e.rows; numbers = Some (One e.number); opening = None } };

    fn from(entered: Entered) -> Accepted {
        Accepted {
            numbers: Some(NewNumbers::One(entered.number)),
            ..Accepted::from(entered.rows)
        }
    }
}

impl From<Started> for Accepted {
    ghost from_gives = { λ s a. a ≡ record { rows = 0; numbers = Some (Two s.customer s.starter); opening = None } };

    fn from(started: Started) -> Accepted {
        Accepted {
            numbers: Some(NewNumbers::Two(started.customer, started.starter)),
            ..Accepted::from(())
        }
    }
}

impl From<Opened> for Accepted {
    ghost from_gives = { λ o a. a ≡ record { rows = o.rows; numbers = None; opening = o.opening } };

    fn from(opened: Opened) -> Accepted {
        Accepted {
            opening: opened.opening,
            ..Accepted::from(opened.rows)
        }
    }
}
