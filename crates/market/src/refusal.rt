// Why a call is refused.
ghost use Rattle.std.specs.Prelude.{◌≡◌, [], ◌∷◌};
ghost use Rattle.market.specs.Refusals.{refusal_number, refused_by, first_hit};

// The sixteen refusals, in the order in which the checks of a call run.
#[derive(Clone, Copy, PartialEq, Eq, Debug)]
pub enum Refusal {
    // the pass or ticket is not of this series, phase or running auction
    WrongPass = 1,
    // the time is before the last accepted one, or too late in the day
    BadTime = 2,
    // an exposure or the auction has reached its end
    EndDue = 3,
    // no member has this number, or the starter's member improves its own auction
    BadMember = 4,
    // a price or close outside its span, or off the grid
    BadPrice = 5,
    // a size outside its span
    BadSize = 6,
    // too few rows for a call that may write some, or bounds that no sharing rule accepts
    OutOfBounds = 7,
    // the book or the auction is full
    Full = 8,
    // fewer order numbers are left than the call needs
    NumbersUsedUp = 9,
    // the member has no such order
    NoSuchOrder = 10,
    // an auction runs where none may, or none runs where one must
    AuctionState = 11,
    // a Market-on-Opening order stands, and no price trades
    NoOpeningPrice = 12,
    // the opening price is too far from the close
    FarFromClose = 13,
    // the auction price or size is no improvement
    NotBetter = 14,
    // the auction has not reached its end
    BeforeEnd = 15,
    // no away market has this number, or its bid is not below its offer
    BadQuote = 16,
}

impl Refusal {
    // The number by which members know the refusal.
    pub fn number(self) -> u8
        ensures { result ≡ refusal_number self }
    {
        self as u8
    }
}

// One row of a table of checks: refuses where it hits.
pub fn refuse_if(hit: bool, refusal: Refusal) -> Result<(), Refusal>
    ensures { refused_by result ≡ first_hit ((refusal_number refusal, hit) ∷ []) }
{
    if hit { Err(refusal) } else { Ok(()) }
}
