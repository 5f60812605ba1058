// The previous close of a series.
ghost use Rattle.std.specs.Prelude.{◌≡◌, true, IfOk};
ghost use Rattle.market.specs.Refusals.{refused_by, first_hit};
ghost use Rattle.market.specs.Spans.{price_in_span, price_checks};

use crate::refusal::Refusal;
use crate::units::Cents;

// A close is a price, of the grid or not.
#[derive(Clone, Copy)]
pub struct Close {
    price: Cents,
    ghost span: { price_in_span price.value ≡ true },
}

impl Close {
    pub fn new(price: Cents) -> Result<Close, Refusal>
        ensures refusal { refused_by result ≡ first_hit (price_checks price.value) }
        ensures close { IfOk result (λ c. c.price ≡ price) }
    {
        price.check_price()?;
        Ok(Close { price })
    }

    pub fn price(&self) -> Cents
        ensures { result ≡ self.now.price }
    {
        self.price
    }
}
