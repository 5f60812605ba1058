// The prices of the away markets.
ghost use Rattle.std.specs.Prelude.{◌≡◌, ◌-◌, ◌≤◌, true, slice_set};
ghost use Rattle.market.specs.Words.{or_else};
ghost use Rattle.rules.specs.Prices.{cents, away_best};
ghost use Rattle.rules.specs.Series.{no_quotes};
ghost use Rattle.series.specs.Quotes.{quote_in_span, quotes_in_span};

use market::order::Side;
use market::quote::Quote;
use market::units::Cents;
use order_table::prices::away_best;

// A quote of neither price; it stands for none of its own.
const NO_QUOTE: Quote = Quote {
    bid: None,
    offer: None,
};

// The best bid and offer of each of the eight markets, either of which may be missing. An array: there are always eight.
#[derive(Clone, Copy)]
pub struct AwayQuotes {
    quotes: [Quote; 8],
    ghost span: { quotes_in_span quotes ≡ true },
}

impl AwayQuotes {
    pub fn new() -> AwayQuotes
        ensures { result.quotes ≡ no_quotes }
    {
        AwayQuotes {
            quotes: [NO_QUOTE; 8],
        }
    }

    // Takes down the prices of a market.
    pub fn replace(&mut self, market: u8, quote: Quote)
        requires first { 1 ≤ market }
        requires last { market ≤ 8 }
        requires span { quote_in_span quote ≡ true }
        ensures { self.new.quotes ≡ slice_set self.old.quotes (market - 1) quote }
    {
        let mut quotes = self.quotes;
        quotes[market as usize - 1] = quote;
        self.quotes = quotes;
    }

    // The best price for a taker on that side.
    pub fn best(&self, side: Side) -> Option<Cents>
        ensures best { cents result ≡ away_best side self.now.quotes }
        ensures span { or_else (cents result) 0 ≤ 99999 }
    {
        away_best(side, &self.quotes)
    }
}
