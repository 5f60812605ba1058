// Conditions by which several calls are refused.
ghost use Rattle.std.specs.Prelude.{◌≡◌, ◌≤◌};
ghost use Rattle.rules.specs.Calls.{wrong_pass, few_rows};
ghost use Rattle.rules.specs.Series.{early_or_late, exposure_due, auction_due, something_due, bad_member, book_full, numbers_short};
ghost use Rattle.series.specs.State.{state};

use crate::series::Series;
use book::select::{Filter, count};
use market::auction::Auction;
use market::row::Row;
use market::units::Millis;
use sharing::rule::SharingRule;

// The last time of a day, and the last at which an exposure or an auction may begin.
pub(super) const DAY_END: u32 = 86_400_000;

pub(super) const LAST_BEGIN: u32 = 86_390_000;

// The most rows that a call writes.
const MOST_ROWS: usize = 192;

const BOOK_PLACES: usize = 128;

// One past the last order number.
const NUMBERS_END: u32 = 65_536;

const LAST_MEMBER: u16 = 999;

pub(super) fn is_bad_member(member: u16) -> bool
    ensures { result ≡ bad_member member }
{
    member == 0 || member > LAST_MEMBER
}

// Whether fewer rows are lent than a call may write. Those that write rows ask for as many: a slice says no length by its
// type.
pub(super) fn are_few(rows: &[Row]) -> bool
    ensures { result ≡ few_rows rows.now }
{
    rows.len() < MOST_ROWS
}

fn is_auction_due(auction: Option<Auction>, time: Millis) -> bool
    ensures { result ≡ auction_due time.count auction }
{
    auction.is_some_and(|auction| auction.end <= time)
}

impl<R: SharingRule> Series<R> {
    pub(super) fn is_wrong_pass(&self, series: u16, trading: bool) -> bool
        ensures { result ≡ wrong_pass series trading (state self.now) }
    {
        series != self.number || self.phase.is_trading() != trading
    }

    pub(super) fn is_early_or_late(&self, time: Millis, latest: u32) -> bool
        ensures { result ≡ early_or_late latest time.count (state self.now) }
    {
        time < self.time || latest < time.count
    }

    pub(super) fn is_exposure_due(&self, time: Millis) -> bool
        ensures { result ≡ exposure_due time.count (state self.now).orders }
    {
        0 < count(self.table.live(), Filter::Due(time))
    }

    // Whether an exposure or the auction has reached its end.
    pub(super) fn is_something_due(&self, time: Millis) -> bool
        ensures { result ≡ something_due time.count (state self.now) }
    {
        self.is_exposure_due(time) || is_auction_due(self.phase.auction(), time)
    }

    pub(super) fn is_book_full(&self) -> bool
        ensures { result ≡ book_full (state self.now) }
    {
        BOOK_PLACES <= count(self.table.live(), Filter::InBook)
    }

    // Whether fewer order numbers are left than needed.
    pub(super) fn is_short_of_numbers(&self, needed: u32) -> bool
        requires { needed ≤ 2 }
        ensures { result ≡ numbers_short needed (state self.now) }
    {
        NUMBERS_END < self.table.next() + needed
    }
}
