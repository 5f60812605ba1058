// Pairs the buyers and sellers of an opening.
ghost use Rattle.std.specs.Prelude.{◌≡◌, ◌+◌, ◌≤◌, ◌++◌, length, drop};
ghost use Rattle.book.specs.Pairing.{pairing_rows};

use market::order::Side;
use market::row::Row;
use market::units::{Cents, Contracts};

// An order's number with the contracts it trades at the opening.
#[derive(Clone, Copy)]
pub struct Filled {
    pub number: u16,
    pub contracts: Contracts,
}

// Writes the rows of an opening: the first unpaired buyer with the first unpaired seller, in turn.
pub fn pair(buyers: &[Filled], sellers: &[Filled], price: Cents, rows: &mut [Row]) -> usize
    requires { length buyers.now + length sellers.now ≤ length rows.old }
    ensures counted { result ≡ length (pairing_rows price.value buyers.now sellers.now) }
    ensures written { rows.new ≡ pairing_rows price.value buyers.now sellers.now ++ drop result rows.old }
{
    let mut count = 0;
    let mut rest = sellers;
    let mut sold = Contracts::NONE;
    // One function with two loops, which a label leaves together, is a rule of this project.
    'pairing: for buyer in buyers {
        let mut unpaired = buyer.contracts;
        while unpaired.count > 0 {
            let Some((seller, later)) = rest.split_first() else {
                break 'pairing;
            };
            // By their counts: with `sold == seller.contracts` the proof of the sum below did not close.
            if sold.count == seller.contracts.count {
                rest = later;
                sold = Contracts::NONE;
                continue;
            }
            let n = unpaired.min(seller.contracts - sold);
            rows[count] = Row::trade(Side::Buy, buyer.number, seller.number, price, n);
            count += 1;
            unpaired -= n;
            sold = sold + n;
        }
    }
    count
}
