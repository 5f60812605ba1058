// Prices and sizes at the ends of their spans, and prices beside the grid's steps.
use market::close::Close;
use market::refusal::Refusal;
use market::units::{Cents, Contracts, Millis};
use std::test::*;

fn cents(value: u32) -> Cents {
    Cents { value }
}

fn size(count: u32) -> Contracts {
    Contracts { count }
}

// This and `sizes` are a case each of two spans.
#[test]
fn prices(rt: HostRuntime) -> Result<(), Fail> {
    assert_eq!(rt; cents(0).check_price(), Err(Refusal::BadPrice));
    assert_eq!(rt; cents(1).check_price(), Ok(()));
    assert_eq!(rt; cents(99_999).check_price(), Ok(()));
    assert_eq!(rt; cents(100_000).check_price(), Err(Refusal::BadPrice));
    Ok(())
}

#[test]
fn fine_part_of_the_grid(rt: HostRuntime) -> Result<(), Fail> {
    assert_eq!(rt; cents(0).check_on_grid(), Err(Refusal::BadPrice));
    assert_eq!(rt; cents(1).check_on_grid(), Err(Refusal::BadPrice));
    assert_eq!(rt; cents(5).check_on_grid(), Ok(()));
    assert_eq!(rt; cents(6).check_on_grid(), Err(Refusal::BadPrice));
    assert_eq!(rt; cents(295).check_on_grid(), Ok(()));
    assert_eq!(rt; cents(299).check_on_grid(), Err(Refusal::BadPrice));
    Ok(())
}

#[test]
fn coarse_part_of_the_grid(rt: HostRuntime) -> Result<(), Fail> {
    assert_eq!(rt; cents(300).check_on_grid(), Ok(()));
    assert_eq!(rt; cents(305).check_on_grid(), Err(Refusal::BadPrice));
    assert_eq!(rt; cents(310).check_on_grid(), Ok(()));
    assert_eq!(rt; cents(99_990).check_on_grid(), Ok(()));
    assert_eq!(rt; cents(99_999).check_on_grid(), Err(Refusal::BadPrice));
    assert_eq!(rt; cents(100_000).check_on_grid(), Err(Refusal::BadPrice));
    Ok(())
}

#[test]
fn sizes(rt: HostRuntime) -> Result<(), Fail> {
    assert_eq!(rt; size(0).check_size(), Err(Refusal::BadSize));
    assert_eq!(rt; size(1).check_size(), Ok(()));
    assert_eq!(rt; size(9_999).check_size(), Ok(()));
    assert_eq!(rt; size(10_000).check_size(), Err(Refusal::BadSize));
    Ok(())
}

// The price of an accepted close.
fn closes_at(price: u32) -> Result<Cents, Refusal> {
    let close = Close::new(cents(price))?;
    Ok(close.price())
}

#[test]
fn closes(rt: HostRuntime) -> Result<(), Fail> {
    assert_eq!(rt; closes_at(0), Err(Refusal::BadPrice));
    assert_eq!(rt; closes_at(1), Ok(cents(1)));
    assert_eq!(rt; closes_at(302), Ok(cents(302)));
    assert_eq!(rt; closes_at(99_999), Ok(cents(99_999)));
    assert_eq!(rt; closes_at(100_000), Err(Refusal::BadPrice));
    Ok(())
}

#[test]
fn refusal_numbers(rt: HostRuntime) -> Result<(), Fail> {
    assert_eq!(rt; Refusal::WrongPass.number(), 1);
    assert_eq!(rt; Refusal::BadPrice.number(), 5);
    assert_eq!(rt; Refusal::OutOfBounds.number(), 7);
    assert_eq!(rt; Refusal::BadQuote.number(), 16);
    Ok(())
}

#[test]
fn printed_units(rt: HostRuntime) -> Result<(), Fail> {
    let heap = rt.alloc();
    let padded = format!(in heap; "{:>6} {:>6}", cents(205), size(9_999))?;
    assert_eq!(rt; padded.as_str(), "   205   9999");
    let bare = format!(in heap; "{}", Millis { count: 86_400_000 })?;
    assert_eq!(rt; bare.as_str(), "86400000");
    Ok(())
}
