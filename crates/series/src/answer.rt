// What accepted calls answer.

// The rows that an order's entry wrote, and its number.
#[derive(Clone, Copy, PartialEq, Eq, Debug)]
pub struct Entered {
    pub rows: usize,
    pub number: u16,
}

// The numbers of the two orders of a new auction.
#[derive(Clone, Copy, PartialEq, Eq, Debug)]
pub struct Started {
    pub customer: u16,
    pub starter: u16,
}

// The rows that an opening wrote, and its price with the quantity that trades, if there is one.
#[derive(Clone, Copy, PartialEq, Eq, Debug)]
pub struct Opened {
    pub rows: usize,
    pub opening: Option<(u32, u32)>,
}
