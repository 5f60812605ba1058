// Tests of the order table, the matching and the opening price on examples.
#![tactic(auto)]

#[cfg(test)]
mod book_cases;
#[cfg(test)]
mod opening_cases;
#[cfg(test)]
mod tables;
