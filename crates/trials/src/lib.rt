// Tests of the crates' public calls on examples.
#![tactic(auto)]

#[cfg(test)]
mod sharing_cases;
#[cfg(test)]
mod span_cases;
