//! The calls that write catalogues, tallies and outer texts, tried on values from outside. There are tests here alone.
#![tactic(auto)]

#[cfg(test)]
mod tests;
