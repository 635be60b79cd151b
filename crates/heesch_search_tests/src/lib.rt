//! The searches for covers and coronas, tried on values from outside. There are tests here alone.
#![tactic(auto)]

#[cfg(test)]
mod tests;
