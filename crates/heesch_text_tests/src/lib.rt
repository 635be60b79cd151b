//! Texts and their readers, tried on values from outside. There are tests here alone.
#![tactic(auto)]

#[cfg(test)]
mod tests;
