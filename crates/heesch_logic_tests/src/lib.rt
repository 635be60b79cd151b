//! Streams, boards, exact covers, propagation and the solver, tried on values from outside. There are tests here
//! alone.
#![tactic(auto)]

#[cfg(test)]
mod tests;
