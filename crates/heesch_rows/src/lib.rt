//! Rows of the program over a source and a sink in memory: words, input, status and text. There are tests here alone.
#![tactic(auto)]

#[cfg(test)]
mod tests;
