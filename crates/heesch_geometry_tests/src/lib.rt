//! The grids, shapes, tilings, regions, places and coronas, tried on values from outside. There are tests here alone.
#![tactic(auto)]

#[cfg(test)]
mod tests;
