//! Rows of each command, and of sources and sinks that fail.
mod catalogues;
mod checks;
mod exchanges;
mod gates;
mod given;
mod hostile;
mod lists;
mod orders;
mod outer_checks;
mod plains;
mod running;
mod shares;
mod sinks;
mod tables;
mod worked;

/// The list of the five tetrominoes.
const FIVE_TETROMINOES: &str =
    "0,0 1,0 2,0 3,0\n0,0 1,0 2,0 0,1\n0,0 1,0 2,0 1,1\n0,0 1,0 0,1 1,1\n0,0 1,0 1,1 2,1\n";
