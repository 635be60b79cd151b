//! That what a true entry names lies near its shape, and that its lines have the forms of a catalogue's lines.
//!
//! That what `classify` wrote is valid rests on three facts that truth doesn't give. A cover's places lie inside its
//! triple, by a clause of `heesch_verdict::classify`. The numbers written fit 32 bits, by a clause of the writers.
//! The rest follows from truth by geometry: these are the laws `*_are_near`. A number of layers or levels of 2^32 or
//! more can't be written and counts as want of memory; a true entry has at most 12. The functions have empty bodies,
//! so wrong bodies stand where covers are found, in `heesch_verdict`, and where lines are read, in `heesch_line`.
#![tactic(auto)]

pub mod laws;
