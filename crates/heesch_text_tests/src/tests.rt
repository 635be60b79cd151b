//! A module for each crate that is tried.
mod dimacs;
mod exchange;
mod given;
mod grammar;
mod line;
mod made;
mod parts;
mod reader;
mod stream;
mod table;
mod tabulate;
mod text;
mod words;
