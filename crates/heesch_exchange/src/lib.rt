//! The corona formula of a given shape for other solvers, and what their model of it says.
//!
//! It says what an input is the formula or the answer of, and its first fault. `heesch_app` adds the status.
//!
//! In a model text a variable that doesn't fit 32 bits is no literal, and a text that ends without its newline is faulty
//! there, whatever its variables. All literals of a model text are kept until its end.
#![tactic(auto)]

mod access;
mod answers;
mod asked;
mod clauses;
mod falsity;
mod formulas;
pub mod laws;
mod lines;
mod model;
mod model_text;
mod named;
mod shapes;

pub use access::HasLiterals;
pub use answers::answer;
pub use clauses::{write_cnf, write_flat_cnf};
pub use falsity::first_false;
pub use formulas::formula;
pub use lines::cut_line;
pub use model_text::{ModelStop, read_model};
pub use shapes::is_endless;
