// The list of a walk, as a person reads it: docs/WHY.md sets its lines.
#![tactic(auto)]

mod words;

pub use words::{put_found, put_read, put_result, put_stands, put_store};
