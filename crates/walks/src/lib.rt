// What is known of two rows, and the walk of a READ over the stores below it, straight on lent bytes. `result` holds the result rows, of which
// those below row r stand; `store` keeps the ranges of words and what a walk asks of arrays; `limit` is the number of stores that a READ compares at most.
#![tactic(auto)]

mod relation;
mod value;
mod walking;

pub use relation::{Index, index_at, reason, related};
pub use value::{Value, opened, plain_name, same_base, value_at};
pub use walking::{Landing, Walked, walk};
