// The ranges that a question about two rows needs: of the two, and of the rows that those are made from.
#![tactic(auto)]

mod ranges;
mod rows;

pub use ranges::keep_two;
