// Which refusal an input gets: document 01's table of refusals, in its order.
#![tactic(auto)]

mod calls;
mod kept;

pub use calls::{LIMIT, edit, pair, room, run, with_kept, words};
