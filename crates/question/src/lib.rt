// A question about two rows of a kept result: whether they are the same, apart, or neither is known, and why. It makes no run.
#![tactic(auto)]

mod asking;

pub use asking::ask;
use simplify::Answer;
use term::Reason;

#[derive(Clone, Copy)]
pub struct Comparison {
    pub answer: Answer,
    pub why: Reason,
}
