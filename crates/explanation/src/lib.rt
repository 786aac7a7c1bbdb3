// Why a read moved: the list of its walk, as a person reads it.
#![tactic(auto)]

mod explaining;
mod judging;

pub use explaining::why;
use simplify::Answer;

// What is answered: the numbers of a fresh run, and the length of the list.
#[repr(C)]
#[derive(Clone, Copy)]
pub struct Listing {
    pub answer: Answer,
    pub length: u64,
}
