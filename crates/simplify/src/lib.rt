// Run and edit over lent bytes; and, for the tools that stand on a fresh run, the run itself and the answer of a refusal.
#![tactic(auto)]

ghost use Rattle.std.specs.Prelude.{◌≡◌};
ghost use Rattle.table.specs.Fault.{number_of};
ghost use Rattle.simplify.specs.Answer.{answer};

mod editing;
mod running;

pub use editing::edit;
pub use running::{fresh, refused, run};
use table::Refusal;

#[repr(C)]
#[derive(Clone, Copy)]
pub struct Answer {
    pub refusal: u64,
    pub row: u64,
    pub removed: u64,
    pub touched: u64,
    pub compared: u64,
}

// A refusal is answered by its number and row, and by no other number.
impl From<Refusal> for Answer {
    ghost from_gives = { λ refusal given. given ≡ answer (number_of refusal.fault) refusal.row 0 0 0 };

    fn from(refusal: Refusal) -> Answer {
        refused(refusal.fault.number(), refusal.row)
    }
}
