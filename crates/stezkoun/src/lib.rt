// The door for C and Rust: include/stezkoun.h declares these functions. A slice comes in as a pointer and a length.
#![tactic(auto)]

ghost use Rattle.simplify.specs.Run.{Ran};
ghost use Rattle.simplify.specs.Edit.{Edited};
ghost use Rattle.explanation.specs.Why.{Explained};
ghost use Rattle.stezkoun.specs.Door.{Told};
ghost use Rattle.term.specs.Relation.{relation_number};
ghost use Rattle.std.specs.Prelude.{◌≡◌};

use explanation::Listing;
use simplify::Answer;
use term::Relation;

// A comparison's answer for C: 0 not known, 1 same, 2 apart.
#[repr(C)]
#[derive(Clone, Copy)]
pub struct Numbers {
    pub answer: Answer,
    pub relation: u64,
}

// The numbers are those of include/stezkoun.h, whatever order the relations have here.
fn relation_number(relation: Relation) -> u64
    ensures { result ≡ relation_number relation }
{
    match relation {
        Relation::Unknown => 0,
        Relation::Same => 1,
        Relation::Apart => 2,
    }
}

#[unsafe(no_mangle)]
pub extern "C" fn stezkoun_run(table: &[u8], res: &mut [u8], limit: u64) -> Answer
    ensures { Ran table.now res.old limit result res.new }
{
    simplify::run(table, res, limit)
}

#[unsafe(no_mangle)]
pub extern "C" fn stezkoun_edit(
    table: &mut [u8],
    kept: &mut [u8],
    row: u64,
    replacement: &[u8],
    limit: u64,
) -> Answer
    ensures { Edited table.old kept.old row replacement.now limit result table.new kept.new }
{
    simplify::edit(table, kept, row, replacement, limit)
}

#[unsafe(no_mangle)]
pub extern "C" fn stezkoun_ask(table: &[u8], kept: &[u8], first: u64, second: u64) -> Numbers
    ensures { Told table.now kept.now first second result }
{
    let told = question::ask(table, kept, first, second);
    let answer = told.answer;
    let why = told.why;
    Numbers {
        answer: answer,
        relation: relation_number(Relation::from(why)),
    }
}

#[unsafe(no_mangle)]
pub extern "C" fn stezkoun_why(table: &[u8], res: &mut [u8], row: u64, list: &mut [u8]) -> Listing
    ensures { Explained table.now res.old row list.old result res.new list.new }
{
    explanation::why(table, res, row, list)
}
