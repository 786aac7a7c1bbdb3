// Tells why a read moved: takes the number of a READ row as its argument and one table from standard input, and prints
// the list of that read's walk (docs/WHY.md), or why it is refused.
#![tactic(auto)]

use printing::{print, print_refusal};
use std::io;
use std::rt::Env;
use table::LARGEST;

// bytes of the longest list: 256 for each row below the last, and 256 more
const LONGEST: usize = 256 * table::MOST;

// Reads the table and prints the list of the row's walk, or the refusal.
fn explain<R: Input + Print>(rt: &R, row: u64) -> io::Result<()> {
    let mut table = [0u8; LARGEST + 1];
    let size = reading::read_full(&mut rt.reader(), &mut table)?;
    let mut result = [0u8; LARGEST];
    let mut list = [0u8; LONGEST];
    let listing = explanation::why(&table[..size], &mut result, row, &mut list);
    let answer = listing.answer;
    if answer.refusal != 0 {
        return print_refusal(rt, answer.refusal, answer.row);
    }
    print(rt, &list[..listing.length as usize])
}

// The row number that the only argument gives. The program's name is counted too.
fn row_asked<R: Env>(rt: &R) -> Option<u64> {
    if argument::count(rt) != 2 {
        return None;
    }
    argument::number_at(rt, 1)
}

fn print_use<R: Print>(rt: &R) -> io::Result<()> {
    println!(rt; "use: why ROW < TABLE")
}

fn main(rt: HostRuntime) -> io::Result<()> {
    match row_asked(&rt) {
        Some(row) => explain(&rt, row),
        None => print_use(&rt),
    }
}
