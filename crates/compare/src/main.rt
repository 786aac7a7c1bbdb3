// Tells what is known of two rows: takes their numbers as its arguments and one table from standard input, and prints one line, which says what is known
// and why, or why it is refused.
#![tactic(auto)]

mod answer;
mod words;

use answer::put_answer;
use argument::number_at;
use std::io;
use std::rt::Env;
use table::LARGEST;
use words::LONGEST;

// Reads the table and prints what is known of rows x and y, or the refusal. The result has room for the largest table, and a longer input is refused with
// one of 1 to 5, so 6 is never given (`room_enough`).
fn compare<R: Input + Print>(rt: &R, x: u64, y: u64) -> io::Result<()> {
    let mut table = [0u8; LARGEST + 1];
    let size = reading::read_full(&mut rt.reader(), &mut table)?;
    let mut result = [0u8; LARGEST];
    let mut out = [0u8; LONGEST];
    let end = put_answer(&mut out, &table[..size], &mut result, x, y);
    printing::print(rt, &out[..end])
}

// The row numbers that the only two arguments give. The program's name is counted too.
fn rows_asked<R: Env>(rt: &R) -> Option<(u64, u64)> {
    if argument::count(rt) != 3 {
        return None;
    }
    Some((number_at(rt, 1)?, number_at(rt, 2)?))
}

fn print_use<R: Print>(rt: &R) -> io::Result<()> {
    println!(rt; "use: compare ROW ROW < TABLE")
}

fn main(rt: HostRuntime) -> io::Result<()> {
    match rows_asked(&rt) {
        Some((x, y)) => compare(&rt, x, y),
        None => print_use(&rt),
    }
}
