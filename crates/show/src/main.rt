// Reads one table from standard input, makes a fresh run and prints the result, or why the table is refused. The run's limit is the argument's, or the greatest.
#![tactic(auto)]

mod limit;

ghost use Rattle.std.specs.Prelude.{◌≡◌, ◌+◌, ◌≤◌, min, length};
ghost use Rattle.row.specs.Names.{place};
ghost use Rattle.lines.specs.Lines.{Chunk};
ghost use Rattle.table.specs.Refusals.{LARGEST};
ghost use Rattle.show.specs.Shown.{Counted};

use printing::{print, print_refusal};
use row::Row;
use std::io;
use table::LARGEST;

// rows that one call of the system prints
const CHUNK: usize = 32;

// Prints the lines of `count` rows, from row `from` on.
fn print_lines<R: Print>(rt: &R, t: &[u8], from: usize, count: usize) -> io::Result<()>
    requires { Chunk t.now from count }
{
    let mut out = [0u8; lines::LINE * CHUNK];
    let size = lines::put_lines(&mut out, t, from, count);
    print(rt, &out[..size])
}

// Prints the lines of the first n rows. A `while`: a turn goes on by the rows that it printed, which are fewer in the last one.
fn print_rows<R: Print>(rt: &R, t: &[u8], n: usize) -> io::Result<()>
    requires { place n ≤ length t.now }
{
    let mut from = 0;
    while from < n {
        let count = (n - from).min(CHUNK);
        print_lines(rt, t, from, count)?;
        from += count;
    }
    Ok(())
}

// Prints the first line of a result.
fn print_head<R: Print>(rt: &R, width: u64, rows: u64) -> io::Result<()> {
    let mut out = [0u8; lines::SHORT];
    let size = lines::put_head(&mut out, width, rows);
    print(rt, &out[..size])
}

// How many rows an accepted table of so many bytes has: the header is shorter than a row.
fn rows(size: usize) -> usize
    requires { size ≤ LARGEST + 1 }
    ensures { Counted size result }
{
    size / Row::LENGTH
}

// Reads the table and prints its result where a READ compares at most `limit` stores, or the refusal.
fn show<R: Input + Print>(rt: &R, limit: u64) -> io::Result<()> {
    let mut table = [0u8; LARGEST + 1];
    let size = reading::read_full(&mut rt.reader(), &mut table)?;
    let mut result = [0u8; LARGEST];
    let answer = simplify::run(&table[..size], &mut result, limit);
    if answer.refusal != 0 {
        return print_refusal(rt, answer.refusal, answer.row);
    }
    let n = rows(size);
    print_head(rt, table::width_of(&result) as u64, n as u64)?;
    print_rows(rt, &result, n)
}

fn print_use<R: Print>(rt: &R) -> io::Result<()> {
    println!(rt; "use: show [--limit L] < TABLE, L from 0 to 1024")
}

fn main(rt: HostRuntime) -> io::Result<()> {
    match limit::limit_asked(&rt) {
        Some(limit) => show(&rt, limit),
        None => print_use(&rt),
    }
}
