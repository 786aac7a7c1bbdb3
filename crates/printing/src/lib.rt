// What the programs print on standard output.
#![tactic(auto)]

use std::io::{self, Write};

// Prints a text.
pub fn print<R: Print>(rt: &R, text: &[u8]) -> io::Result<()> {
    io::writer(rt).write_all(text)
}

// Prints a refusal.
pub fn print_refusal<R: Print>(rt: &R, number: u64, row: u64) -> io::Result<()> {
    let mut out = [0u8; lines::SHORT];
    let size = lines::put_refusal(&mut out, number, row);
    print(rt, &out[..size])
}
