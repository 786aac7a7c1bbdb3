// Runs document 01's cases over real bytes. A line is a case, the number that the check gives, and its row.
#![tactic(auto)]

use row::{Kind, Row};
use std::io;

// The bytes of a table of one row more than the most.
const ROOM: usize = table::LARGEST + Row::LENGTH;

// The bytes of a table with one row, with the most rows, and with one row over.
const ONE_ROW: u64 = (Row::HEADER + Row::LENGTH) as u64;

const FULL: u64 = table::LARGEST as u64;

const OVERFULL: u64 = ROOM as u64;

// Headers: two marks, width, zero byte, row count; then how many bytes are handed in. Every row is CONST 0.
const HEADS: [[u64; 6]; 27] = [
    [0x46, 0x54, 8, 0, 0, 6], // P4
    [0x46, 0x54, 8, 0, 0, 0], // short
    [0x46, 0x54, 8, 0, 0, 1],
    [0x46, 0x54, 8, 0, 0, 5],
    [0x47, 0x54, 8, 0, 0, 5], // 1 before 2
    [0x47, 0x54, 8, 0, 0, 6], // marks
    [0x46, 0x55, 8, 0, 0, 6],
    [0x54, 0x46, 8, 0, 0, 6],
    [0x46, 0x54, 8, 1, 0, 6],
    [0x46, 0x54, 0, 1, 0, 6], // 2 before 3
    [0x46, 0x54, 0, 0, 0, 6], // widths
    [0x46, 0x54, 1, 0, 0, 6],
    [0x46, 0x54, 64, 0, 0, 6],
    [0x46, 0x54, 65, 0, 0, 6],
    [0x46, 0x54, 255, 0, 0, 6],
    [0x46, 0x54, 65, 0, 1025, 6], // 3 before 4
    [0x46, 0x54, 8, 0, 1025, OVERFULL], // row counts
    [0x46, 0x54, 8, 0, 1024, FULL],
    [0x46, 0x54, 8, 0, 65535, OVERFULL],
    [0x46, 0x54, 8, 0, 65535, 6], // 4 before 5
    [0x46, 0x54, 8, 0, 1, ONE_ROW], // lengths
    [0x46, 0x54, 8, 0, 1, ONE_ROW - 1],
    [0x46, 0x54, 8, 0, 1, ONE_ROW + 1],
    [0x46, 0x54, 8, 0, 1, 6],
    [0x46, 0x54, 8, 0, 0, 7],
    [0x46, 0x54, 8, 0, 1024, FULL - 1],
    [0x46, 0x54, 8, 0, 1024, FULL + 1],
];

// Where row 2 begins.
const ROW_2: usize = Row::HEADER + Row::LENGTH * 2;

// Row 2 of a table whose row 0 is a word and row 1 an array: width; two marks, kind, zero byte, a, b, c, k, h.
const ROWS: [[u64; 10]; 47] = [
    [8, 0x52, 0x4F, 1, 0, 0, 0, 0, 0, 0], // marks
    [8, 0x53, 0x4F, 1, 0, 0, 0, 0, 0, 0],
    [8, 0x52, 0x50, 1, 0, 0, 0, 0, 0, 0],
    [8, 0x52, 0x4F, 1, 1, 0, 0, 0, 0, 0],
    [8, 0x52, 0x4F, 0, 1, 0, 0, 0, 0, 0], // 9 before 10
    [8, 0x52, 0x4F, 0, 0, 0, 0, 0, 0, 0], // kinds
    [8, 0x52, 0x4F, 10, 0, 0, 0, 0, 0, 0],
    [8, 0x52, 0x4F, 255, 0, 0, 0, 0, 0, 0],
    [8, 0x52, 0x4F, 0, 0, 1, 0, 0, 0, 0], // 10 before 11
    [8, 0x52, 0x4F, 1, 0, 1, 0, 0, 0, 0], // unused fields
    [8, 0x52, 0x4F, 1, 0, 0, 1, 0, 0, 0],
    [8, 0x52, 0x4F, 1, 0, 0, 0, 256, 0, 0],
    [8, 0x52, 0x4F, 1, 0, 0, 0, 0, 0, 1],
    [8, 0x52, 0x4F, 8, 0, 0, 0, 0, 0, 0],
    [8, 0x52, 0x4F, 8, 0, 0, 0, 0, 1, 0],
    [8, 0x52, 0x4F, 7, 0, 1, 0, 0, 1, 0],
    [8, 0x52, 0x4F, 3, 0, 0, 1, 0, 0, 0],
    [8, 0x52, 0x4F, 1, 0, 1, 0, 0, 256, 0], // 11 before 12
    [8, 0x52, 0x4F, 1, 0, 0, 0, 0, 255, 0], // numbers
    [8, 0x52, 0x4F, 1, 0, 0, 0, 0, 256, 0],
    [1, 0x52, 0x4F, 1, 0, 0, 0, 0, 1, 0],
    [1, 0x52, 0x4F, 1, 0, 0, 0, 0, 2, 0],
    [1, 0x52, 0x4F, 1, 0, 0, 0, 0, 0xffff_ffff_ffff_ffff, 0],
    [63, 0x52, 0x4F, 1, 0, 0, 0, 0, 0xffff_ffff_ffff_ffff, 0],
    [64, 0x52, 0x4F, 1, 0, 0, 0, 0, 0xffff_ffff_ffff_ffff, 0],
    [8, 0x52, 0x4F, 2, 0, 0, 0, 0, 0, 255],
    [8, 0x52, 0x4F, 2, 0, 0, 0, 0, 0, 256],
    [64, 0x52, 0x4F, 2, 0, 0, 0, 0, 0, 0xffff_ffff_ffff_ffff],
    [8, 0x52, 0x4F, 3, 0, 2, 0, 0, 256, 0], // 12 before 13
    [8, 0x52, 0x4F, 2, 0, 0, 0, 0, 256, 0], // 12 before 15
    [8, 0x52, 0x4F, 2, 0, 0, 0, 0, 5, 5], // bounds
    [8, 0x52, 0x4F, 2, 0, 0, 0, 0, 5, 4],
    [8, 0x52, 0x4F, 3, 0, 0, 0, 0, 7, 0], // references
    [8, 0x52, 0x4F, 3, 0, 1, 0, 0, 0, 0],
    [8, 0x52, 0x4F, 3, 0, 2, 0, 0, 0, 0],
    [8, 0x52, 0x4F, 3, 0, 65535, 0, 0, 0, 0],
    [8, 0x52, 0x4F, 4, 0, 0, 65535, 0, 0, 0],
    [8, 0x52, 0x4F, 5, 0, 0, 1, 0, 0, 0],
    [8, 0x52, 0x4F, 6, 0, 0, 0, 0, 255, 0],
    [8, 0x52, 0x4F, 7, 0, 1, 0, 0, 0, 0],
    [8, 0x52, 0x4F, 7, 0, 0, 0, 0, 0, 0],
    [8, 0x52, 0x4F, 7, 0, 1, 1, 0, 0, 0],
    [8, 0x52, 0x4F, 9, 0, 1, 0, 0, 0, 0],
    [8, 0x52, 0x4F, 9, 0, 1, 0, 1, 0, 0],
    [8, 0x52, 0x4F, 9, 0, 1, 0, 2, 0, 0],
    [8, 0x52, 0x4F, 9, 0, 0, 0, 2, 0, 0], // 13 of c before 14 of a
    [8, 0x52, 0x4F, 9, 0, 0, 0, 0, 0, 0],
];

// The lowest byte of v.
fn low(v: u64) -> u8 {
    (v % 256) as u8
}

// Stores the lowest byte of v where there is room for it.
fn set(t: &mut [u8; ROOM], i: usize, v: u64) {
    if i < ROOM {
        t[i] = low(v);
    }
}

// A header of width w and n rows.
fn head(t: &mut [u8; ROOM], w: u64, n: u64) {
    set(t, 0, 0x46);
    set(t, 1, 0x54);
    set(t, 2, w);
    set(t, 3, 0);
    set(t, 4, n);
    set(t, 5, n / 256);
}

// Row r, recorded at instruction `source`, where there is room for it.
fn put(t: &mut [u8; ROOM], r: usize, x: Row, source: u64) {
    if r > 1024 {
        return;
    }
    putting::put(t, r, x, source);
}

// Makes every row a CONST 0, recorded at the instruction of its own number.
fn fill(t: &mut [u8; ROOM]) {
    for r in 0..1025 {
        put(t, r, Row::make(Kind::Const as u8, 0, 0, 0, 0, 0), r as u64);
    }
}

// Prints numbers, each with a space behind it.
fn show<R: Print>(rt: &R, s: &[u64]) -> io::Result<()> {
    for n in s {
        print!(rt; "{n} ")?;
    }
    Ok(())
}

// Prints what the check says of the first n bytes.
fn say<R: Print>(rt: &R, t: &[u8], n: usize) -> io::Result<()> {
    if t.len() < n {
        return Ok(());
    }
    match scan::check(&t[..n]) {
        Ok(()) => println!(rt; ": 0 row 0"),
        Err(refusal) => println!(rt; ": {} row {}", refusal.fault.number(), refusal.row),
    }
}

fn head_case<R: Print>(rt: &R, t: &mut [u8; ROOM], c: [u64; 6]) -> io::Result<()> {
    show(rt, &c)?;
    set(t, 0, c[0]);
    set(t, 1, c[1]);
    set(t, 2, c[2]);
    set(t, 3, c[3]);
    set(t, 4, c[4]);
    set(t, 5, c[4] / 256);
    say(rt, t, c[5] as usize)
}

fn head_cases<R: Print>(rt: &R, t: &mut [u8; ROOM]) -> io::Result<()> {
    for c in HEADS {
        head_case(rt, t, c)?;
    }
    Ok(())
}

fn row_case<R: Print>(rt: &R, t: &mut [u8; ROOM], c: [u64; 10], source: u64) -> io::Result<()> {
    show(rt, &c)?;
    show(rt, &[source])?;
    head(t, c[0], 3);
    let x = Row::make(
        low(c[3]),
        c[5] as usize,
        c[6] as usize,
        c[7] as usize,
        c[8],
        c[9],
    );
    put(t, 2, x, source);
    set(t, ROW_2, c[1]);
    set(t, ROW_2 + 1, c[2]);
    set(t, ROW_2 + Row::ZERO, c[4]);
    say(rt, t, ROW_2 + Row::LENGTH)
}

// Every row case, recorded at instruction `source`, which is printed behind the case: it never changes what the check gives.
fn row_cases<R: Print>(rt: &R, t: &mut [u8; ROOM], source: u64) -> io::Result<()> {
    put(t, 0, Row::make(Kind::Const as u8, 0, 0, 0, 1, 0), source);
    put(t, 1, Row::make(Kind::Fresh as u8, 0, 0, 0, 0, 0), source);
    for c in ROWS {
        row_case(rt, t, c, source)?;
    }
    Ok(())
}

// The largest k at every width: a word at 64 bits alone.
fn every_width<R: Print>(rt: &R, t: &mut [u8; ROOM]) -> io::Result<()> {
    for w in 1..65 {
        row_case(
            rt,
            t,
            [w, 0x52, 0x4F, 1, 0, 0, 0, 0, 0xffff_ffff_ffff_ffff, 0],
            0,
        )?;
    }
    Ok(())
}

// Which row is given: the first faulty one.
fn faulty_rows<R: Print>(rt: &R, t: &mut [u8; ROOM]) -> io::Result<()> {
    fill(t);
    head(t, 8, 1024);
    put(
        t,
        1023,
        Row::make(Kind::Shift as u8, 1022, 0, 0, 255, 0),
        0xffff_ffff,
    );
    print!(rt; "last row names the one below")?;
    say(rt, t, table::LARGEST)?;
    put(
        t,
        1023,
        Row::make(Kind::Shift as u8, 1023, 0, 0, 255, 0),
        0xffff_ffff,
    );
    print!(rt; "last row names itself")?;
    say(rt, t, table::LARGEST)?;
    put(t, 500, Row::make(Kind::Var as u8, 0, 0, 0, 9, 8), 500);
    print!(rt; "row 500 crosses its bounds too")?;
    say(rt, t, table::LARGEST)?;
    put(t, 0, Row::make(Kind::Shift as u8, 0, 0, 0, 0, 0), 0);
    print!(rt; "row 0 names itself too")?;
    say(rt, t, table::LARGEST)
}

fn p1(t: &mut [u8; ROOM]) {
    head(t, 8, 9);
    put(t, 0, Row::make(Kind::Var as u8, 0, 0, 0, 200, 250), 0);
    put(t, 1, Row::make(Kind::Fresh as u8, 0, 0, 0, 0, 0), 0);
    put(t, 2, Row::make(Kind::Shift as u8, 0, 0, 0, 248, 0), 6);
    put(t, 3, Row::make(Kind::Const as u8, 0, 0, 0, 7, 0), 6);
    put(t, 4, Row::make(Kind::Write as u8, 1, 2, 3, 0, 0), 6);
    put(t, 5, Row::make(Kind::Shift as u8, 0, 0, 0, 224, 0), 9);
    put(t, 6, Row::make(Kind::Shift as u8, 5, 0, 0, 24, 0), 9);
    put(t, 7, Row::make(Kind::Read as u8, 4, 6, 0, 0, 0), 9);
    put(t, 8, Row::make(Kind::Read as u8, 4, 7, 0, 0, 0), 12);
}

// P1, and the table of P3: P1 with CONST 0 for its row 1.
fn p1_and_p3<R: Print>(rt: &R, t: &mut [u8; ROOM]) -> io::Result<()> {
    p1(t);
    print!(rt; "P1")?;
    say(rt, t, Row::place(9))?;
    put(t, 1, Row::make(Kind::Const as u8, 0, 0, 0, 0, 0), 0);
    print!(rt; "P3")?;
    say(rt, t, Row::place(9))
}

// A VAR named 7 as the last of five rows, and what the check then gives.
fn last_row<R: Print>(rt: &R, t: &mut [u8; ROOM], k: u64, h: u64) -> io::Result<()> {
    put(t, 4, Row::make(Kind::Var as u8, 7, 0, 0, k, h), 0);
    show(rt, &[k, h])?;
    say(rt, t, Row::place(5))
}

// Rows of one name: it is the first whose bounds count, also where another name, 263, has its slot. Name 0 is none.
fn rows_of_one_name<R: Print>(rt: &R, t: &mut [u8; ROOM]) -> io::Result<()> {
    head(t, 8, 5);
    put(t, 0, Row::make(Kind::Var as u8, 7, 0, 0, 0, 9), 0);
    put(t, 1, Row::make(Kind::Var as u8, 263, 0, 0, 1, 2), 0);
    put(t, 2, Row::make(Kind::Var as u8, 0, 0, 0, 3, 4), 0);
    put(t, 3, Row::make(Kind::Var as u8, 0, 0, 0, 5, 6), 0);
    println!(rt; "the name of row 0, bounds 0 9, again with bounds")?;
    last_row(rt, t, 0, 9)?;
    last_row(rt, t, 0, 8)?;
    last_row(rt, t, 1, 9)?;
    last_row(rt, t, 9, 8)?;
    println!(rt; "row 0 a CONST")?;
    put(t, 0, Row::make(Kind::Const as u8, 0, 0, 0, 0, 0), 0);
    last_row(rt, t, 0, 8)
}

fn main(rt: HostRuntime) -> io::Result<()> {
    let mut t = [0u8; ROOM];
    fill(&mut t);
    head_cases(&rt, &mut t)?;
    row_cases(&rt, &mut t, 0)?;
    row_cases(&rt, &mut t, 1)?;
    row_cases(&rt, &mut t, 0xffff_ffff)?;
    every_width(&rt, &mut t)?;
    faulty_rows(&rt, &mut t)?;
    p1_and_p3(&rt, &mut t)?;
    rows_of_one_name(&rt, &mut t)
}
