// Runs the call that writes a table as a file on the worked table of document 01 and its neighbours, and prints each answer with the bytes of the
// file, and after a bar what the bytes after the file hold together, by `or`. Every byte that is lent is 7 before the call. Then the call that reads
// a file, with n and how many cells are named, and after a bar how many marks are left; and the ones of single words.
#![tactic(auto)]

use file_reader::read_table;
use file_writer::write_table;
use marks::{count_marks, ones};
use model::{FILE, SECTORS, SHEET, Table, WORDS};
use std::io;
use test_show::{WORKED, ZERO, show_bytes, show_cells, show_read, show_written};

// Forty sectors whose every amount is 1.
const FULL: Table = Table {
    sectors: SECTORS,
    flows: &[1; SHEET],
    final_demand: &[1; SECTORS],
    exports: &[1; SECTORS],
    imports: &[1; SECTORS],
    value_added: &[1; SECTORS],
    production: &[1; SECTORS],
    adjustment: &[1; SECTORS],
};

// A table and its rises, written on these bytes.
fn write_on(
    rt: &impl Print,
    name: &str,
    table: &Table,
    rises: &[u64],
    file: &mut [u8],
) -> io::Result<()> {
    let answer = write_table(table, rises, file);
    rt.print(name)?;
    show_written(rt, answer)?;
    show_bytes(rt, file, answer.unwrap_or(0))
}

fn write(rt: &impl Print, name: &str, table: &Table, rises: [u64; 2]) -> io::Result<()> {
    write_on(rt, name, table, &rises, &mut [7; FILE])
}

// The worked table with another flow.
fn with_flow(rt: &impl Print, name: &str, flow: u64, rises: [u64; 2]) -> io::Result<()> {
    let table = Table {
        flows: &[100, 400, flow, 600],
        ..WORKED
    };
    write(rt, name, &table, rises)
}

// The worked table with an adjustment item of sector 1.
fn with_item(rt: &impl Print, name: &str, item: u64, rises: [u64; 2]) -> io::Result<()> {
    let table = Table {
        adjustment: &[item, 0],
        ..WORKED
    };
    write(rt, name, &table, rises)
}

fn written(rt: &impl Print) -> io::Result<()> {
    write(rt, "worked table", &WORKED, [0, 0])?;
    with_flow(rt, "zero left out", 0, [0, 0])?;
    write(rt, "rise at the limit", &WORKED, [0, 1000000000])?;
    with_item(rt, "item after the rise", 50, [0, 7])?;
    with_item(rt, "item at the limit", 1000000000, [0, 0])?;
    write(rt, "all zero", &ZERO, [0, 0])
}

fn refused(rt: &impl Print) -> io::Result<()> {
    let none = Table {
        sectors: 0,
        ..WORKED
    };
    let three = Table {
        sectors: 3,
        ..WORKED
    };
    with_flow(rt, "flow over", 1000000001, [1000000001, 0])?;
    with_item(rt, "item over", 1000000001, [1000000001, 0])?;
    write(rt, "rise over", &WORKED, [1000000001, 0])?;
    write(rt, "second rise over", &WORKED, [0, 18446744073709551615])?;
    write(rt, "no sectors", &none, [0, 0])?;
    write(rt, "another n", &three, [0, 0])
}

fn other_lengths(rt: &impl Print) -> io::Result<()> {
    write_on(rt, "rises short", &ZERO, &[0], &mut [7; FILE])?;
    write_on(rt, "a byte short", &ZERO, &[0, 0], &mut [7; FILE - 1])?;
    write_on(rt, "a byte more", &ZERO, &[0, 0], &mut [7; FILE + 1])
}

// Every mark is set before the call.
fn read(rt: &impl Print, name: &str, file: &[u8]) -> io::Result<()> {
    let mut marks = [18446744073709551615u64; WORDS];
    let answer = read_table(
        file,
        &mut [7; SHEET],
        &mut [7; SECTORS],
        &mut [7; SECTORS],
        &mut [7; SECTORS],
        &mut [7; SECTORS],
        &mut [7; SECTORS],
        &mut [7; SECTORS],
        &mut [7; SECTORS],
        &mut marks,
    );
    rt.print(name)?;
    show_read(rt, answer)?;
    println!(rt; " | {}", count_marks(&marks))
}

// All cells of 40 sectors: 40 ones in each of the words.
fn read_full(rt: &impl Print) -> io::Result<()> {
    let mut file = [0u8; FILE];
    let _ = write_table(&FULL, &[1; SECTORS], &mut file);
    read(rt, "every cell named", &file)
}

fn named(rt: &impl Print) -> io::Result<()> {
    let twice = &[1, 2, 3, 1, 0, 0, 0, 0, 3, 1, 0, 0, 0, 0, 8];
    read(rt, "no cell named", &[1, 2, 8])?;
    read(rt, "a zero named", &[1, 2, 3, 1, 0, 0, 0, 0, 8])?;
    read(rt, "an item named", &[1, 2, 10, 2, 0, 0, 0, 5, 8])?;
    read(rt, "no such kind", &[1, 2, 11, 2, 0, 0, 0, 5, 8])?;
    read(rt, "a cell named twice", twice)?;
    read_full(rt)
}

// No position, the lowest, the highest, both, every second and all.
fn words(rt: &impl Print) -> io::Result<()> {
    let words = [
        0,
        1,
        9223372036854775808,
        9223372036854775809,
        6148914691236517205,
        18446744073709551615,
    ];
    rt.print("ones")?;
    show_cells(rt, &words.map(ones))?;
    println!(rt)
}

fn main(rt: HostRuntime) -> io::Result<()> {
    written(&rt)?;
    refused(&rt)?;
    other_lengths(&rt)?;
    named(&rt)?;
    words(&rt)
}
