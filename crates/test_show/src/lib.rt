// Printing for the test programs: answers, cells and bytes; and the tables that several of them run on.
#![tactic(auto)]

use model::{Refusal, Table, TableRead};
use std::fmt::Display;
use std::io;

pub fn show_outcome(rt: &impl Print, outcome: Result<u32, Refusal>) -> io::Result<()> {
    show_told(rt, outcome, |rounds| print!(rt; " rounds {rounds}"))
}

pub fn show_answer(rt: &impl Print, answer: Result<(), Refusal>) -> io::Result<()> {
    show_told(rt, answer, |_| print!(rt; " accepted"))
}

// The writer's answer.
pub fn show_written(rt: &impl Print, answer: Result<usize, Refusal>) -> io::Result<()> {
    show_told(rt, answer, |length| print!(rt; " written {length}"))
}

// The reader's answer: n and how many cells were named.
pub fn show_read(rt: &impl Print, answer: Result<TableRead, Refusal>) -> io::Result<()> {
    show_told(
        rt,
        answer,
        |read| print!(rt; " read {} {}", read.sectors, read.named),
    )
}

// What an answer tells, or the refusal.
fn show_told<T, F: FnOnce(T) -> io::Result<()>>(
    rt: &impl Print,
    answer: Result<T, Refusal>,
    show: F,
) -> io::Result<()>
    requires { F.IsAlwaysCallable show }
{
    match answer {
        Ok(told) => show(told),
        Err(refusal) => print!(rt; " {refusal}"),
    }
}

pub fn show_cells<T: Display>(rt: &impl Print, cells: &[T]) -> io::Result<()> {
    for cell in cells {
        print!(rt; " {cell}")?;
    }
    Ok(())
}

// A line's end: the cells of these slices, of the first after a colon and of each other after a bar.
pub fn show_slices<T: Display>(rt: &impl Print, slices: &[&[T]]) -> io::Result<()> {
    let mut mark = ":";
    for cells in slices {
        rt.print(mark)?;
        show_cells(rt, cells)?;
        mark = " |";
    }
    println!(rt)
}

// A line's end: so many bytes after a colon, and what the others hold together, by `or`, after a bar.
pub fn show_bytes(rt: &impl Print, bytes: &[u8], count: usize) -> io::Result<()> {
    let (first, others) = bytes.split_at(count.min(bytes.len()));
    let rest = others.iter().fold(0, |held, byte| held | *byte);
    show_slices(rt, &[first, &[rest]])
}

// The worked table of document 01.
pub const WORKED: Table = Table {
    sectors: 2,
    flows: &[100, 400, 300, 600],
    final_demand: &[500, 900],
    exports: &[250, 560],
    imports: &[250, 360],
    value_added: &[600, 1000],
    production: &[1000, 2000],
    adjustment: &[0, 0],
};

// Two sectors without any amount.
pub const ZERO: Table = Table {
    sectors: 2,
    flows: &[0; 4],
    final_demand: &[0; 2],
    exports: &[0; 2],
    imports: &[0; 2],
    value_added: &[0; 2],
    production: &[0; 2],
    adjustment: &[0; 2],
};

// Three sectors with an adjustment item.
pub const THREE: Table = Table {
    sectors: 3,
    flows: &[10, 20, 30, 40, 50, 60, 70, 80, 90],
    final_demand: &[100, 200, 300],
    exports: &[95, 7, 11],
    imports: &[45, 60, 170],
    value_added: &[100, 150, 205],
    production: &[220, 300, 385],
    adjustment: &[10, 3, 4],
};

// What comes of them by the list 1 2 0.
pub const TURNED: Table = Table {
    sectors: 3,
    flows: &[50, 60, 40, 80, 90, 70, 20, 30, 10],
    final_demand: &[200, 300, 100],
    exports: &[7, 11, 95],
    imports: &[60, 170, 45],
    value_added: &[150, 205, 100],
    production: &[300, 385, 220],
    adjustment: &[3, 4, 10],
};
