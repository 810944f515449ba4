// The writer over heights: each item out of range in turn, then what else it refuses, and a cell that it writes.
use crate::{YEAR, print_verdict};
use description::{Accuracies, Accuracy, Datum, Description};
use std::io;

// A level 0 cell at 89 N, of 21 columns of 121 posts; one byte less; its posts; one post less; a post among them.
const CELL: usize = 8762;

const SHORT: usize = 8761;

const POSTS: usize = 2541;

const FEWER: usize = 2540;

const HIGH: usize = 2000;

fn metres(horizontal: u16, vertical: u16) -> Accuracies {
    Accuracies {
        horizontal: Accuracy::Metres(horizontal),
        vertical: Accuracy::Metres(vertical),
    }
}

// Items of which no two are the same number, with these accuracies: at 89 N, 7 W.
fn items(uhl: Accuracy, absolute: Accuracies, relative: Accuracies) -> Description {
    Description {
        level: 0,
        latitude: 179,
        longitude: 173,
        security: b'C',
        edition: 42,
        version: b'K',
        datum: Datum::E96,
        uhl,
        absolute,
        relative,
        partial: 50,
    }
}

fn good() -> Description {
    items(Accuracy::Unknown, metres(31, 432), metres(5433, 9999))
}

// What the writer answers, on a line.
fn write(rt: &impl Print, out: &mut [u8], d: Description, heights: &[i16]) -> io::Result<()> {
    match cell_writer::write(YEAR, out, d, heights) {
        Ok(()) => println!(rt; "done"),
        Err(refusal) => print_verdict(rt, Err(refusal)),
    }
}

// The same, into an output of one cell that is then dropped.
fn attempt(rt: &impl Print, d: Description, heights: &[i16]) -> io::Result<()> {
    let mut out = [0u8; CELL];
    write(rt, &mut out, d, heights)
}

// Items 1 to 6. Item 7 is an enum: no description has a datum out of range.
fn try_items(rt: &impl Print, heights: &[i16]) -> io::Result<()> {
    attempt(rt, Description { level: 3, ..good() }, heights)?;
    attempt(
        rt,
        Description {
            latitude: 180,
            ..good()
        },
        heights,
    )?;
    attempt(
        rt,
        Description {
            longitude: 360,
            ..good()
        },
        heights,
    )?;
    attempt(
        rt,
        Description {
            security: b'K',
            ..good()
        },
        heights,
    )?;
    attempt(
        rt,
        Description {
            edition: 100,
            ..good()
        },
        heights,
    )?;
    attempt(
        rt,
        Description {
            version: b'a',
            ..good()
        },
        heights,
    )
}

// Items 8 to 12, each 10,000 metres.
fn try_accuracies(rt: &impl Print, heights: &[i16]) -> io::Result<()> {
    let uhl = Accuracy::Unknown;
    let absolute = metres(31, 432);
    let relative = metres(5433, 9999);
    attempt(
        rt,
        items(Accuracy::Metres(10000), absolute, relative),
        heights,
    )?;
    attempt(rt, items(uhl, metres(10000, 432), relative), heights)?;
    attempt(rt, items(uhl, metres(31, 10000), relative), heights)?;
    attempt(rt, items(uhl, absolute, metres(10000, 9999)), heights)?;
    attempt(rt, items(uhl, absolute, metres(5433, 10000)), heights)
}

// Item 13, and two items at once, the two ends and two neighbours: the lower is named.
fn try_last(rt: &impl Print, heights: &[i16]) -> io::Result<()> {
    let last = Description {
        partial: 100,
        ..good()
    };
    attempt(rt, last, heights)?;
    attempt(rt, Description { level: 3, ..last }, heights)?;
    let uhl = Accuracy::Unknown;
    attempt(
        rt,
        items(uhl, metres(31, 10000), metres(10000, 9999)),
        heights,
    )
}

// A grid of one post less.
fn try_fewer(rt: &impl Print, heights: &[i16]) -> io::Result<()> {
    if FEWER <= heights.len() {
        attempt(rt, good(), &heights[..FEWER])?;
    }
    Ok(())
}

// That, an output of one byte less, and one height too high.
fn try_rest(rt: &impl Print, heights: &mut [i16]) -> io::Result<()> {
    try_fewer(rt, heights)?;
    let mut short = [0u8; SHORT];
    write(rt, &mut short, good(), heights)?;
    if HIGH < heights.len() {
        heights[HIGH] = 9001;
        attempt(rt, good(), heights)?;
    }
    Ok(())
}

// A cell that is written: the answer, what intake says of it, and the items that it has.
fn try_good(rt: &impl Print, heights: &[i16]) -> io::Result<()> {
    let mut cell = [0u8; CELL];
    write(rt, &mut cell, good(), heights)?;
    print_verdict(rt, intake::intake(YEAR, &cell))?;
    crate::said::print_items(rt, &cell)?;
    crate::said::print_accuracies(rt, &cell)
}

pub fn run(rt: &impl Print) -> io::Result<()> {
    let mut heights = [0i16; POSTS];
    crate::stream::put_heights(&mut heights, 0);
    try_items(rt, &heights)?;
    try_accuracies(rt, &heights)?;
    try_last(rt, &heights)?;
    try_good(rt, &heights)?;
    try_rest(rt, &mut heights)
}
