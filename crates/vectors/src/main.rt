// The examples that are run, not marked: whole cells streamed from the column writer, intake of the cell on standard input, changed in known ways, and the writer over heights.
#![tactic(auto)]

ghost use Rattle.std.specs.Prelude.{◌<◌};

use answers::{Refusal, Verdict};
use description::{Accuracies, Accuracy, Datum, Description};
use layout::HEADER_BYTES;
use std::io;
use std::io::{Input, Read};

mod by_year;
mod said;
mod sea;
mod stream;
mod writer;

// The rule year where an example does not turn on it.
const YEAR: u32 = 2;

// A level 0 cell of zone I, and one byte more.
const CELL: usize = 34162;

const ROOM: usize = 34163;

// The line of a verdict.
fn print_verdict(rt: &impl Print, verdict: Result<Verdict, Refusal>) -> io::Result<()> {
    printing::verdict(&mut io::writer(rt), verdict)
}

// The length of a zone I cell of a level, and what its pieces answer.
fn print_streamed(rt: &impl Print, level: usize) -> io::Result<()>
    requires { level < 3 }
{
    let grid = layout::grid_of(level, 0);
    println!(rt; "{} bytes", grid.bytes.cell)?;
    print_verdict(rt, stream::stream(level, grid.columns, grid.posts))
}

// Intake of the first n bytes.
fn judge(rt: &impl Print, cell: &[u8], n: usize) -> io::Result<()> {
    if n <= cell.len() {
        print_verdict(rt, intake::intake(YEAR, &cell[..n]))?;
    }
    Ok(())
}

// Post 0 of column 0 made this word, and the checksum mended.
fn put_word(cell: &mut [u8], word: u16) {
    if CELL <= cell.len() {
        octets::numbers::put16(cell, 3436, word);
        let sum = octets::sums::sum(&cell[3428..3678]);
        octets::numbers::put32(cell, 3678, sum);
    }
}

// An origin of 0 N and this longitude, counted from 180 W, in a complete or a partial cell.
fn description(level: usize, longitude: usize, partial: usize) -> Description {
    Description {
        level,
        latitude: 90,
        longitude,
        security: b'U',
        edition: 1,
        version: b'A',
        datum: Datum::E96,
        uhl: Accuracy::Unknown,
        absolute: Accuracies {
            horizontal: Accuracy::Unknown,
            vertical: Accuracy::Unknown,
        },
        relative: Accuracies {
            horizontal: Accuracy::Metres(15),
            vertical: Accuracy::Metres(9999),
        },
        partial,
    }
}

// Headers of this description over those of the cell, where its items are in range.
fn put_headers(cell: &mut [u8], d: Description) {
    if HEADER_BYTES <= cell.len() {
        if description::items::bad_item(d).is_none() {
            let facts = description::facts::facts_for(d);
            header_writer::write::put_headers(cell, d, facts.grid);
        }
    }
}

// A state without a level, one without a zone, and one whose column is missing.
fn print_made_up(rt: &impl Print) -> io::Result<()> {
    print_verdict(rt, stream::from_made_up(3, 0))?;
    print_verdict(rt, stream::from_made_up(0, 90))?;
    print_verdict(rt, stream::from_made_up(0, 89))
}

// Reads until the buffer is full, the input ends or a read fails.
// Kept: beside the intake program's `fill`, which tells a failed read, and std's `read_exact`, which promises nothing of the buffer where the
// input ends early, as it does here by one byte.
fn read_full<R: Read>(input: &mut R, buffer: &mut [u8]) {
    let mut done = 0;
    while done < buffer.len() {
        let more = input.read(&mut buffer[done..]).unwrap_or(0);
        if more == 0 {
            return;
        }
        done += more;
    }
}

fn run<R: Input + Print>(rt: &R) -> io::Result<()> {
    print_streamed(rt, 0)?;
    print_streamed(rt, 1)?;
    print_streamed(rt, 2)?;
    print_made_up(rt)?;
    let mut cell = [0u8; ROOM];
    read_full(&mut rt.reader(), &mut cell);
    judge(rt, &cell, 3427)?;
    judge(rt, &cell, 3428)?;
    judge(rt, &cell, CELL - 1)?;
    judge(rt, &cell, CELL)?;
    judge(rt, &cell, ROOM)?;
    put_headers(&mut cell, description(0, 0, 0));
    judge(rt, &cell, CELL)?;
    put_headers(&mut cell, description(0, 359, 0));
    judge(rt, &cell, CELL)?;
    sea::run(rt, &mut cell)?;
    put_word(&mut cell, 0xFFFF);
    judge(rt, &cell, CELL)?;
    put_headers(&mut cell, description(0, 359, 7));
    by_year::run(rt, &cell)?;
    writer::run(rt)
}

// The output is compared with a stored one: what cannot be written is missed there.
fn main(rt: HostRuntime) {
    let _ = run(&rt);
}
