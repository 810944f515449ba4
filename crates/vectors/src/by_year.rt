// The rule year: a partial level 0 cell with a void under each and under years that there are not, and steps under one of these.
use crate::{CELL, print_verdict};
use std::io;
use steps::Steps;

fn judge_under(rt: &impl Print, named: u32, cell: &[u8]) -> io::Result<()> {
    print_verdict(rt, intake::intake(named, cell))
}

// What the first step answers, and the next one.
fn print_steps(rt: &impl Print, named: u32, cell: &[u8]) -> io::Result<()> {
    let first = Steps::new(named).step(cell);
    print_verdict(rt, first.answer)?;
    print_verdict(rt, first.steps.step(b"").answer)
}

fn judge_cell(rt: &impl Print, cell: &[u8]) -> io::Result<()> {
    judge_under(rt, 1, cell)?;
    judge_under(rt, 2, cell)?;
    judge_under(rt, 0, cell)?;
    judge_under(rt, 3, cell)?;
    judge_under(rt, 4294967295, b"")?;
    print_steps(rt, 3, cell)
}

pub fn run(rt: &impl Print, cell: &[u8]) -> io::Result<()> {
    if CELL <= cell.len() {
        judge_cell(rt, &cell[..CELL])?;
    }
    Ok(())
}
