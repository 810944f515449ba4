// Intake step by step: the headers, a piece for each column, then the rest. The state goes in and comes back by value.
#![tactic(auto)]

ghost use Rattle.std.specs.Prelude.{◌≡◌, ◌≤◌};
ghost use Rattle.answers.specs.Told as told;
ghost use Rattle.headers.specs.Judged.{judged};
ghost use Rattle.steps.specs.Steps.{said_of, said_of_headers, due_after, after_answer, Step, wanted};

pub mod piece;

use crate::piece::column_answer;
use answers::{Refusal, Verdict};
use headers::judge::{frame_of, judge};
use layout::zones::near_edge;
use layout::{Frame, HEADER_BYTES};
use years::Year;

// The columns still due: of which grid, and which is next.
#[derive(Clone, Copy)]
pub struct ColumnsDue {
    pub level: usize,
    pub edge: usize,
    pub voids: bool,
    pub next: usize,
}

// What the next piece is for; before the first step, the rule year that was named.
#[derive(Clone, Copy)]
pub enum Phase {
    Headers(u32),
    Columns(ColumnsDue),
    Over(Result<Verdict, Refusal>),
}

#[derive(Clone, Copy)]
pub struct Steps {
    pub phase: Phase,
}

// The new state, and what the step answers.
#[derive(Clone, Copy)]
pub struct Stepped {
    pub steps: Steps,
    pub answer: Result<Verdict, Refusal>,
}

// What a piece answers where columns are due; any level, edge and number.
fn columns_answer(due: ColumnsDue, piece: &[u8]) -> Result<Verdict, Refusal>
    ensures { told.told told.intake result ≡ said_of (Phase.Columns due) piece.now }
{
    match layout::lay(due.level, due.edge) {
        Ok(grid) => column_answer(
            Frame {
                grid,
                voids: due.voids,
            },
            due.next,
            piece,
        ),
        Err(_) => Err(Refusal::OffGrid),
    }
}

// The state in which every later step repeats this answer.
fn over(answer: Result<Verdict, Refusal>) -> Stepped
    ensures { (result.answer ≡ answer) × (result.steps.phase ≡ Phase.Over answer) }
{
    Stepped {
        steps: Steps {
            phase: Phase::Over(answer),
        },
        answer,
    }
}

// The first step by the rules of a year.
fn headers_step(year: Year, piece: &[u8]) -> Stepped
    ensures answer { told.told told.intake result.answer ≡ said_of_headers (judged piece.now) }
    ensures phase { result.steps.phase ≡ after_answer (due_after year (judged piece.now)) result.answer }
{
    match judge(piece) {
        Ok(facts) => Stepped {
            steps: Steps {
                phase: Phase::Columns(ColumnsDue {
                    level: facts.grid.level,
                    edge: near_edge(facts.latitude),
                    voids: frame_of(year, facts).voids,
                    next: 0,
                }),
            },
            answer: Ok(Verdict::More),
        },
        Err(refusal) => over(Err(refusal)),
    }
}

// The first step: no later one has a year.
fn first_step(named: u32, piece: &[u8]) -> Stepped
    ensures { Step (Phase.Headers named) piece.now result.answer result.steps.phase }
{
    match Year::try_from(named) {
        Ok(year) => headers_step(year, piece),
        Err(refusal) => over(Err(refusal)),
    }
}

fn column_step(due: ColumnsDue, piece: &[u8]) -> Stepped
    ensures { Step (Phase.Columns due) piece.now result.answer result.steps.phase }
{
    let answer = columns_answer(due, piece);
    match answer {
        Ok(Verdict::More) => Stepped {
            steps: Steps {
                phase: Phase::Columns(ColumnsDue {
                    next: due.next + 1,
                    ..due
                }),
            },
            answer,
        },
        Ok(Verdict::Accepted { .. }) => over(answer),
        Err(_) => over(answer),
    }
}

// How many bytes the next column has; one after the last, to see whether anything follows.
fn column_wanted(due: ColumnsDue) -> usize
    ensures { (result ≡ wanted (Phase.Columns due)) × (result ≤ 7214) }
{
    match layout::lay(due.level, due.edge) {
        Ok(grid) => {
            if due.next < grid.columns {
                grid.bytes.column
            } else {
                1
            }
        }
        Err(_) => 0,
    }
}

impl Steps {
    // The state before the first step, with the rule year that it is to judge by; any number.
    pub fn new(named: u32) -> Self
        ensures { result.phase ≡ Phase.Headers named }
    {
        Self {
            phase: Phase::Headers(named),
        }
    }

    // How many bytes the next piece should have.
    pub fn wanted(self) -> usize
        ensures { (result ≡ wanted self.phase) × (result ≤ 7214) }
    {
        match self.phase {
            Phase::Headers(_) => HEADER_BYTES,
            Phase::Columns(due) => column_wanted(due),
            Phase::Over(_) => 0,
        }
    }

    // One piece: the new state, and the answer; any state and any bytes.
    pub fn step(self, piece: &[u8]) -> Stepped
        ensures { Step self.phase piece.now result.answer result.steps.phase }
    {
        match self.phase {
            Phase::Headers(named) => first_step(named, piece),
            Phase::Columns(due) => column_step(due, piece),
            Phase::Over(answer) => over(answer),
        }
    }
}
