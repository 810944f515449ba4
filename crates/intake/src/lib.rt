// Intake of a whole cell from any bytes: the headers, then column after column from the west.
#![tactic(auto)]

ghost use Rattle.std.specs.Prelude.{◌≡◌};
ghost use Rattle.answers.specs.Told as told;
ghost use Rattle.years.specs.Years.{under};
ghost use Rattle.intake.specs.Asked.{ColumnsAsked};
ghost use Rattle.intake.specs.Intake.{columns_from, ended, taken};

use answers::{Refusal, Verdict};
use columns::judge_head;
use columns::measure::{measure, search_from};
use columns::places::word_at;
use headers::judge::{frame_of, judge};
use layout::{Frame, Grid, HEADER_BYTES};
use octets::numbers::be16;
use posts::words::is_allowed;
use years::Year;

// What is answered after the last column, of so many bytes.
#[tactic(auto, unfolding(crate::specs::Intake::ended))]
pub fn end(long: usize, grid: Grid) -> Result<Verdict, Refusal>
    ensures { told.told told.intake result ≡ ended long grid }
{
    if long == grid.bytes.cell {
        Ok(Verdict::Accepted {
            level: grid.level,
            columns: grid.columns,
            posts: grid.posts,
        })
    } else {
        Err(Refusal::Surplus(grid.bytes.cell))
    }
}

// The columns of a cell, left from inside at the first fault. Kept: a search of the words here beside that of `columns::judge` (K4).
fn take_columns(cell: &[u8], frame: Frame) -> Result<Verdict, Refusal>
    requires { ColumnsAsked cell.now frame }
    ensures { told.told told.intake result ≡ columns_from cell.now frame 0 frame.grid.columns }
{
    let grid = frame.grid;
    let voids = frame.voids;
    let size = grid.bytes.column;
    let columns = grid.columns;
    let posts = grid.posts;
    let mut base = HEADER_BYTES;
    let mut found = end(cell.len(), grid);
    'columns: for k in 0..columns {
        if cell.len() - base < size {
            found = Err(Refusal::Cut(base));
            break 'columns;
        }
        let next = base + size;
        let column = &cell[base..next];
        let measured = measure(column, posts, voids);
        judge_head(column, k, posts, base, measured.sum)?;
        for i in search_from(measured, posts)..posts {
            let at = word_at(i);
            if !is_allowed(be16(column, at), voids) {
                found = Err(Refusal::Word(base + at));
                break 'columns;
            }
        }
        base = next;
    }
    found
}

// Intake by the rules of a year.
fn intake_under(year: Year, cell: &[u8]) -> Result<Verdict, Refusal>
    ensures { told.told told.intake result ≡ taken year cell.now }
{
    let facts = judge(cell)?;
    take_columns(cell, frame_of(year, facts))
}

// Accepted with level, columns and posts, or refused with the first fault; any number for the rule year, and any bytes.
pub fn intake(named: u32, cell: &[u8]) -> Result<Verdict, Refusal>
    ensures { told.told told.intake result ≡ under named (λ year. taken year cell.now) }
{
    let year = Year::try_from(named)?;
    intake_under(year, cell)
}
