// What a piece answers where a column of a known frame is due.
ghost use Rattle.std.specs.Prelude.{◌≡◌};
ghost use Rattle.answers.specs.Told as told;
ghost use Rattle.layout.specs.Ranges.{Ranged};
ghost use Rattle.steps.specs.Steps.{said_of_column};

use answers::{Refusal, Verdict};
use intake::end;
use layout::{Frame, HEADER_BYTES};

// What a piece answers where column `next` under the frame is due, or where none is left.
pub fn column_answer(frame: Frame, next: usize, piece: &[u8]) -> Result<Verdict, Refusal>
    requires { Ranged frame.grid }
    ensures { told.told told.intake result ≡ said_of_column frame next piece.now }
{
    let grid = frame.grid;
    let size = grid.bytes.column;
    if grid.columns <= next {
        return end(grid.bytes.cell + piece.len(), grid);
    }
    let base = HEADER_BYTES + next * size;
    if piece.len() < size {
        return Err(Refusal::Cut(base));
    }
    columns::judge(&piece[..size], next, grid.posts, frame.voids, base)?;
    Ok(Verdict::More)
}
