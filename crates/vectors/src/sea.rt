// 8000 hex at sea: a post so stored is judged, read, kept by the edit of another post of its column, and replaced by its own.
use crate::YEAR;
use octets::numbers::{be16, be32};
use posts::Post;
use std::io;

// The words of the first two posts of column 0, and its checksum.
fn print_column(rt: &impl Print, cell: &[u8]) -> io::Result<()> {
    if crate::CELL <= cell.len() {
        let first = be16(cell, 3436);
        let second = be16(cell, 3438);
        let sum = be32(cell, 3678);
        println!(rt; "words {first} {second} checksum {sum}")?;
    }
    Ok(())
}

// Whether lookup reads post 0 of column 0 as height 0.
fn print_post(rt: &impl Print, cell: &[u8]) -> io::Result<()> {
    if let Ok(Post::Height(0)) = lookup::look_up(YEAR, cell, 0, 0) {
        println!(rt; "height 0")?;
    }
    Ok(())
}

// Post 0 of column 0 stored as 8000 hex; then post 1 edited to 7, and post 0 to 0.
pub fn run(rt: &impl Print, cell: &mut [u8]) -> io::Result<()> {
    crate::put_word(cell, 0x8000);
    crate::judge(rt, cell, crate::CELL)?;
    print_post(rt, cell)?;
    print_column(rt, cell)?;
    let _ = edit::edit(YEAR, cell, 0, 1, 7);
    print_column(rt, cell)?;
    let _ = edit::edit(YEAR, cell, 0, 0, 0);
    print_column(rt, cell)?;
    print_post(rt, cell)
}
