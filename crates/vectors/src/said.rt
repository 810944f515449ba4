// What the headers of a cell say, printed: the thirteen items as numbers, and the accuracies as they stand.
use host_items::items::ITEMS;
use layout::HEADER_BYTES;
use std::io;

// The thirteen numbers in their order, on a line.
fn print_numbers(rt: &impl Print, numbers: &[i64]) -> io::Result<()> {
    print!(rt; "items")?;
    for z in numbers {
        print!(rt; " {z}")?;
    }
    println!(rt; "")
}

// What the headers of a cell say, as numbers.
pub fn print_items(rt: &impl Print, cell: &[u8]) -> io::Result<()> {
    if let Ok(d) = description::describe::describe(cell) {
        let mut numbers = [0i64; ITEMS];
        host_items::numbers::put_numbers(&mut numbers, d);
        print_numbers(rt, &numbers)?;
    }
    Ok(())
}

// The ACC accuracies as they stand in the cell, items 9 to 12.
pub fn print_accuracies(rt: &impl Print, cell: &[u8]) -> io::Result<()> {
    if HEADER_BYTES <= cell.len() {
        rt.write_all(&cell[731..747])?;
        println!(rt; "")?;
    }
    Ok(())
}
