// Prints the factor book from the curves, one number a line: every class but 5, every quantity and every whole speed from 10 to
// 130, in that order. Its stored output is the book, of which tools/book.py makes the constant.
#![tactic(auto)]

use std::io;

fn main(rt: HostRuntime) -> io::Result<()> {
    for i in 0..3630 {
        println!(rt; "{}", book_entries::entry_of(i))?;
    }
    Ok(())
}
