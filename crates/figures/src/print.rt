// Lines of words and numbers on standard output.
use std::fmt::Display;
use std::io;

// Each number with a blank before it.
pub fn numbers<T: Display>(rt: &impl Print, numbers: &[T]) -> io::Result<()> {
    for n in numbers {
        print!(rt; " {n}")?;
    }
    Ok(())
}

// A line of words, and then numbers.
pub fn line<T: Display>(rt: &impl Print, words: &str, row: &[T]) -> io::Result<()> {
    print!(rt; "{words}")?;
    numbers(rt, row)?;
    println!(rt)
}
