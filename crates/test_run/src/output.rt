// Texts and numbers, printed.
use fill::put_digits;
use std::io;
use text::LONGEST;

const MOST_DIGITS: usize = 4;

pub fn print(rt: &impl Print, text: &[u8]) -> io::Result<()> {
    rt.write_all(text)
}

// The last `count` digits of a number.
pub fn print_digits(rt: &impl Print, count: u8, n: u32) -> io::Result<()> {
    let mut text = [0; MOST_DIGITS];
    let end = put_digits(&mut text, 0, count, n);
    if end <= MOST_DIGITS {
        print(rt, &text[0..end])?;
    }
    Ok(())
}

// Where a message or a row's text went wrong, behind a space.
pub fn print_place(rt: &impl Print, place: usize) -> io::Result<()> {
    if place <= LONGEST {
        print(rt, b" ")?;
        print_digits(rt, 4, place as u32)?;
    }
    Ok(())
}
