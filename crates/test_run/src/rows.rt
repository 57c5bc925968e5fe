// A row's text: the refusal and its place; or 0, how many thirds disagree with Table 1, and the row's own text.
use crate::output::{print, print_digits, print_place};
use row::{Row, disagreeing};
use rowtext::{LONGEST_ROW, read_row, write_row};
use std::io;
use text::LONGEST;

fn print_canonical(rt: &impl Print, row: Row) -> io::Result<()> {
    let mut text = [0; LONGEST_ROW];
    let n = write_row(&mut text, row);
    if n <= LONGEST_ROW {
        print(rt, &text[0..n])?;
    }
    Ok(())
}

fn print_taken(rt: &impl Print, row: Row) -> io::Result<()> {
    let a = disagreeing(row);
    print(rt, b" ")?;
    print_digits(rt, 1, a.count as u32)?;
    print(rt, b" ")?;
    print_canonical(rt, row)
}

pub fn print_row(rt: &impl Print, text: &[u8]) -> io::Result<()> {
    if LONGEST < text.len() {
        return print(rt, b"05\n");
    }
    let r = read_row(text);
    print_digits(rt, 2, r.refusal as u32)?;
    if r.refusal == 0 {
        let row = r.row;
        print_taken(rt, row)?;
    } else {
        print_place(rt, r.place)?;
    }
    print(rt, b"\n")
}
