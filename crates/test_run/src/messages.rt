// A message: its number among the parts, its listing, whether it tells the same as the part before it, and what writing its record into a
// buffer one byte too short answers, or where it went wrong.
use crate::output::{print, print_digits, print_place};
use listing::list;
use notice::{read, same, write};
use record::Record;
use std::io;

const LONGEST_LISTING: usize = 8192;

fn print_listing(rt: &impl Print, message: &[u8]) -> io::Result<()> {
    let mut text = [0; LONGEST_LISTING];
    let n = list(message, &mut text);
    if n <= LONGEST_LISTING {
        print(rt, &text[0..n])?;
    }
    Ok(())
}

fn print_same(rt: &impl Print, message: &[u8], before: &[u8]) -> io::Result<()> {
    if same(message, before) {
        return print(rt, b"SAME\n");
    }
    print(rt, b"DIFFERENT\n")
}

// A record that was read is written; into one byte less it is not.
fn print_short(rt: &impl Print, record: Record) -> io::Result<()> {
    let mut text = [0; LONGEST_LISTING];
    let whole = write(record, &mut text);
    let n = whole.length;
    if n == 0 {
        return Ok(());
    }
    let end = n - 1;
    if LONGEST_LISTING < end {
        return Ok(());
    }
    let short = write(record, &mut text[0..end]);
    print_digits(rt, 2, short.refusal as u32)?;
    print(rt, b"\n")
}

pub fn print_message(
    rt: &impl Print,
    number: u32,
    message: &[u8],
    before: &[u8],
) -> io::Result<()> {
    print(rt, b"#")?;
    print_digits(rt, 4, number)?;
    print(rt, b"\n")?;
    print_listing(rt, message)?;
    print_same(rt, message, before)?;
    let r = read(message);
    if r.refusal == 0 {
        let record = r.record;
        return print_short(rt, record);
    }
    print(rt, b"AT")?;
    print_place(rt, r.place)?;
    print(rt, b"\n")
}
