// The rows of a notice.
// Lines are read at their place in the message; each writer of a line gets the rest of the buffer.

#![tactic(auto)]

ghost use Rattle.std.specs.Prelude.{◌≡◌, [], map};
ghost use Rattle.text.specs.Choice.{all};
ghost use Rattle.text.specs.Lines.{under};
ghost use Rattle.text.specs.Put.{Put};
ghost use Rattle.row.specs.Row.{valid_row, is_blank_row};
ghost use Rattle.rowtext.specs.Text.{row_pieces};
ghost use Rattle.body.specs.Rows.{is_among, new_runways, latest_of, latest, rows_of, make_rows, valid_rows};
ghost use Rattle.body.specs.Code.Held.{LineHeld, RowsHeld};

use fill::{line_under, told_behind};
use row::{Row, blank_row, is_blank_row, same_runway, valid_row};
use rowtext::{find_row, put_any_row};
use runway::is_later;
use scan::spaces;
use text::refusal::{Fault, Refusal};
use text::{first_line, is_closed, line_text};

// 1 to 8 rows, zeros past the count.
#[repr(C)]
#[derive(Clone, Copy)]
pub struct Rows {
    pub count: u8,
    pub rows: [Row; 8],
}

// The rows of a message: `)` closed them, or what follows them starts at `next`.
#[derive(Clone, Copy)]
pub struct RowsFound {
    pub rows: Rows,
    pub closed: bool,
    pub next: usize,
}

pub const MOST_ROWS: u8 = 8;

// How many digits a row's time has.
const TIME_SIZE: usize = 8;

impl Rows {
    // The rows up to the count; of a count above eight, all eight.
    pub fn shown(&self) -> &[Row]
        ensures { result.now ≡ rows_of self.now }
    {
        &self.rows[..self.count.min(MOST_ROWS) as usize]
    }
}

// Whether the runway of `r` is one of those of `rows`.
pub fn is_among(r: Row, rows: &[Row]) -> bool
    ensures { result ≡ is_among r rows.now }
{
    rows.iter().any(|&s| same_runway(s, r))
}

pub fn all_valid(rows: &[Row]) -> bool
    ensures { result ≡ all valid_row rows.now }
{
    rows.iter().all(|&r| valid_row(r))
}

pub fn all_new(rows: &[Row]) -> bool
    ensures { result ≡ new_runways [] rows.now }
{
    for (i, &r) in rows.iter().enumerate() {
        if is_among(r, &rows[..i]) {
            return false;
        }
    }
    true
}

pub fn all_blank(rows: &[Row]) -> bool
    ensures { result ≡ all is_blank_row rows.now }
{
    rows.iter().all(|&r| is_blank_row(r))
}

// 1 to 8 valid rows, no runway twice, zeros past the count.
#[tactic(auto, using(text::specs::Laws::Tests::and_is, crate::proofs::Loops::rest_all), unfolding(crate::specs::Rows::valid_rows))]
pub fn valid_rows(r: Rows) -> bool
    ensures { result ≡ valid_rows r }
{
    1 <= r.count
        && r.count <= MOST_ROWS
        && all_valid(r.shown())
        && all_new(r.shown())
        && all_blank(&r.rows[r.count as usize..])
}

// Of two times the later.
#[tactic(auto, unfolding(crate::specs::Rows::latest_of))]
pub fn later_of(t: u32, s: u32) -> u32
    ensures { result ≡ latest_of t s }
{
    if is_later(s, t) { s } else { t }
}

// The latest row time; 0 where there is no row.
pub fn latest_time(r: Rows) -> u32
    ensures { result ≡ latest (rows_of r) }
{
    match r.shown() {
        [] => 0,
        [first, rest @ ..] => rest.iter().fold(first.time, |t, s| later_of(t, s.time)),
    }
}

// A line in a row's place: its row, and whether `)` closes it.
#[derive(Clone, Copy)]
struct RowLine {
    row: Row,
    closed: bool,
}

fn row_line(line: &[u8]) -> Result<RowLine, Fault>
    ensures { LineHeld line.now result }
{
    let row = find_row(line_text(line))?;
    Ok(RowLine {
        row,
        closed: is_closed(line),
    })
}

pub fn blank_rows() -> Rows
    ensures { result ≡ make_rows [] }
{
    Rows {
        count: 0,
        rows: [blank_row(); 8],
    }
}

// The rows at the front of `m`, line by line: the first line that does not fit decides. 4: none stands there; 6: a ninth; 5, 24 to 28: no row;
// 7: its runway is one of those before it. A line is told at its first byte, a row at the group at fault, and bytes after the end at the first.
pub fn read_rows(m: &[u8]) -> Result<RowsFound, Fault>
    ensures { RowsHeld m.now result }
{
    let mut rows = blank_rows();
    let mut at = 0;
    'lines: loop {
        let start = at;
        if m.len() <= start {
            break 'lines Err(Refusal::Outline.at(start));
        }
        let line = first_line(&m[start..]);
        at += line.next;
        if line.size == 0 {
            // an empty line ends the rows
            break 'lines if rows.count == 0 {
                Err(Refusal::Outline.at(start))
            } else {
                Ok(RowsFound {
                    rows,
                    closed: false,
                    next: at,
                })
            };
        }
        if MOST_ROWS <= rows.count {
            break 'lines Err(Refusal::NinthRow.at(start));
        }
        let read = match row_line(&m[start..start + line.size]) {
            Ok(read) => read,
            Err(fault) => break 'lines Err(fault.refusal.at(start + fault.place)),
        };
        if is_among(read.row, rows.shown()) {
            // behind the time
            break 'lines Err(Refusal::RunwayTwice.at(spaces(m, start + TIME_SIZE)));
        }
        rows.rows[rows.count as usize] = read.row;
        rows.count += 1;
        if read.closed {
            // nothing follows the row that `)` closes
            break 'lines if at < m.len() {
                Err(Refusal::Outline.at(at))
            } else {
                Ok(RowsFound {
                    rows,
                    closed: true,
                    next: 0,
                })
            };
        }
    }
}

// ---- Writing

// Puts the rows, each under the line before it, and judges none: a record that is written was read or judged before.
pub fn put_rows(out: &mut [u8], at: usize, r: Rows) -> usize
    ensures { Put at (under (map row_pieces (rows_of r))) out.old out.new result }
{
    let mut behind = told_behind(out, at, 0);
    for &row in r.shown() {
        behind = line_under(out, behind, |rest| put_any_row(rest, row));
    }
    behind
}
