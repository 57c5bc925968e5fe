// A radio record for the inspection cars, whose link carries few bytes: rows as numbers in groups of seven bits.

#![tactic(auto)]

ghost use Rattle.std.specs.Prelude.{◌≡◌, [], true, ◌+◌, ◌-◌, ◌*◌, ◌<◌, ◌≤◌, leb, length};
ghost use Rattle.text.specs.Put.{Put};
ghost use Rattle.text.specs.Code.Writes.{as_written};
ghost use Rattle.runway.specs.Time.{real_time};
ghost use Rattle.row.specs.Row.{valid_row};
ghost use Rattle.body.specs.Rows.{most_rows};
ghost use Rattle.radio.specs.Number.{number_bytes, read_number};
ghost use Rattle.radio.specs.Minutes.{year_minutes, days_in, date_of, minutes_of, time_of};
ghost use Rattle.radio.specs.Fields.{number_of, may_be, fill};
ghost use Rattle.radio.specs.Record.{row_bytes, sendable, read_row, read_rows, radio_record};
ghost use Rattle.radio.specs.Answers.{answer, radio_reading, WroteRadio};
ghost use Rattle.radio.specs.Code.Held.{of_row, HeldNumber, HeldRow, as_radio};

use Field::{Code, Coverage, Depth, Description, Minutes, Runway, Width};
use body::{MOST_ROWS, Rows, all_new, all_valid, blank_rows, is_among};
use fill::{put, told_behind};
use row::{GREATEST_WIDTH, Row, blank_row, valid_row};
use runway::days_of;
use surface::GREATEST_DEPTH;
use surface::description::DRY;
use text::refusal::Refusal;
use text::{Found, Written};

// The rows of a record, or why they are none.
#[repr(C)]
#[derive(Clone, Copy)]
pub struct Radio {
    // 0 for a record that is read; stays: C interface
    pub refusal: u8,
    pub rows: Rows,
}

// ---- A number

// The high bit of a group: another one follows.
const MORE: u8 = 128;

// A group holds a number below this.
const GROUP: u32 = 128;

// The number of a group that has its high bit set and of the groups above it.
fn above(group: u8, high: u32) -> u32
    requires { (128 ≤ group) × (high < 65536) }
    ensures { result ≡ group - 128 + 128 * high }
{
    u32::from(group - MORE) + GROUP * high
}

// A number has up to three groups, low group first, and none more than it needs.
fn read_number(s: &[u8]) -> Result<Found, Refusal>
    ensures { HeldNumber s.now (read_number s.now) result }
{
    match *s {
        [a, ..] if a < MORE => Ok(Found {
            value: u32::from(a),
            next: 1,
        }),
        [_, b, ..] if b == 0 => Err(Refusal::NumberForm),
        [a, b, ..] if b < MORE => Ok(Found {
            value: above(a, u32::from(b)),
            next: 2,
        }),
        [_, _, c, ..] if c == 0 => Err(Refusal::NumberForm),
        [a, b, c, ..] if c < MORE => Ok(Found {
            value: above(a, above(b, u32::from(c))),
            next: 3,
        }),
        [_, _, _, ..] => Err(Refusal::NumberForm),
        _ => Err(Refusal::RecordCutShort),
    }
}

// ---- Minutes

const DAY_MINUTES: u32 = 1440;

// 366 days.
const YEAR_MINUTES: u32 = 527040;

// MMDD of a day of a leap year, counted from 0.
fn date_of(day: u32) -> u32
    requires { day < 366 }
    ensures { result ≡ date_of day }
{
    let mut left = day;
    for month in 1..12 {
        let days = days_of(month);
        if left < days {
            return month * 100 + (left + 1);
        }
        left -= days;
    }
    1200 + (left + 1)
}

// MMDDhhmm of a minute of a leap year.
fn time_of(x: u32) -> u32
    requires { x < year_minutes }
    ensures { result ≡ time_of x }
{
    let date = date_of(x / DAY_MINUTES);
    let minute = x % DAY_MINUTES;
    date * 10000 + (minute / 60 * 100 + minute % 60)
}

// The days of a leap year before a month.
fn days_before(month: u32) -> u32
    requires { (1 ≤ month) × (month ≤ 12) }
    ensures { (result ≡ days_in (month - 1)) × (result ≤ 341) }
{
    let mut days: u32 = 0;
    for m in 1..month {
        days += days_of(m);
    }
    days
}

// The minutes from 1 January 00:00 of a leap year to a time MMDDhhmm.
fn minutes_of(t: u32) -> u32
    requires { real_time t ≡ true }
    ensures { result ≡ minutes_of t }
{
    let days = days_before(t / 1000000) + (t / 10000 % 100 - 1);
    let hhmm = t % 10000;
    days * DAY_MINUTES + (hhmm / 100 * 60 + hhmm % 100)
}

// ---- A row's numbers

// What a number of a row says; of a third, counted from 0.
#[derive(Clone, Copy)]
pub enum Field {
    Minutes,
    Runway,
    Code(usize),
    Coverage(usize),
    Depth(usize),
    Description(usize),
    Width,
}

const FIELDS: usize = 15;

// The one order of a row's numbers.
const ORDER: [Field; FIELDS] = [
    Minutes,
    Runway,
    Code(0),
    Code(1),
    Code(2),
    Coverage(0),
    Coverage(1),
    Coverage(2),
    Depth(0),
    Depth(1),
    Depth(2),
    Description(0),
    Description(1),
    Description(2),
    Width,
];

// Runways 01 to 18R, each number times four.
const LEAST_RUNWAY: u32 = 4;

const GREATEST_RUNWAY: u32 = 75;

// What the number alone may be.
#[tactic(auto, using(text::specs::Laws::Tests::and_is))]
fn may_be(field: Field, x: u32) -> bool
    ensures { result ≡ may_be field x }
{
    match field {
        Minutes => x < YEAR_MINUTES,
        Runway => (LEAST_RUNWAY..=GREATEST_RUNWAY).contains(&x),
        Code(_) => x <= 6,
        Coverage(_) => x <= 4,
        Depth(_) => x == 0 || (3..=GREATEST_DEPTH).contains(&x),
        Description(_) => x <= u32::from(DRY),
        Width => x <= u32::from(GREATEST_WIDTH),
    }
}

// The row with a number in its place.
fn filled(mut row: Row, field: Field, x: u32) -> Row
    requires { (may_be field x ≡ true) × (of_row field ≡ true) }
    ensures { result ≡ fill row field x }
{
    match field {
        Minutes => row.time = time_of(x),
        Runway => {
            row.number = (x / 4) as u8;
            row.side = (x % 4) as u8;
        }
        Code(i) => row.thirds[i].code = x as u8,
        Coverage(i) => row.thirds[i].coverage = (x * 25) as u8,
        Depth(i) => row.thirds[i].depth = x as u16,
        Description(i) => row.thirds[i].description = x as u8,
        Width => row.width = x as u8,
    }
    row
}

// The number that stands for a field of a valid row.
fn number_of(row: Row, field: Field) -> u32
    requires { (valid_row row ≡ true) × (of_row field ≡ true) }
    ensures { result ≡ number_of row field }
{
    match field {
        Minutes => minutes_of(row.time),
        Runway => u32::from(row.number) * 4 + u32::from(row.side),
        Code(i) => u32::from(row.thirds[i].code),
        Coverage(i) => u32::from(row.thirds[i].coverage / 25),
        Depth(i) => u32::from(row.thirds[i].depth),
        Description(i) => u32::from(row.thirds[i].description),
        Width => u32::from(row.width),
    }
}

// ---- Reading

// The row at the front of a record, and the place behind it.
#[derive(Clone, Copy)]
struct RowFound {
    row: Row,
    next: usize,
}

// Each number is judged when it is complete, the row behind its width.
fn read_row(s: &[u8]) -> Result<RowFound, Refusal>
    ensures { HeldRow s.now (read_row s.now) result }
{
    let mut row = blank_row();
    let mut at = 0;
    for field in ORDER {
        let found = read_number(&s[at..])?;
        if !may_be(field, found.value) {
            return Err(Refusal::RadioValue);
        }
        row = filled(row, field, found.value);
        at += found.next;
    }
    if !valid_row(row) {
        return Err(Refusal::RadioValue);
    }
    Ok(RowFound { row, next: at })
}

// So many rows and nothing behind them, no runway twice.
fn read_rows(m: &[u8], count: u8) -> Result<Rows, Refusal>
    requires { count ≤ most_rows }
    ensures { as_radio result ≡ answer (read_rows count [] m.now) }
{
    let mut rows = [blank_row(); 8];
    let mut at = 0;
    for k in 0..usize::from(count) {
        let found = read_row(&m[at..])?;
        if is_among(found.row, &rows[..k]) {
            return Err(Refusal::RadioValue);
        }
        rows[k] = found.row;
        at += found.next;
    }
    if at < m.len() {
        return Err(Refusal::RadioValue);
    }
    Ok(Rows { count, rows })
}

// The count, and as many rows.
fn read_record(m: &[u8]) -> Result<Rows, Refusal>
    ensures { as_radio result ≡ radio_reading m.now }
{
    let Found { value: count, next } = read_number(m)?;
    if !(1..=u32::from(MOST_ROWS)).contains(&count) {
        return Err(Refusal::RadioValue);
    }
    read_rows(&m[next..], count as u8)
}

// The rows of a record, or the refusal first met from the left: 30 cut short, 31 a number not in its own groups, 32 anything else.
pub fn read_radio(bytes: &[u8]) -> Radio
    ensures { result ≡ radio_reading bytes.now }
{
    match read_record(bytes) {
        Ok(rows) => Radio { refusal: 0, rows },
        Err(refusal) => Radio {
            refusal: refusal.number(),
            rows: blank_rows(),
        },
    }
}

// ---- Writing

// Puts a number in its groups.
fn put_number(out: &mut [u8], at: usize, x: u32) -> usize
    requires { x < 2097152 }
    ensures { Put at (number_bytes x) out.old out.new result }
{
    if x < GROUP {
        return put(out, at, &[x as u8]);
    }
    let low = (x % GROUP) as u8 + MORE;
    let y = x / GROUP;
    if y < GROUP {
        return put(out, at, &[low, y as u8]);
    }
    put(out, at, &[low, (y % GROUP) as u8 + MORE, (y / GROUP) as u8])
}

fn put_row(out: &mut [u8], at: usize, row: Row) -> usize
    requires { valid_row row ≡ true }
    ensures { Put at (row_bytes row) out.old out.new result }
{
    let mut behind = told_behind(out, at, 0);
    for field in ORDER {
        behind = put_number(out, behind, number_of(row, field));
    }
    behind
}

// Rows that were judged: 1 to 8 valid ones, no runway twice.
#[derive(Clone, Copy)]
struct Sendable<'a> {
    rows: &'a [Row],
    ghost sendable: { sendable rows.now ≡ true },
}

// The size that is enough for every record: 1 for the count, 20 for each row.
pub const LONGEST_RECORD: usize = 161;

impl Sendable<'_> {
    // Puts the record of the rows: their count, and one after the other.
    fn put(&self, out: &mut [u8]) -> usize
        ensures { Put 0 (radio_record self.now.rows.now) out.old out.new result }
    {
        let mut behind = put_number(out, 0, self.rows.len() as u32);
        for &row in self.rows {
            behind = put_row(out, behind, row);
        }
        behind
    }

    // How many bytes the record has.
    fn size(&self) -> usize
        ensures { result ≡ length (radio_record self.now.rows.now) }
    {
        self.put(&mut [0; 1])
    }

    // The record fits into so many bytes: the longest is known, and only a shorter buffer is measured against the record.
    // stays: tried; a closure that captures this list tells `fill::has_room` nothing of what it puts
    fn has_room(&self, room: usize) -> bool
        ensures { result ≡ leb (length (radio_record self.now.rows.now)) room }
    {
        LONGEST_RECORD <= room || self.size() <= room
    }
}

// Judges the rows, puts their record and answers its length.
fn write_record(r: Rows, out: &mut [u8]) -> Result<usize, Refusal>
    ensures { WroteRadio r out.old out.new (as_written result) }
{
    let rows = r.shown();
    if !(1..=MOST_ROWS).contains(&r.count) {
        return Err(Refusal::RadioValue);
    }
    if !all_valid(rows) {
        return Err(Refusal::InvalidRow);
    }
    if !all_new(rows) {
        return Err(Refusal::RadioValue);
    }
    let list = Sendable { rows };
    if !list.has_room(out.len()) {
        return Err(Refusal::BufferTooShort);
    }
    Ok(list.put(out))
}

// Writes the record of rows: 32 for no row or over eight, 19 for one that is not valid, 32 for a runway twice, 14 for a buffer that is too short.
// A refused writing touches no byte.
pub fn write_radio(r: Rows, out: &mut [u8]) -> Written
    ensures { WroteRadio r out.old out.new result }
{
    Written::from(write_record(r, out))
}
