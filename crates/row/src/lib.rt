// A runway row and its rules; the agreement check.

#![tactic(auto)]

ghost use Rattle.std.specs.Prelude.{◌≡◌, ◌≤◌};
ghost use Rattle.row.specs.Row.{blank_row, is_blank_row, valid_row, same_runway, is_bare, is_short};
ghost use Rattle.row.specs.Agreement.{disagreements, agreement};

use runway::{real_time, valid_runway};
use surface::description::DRY;
use surface::{BLANK_THIRD, Third, agrees, is_blank_third, valid_third};
use text::refusal::Refusal;

// In every field 0 stands for NR and for what is missing.
#[repr(C)]
#[derive(Clone, Copy, PartialEq, Eq)]
pub struct Row {
    // MMDDhhmm as a number
    pub time: u32,
    pub number: u8,
    // 0 none, 1 L, 2 C, 3 R
    pub side: u8,
    pub thirds: [Third; 3],
    pub width: u8,
}

// ---- The rules of a row

pub const HIGHEST_RUNWAY: u8 = 18;

pub const GREATEST_WIDTH: u8 = 99;

pub fn valid_row(r: Row) -> bool
    ensures { result ≡ valid_row r }
{
    real_time(r.time)
        && valid_runway(HIGHEST_RUNWAY, r.number, r.side)
        && r.width <= GREATEST_WIDTH
        && r.thirds.iter().all(|&t| valid_third(t))
}

pub fn blank_row() -> Row
    ensures { result ≡ blank_row }
{
    Row {
        time: 0,
        number: 0,
        side: 0,
        thirds: [BLANK_THIRD; 3],
        width: 0,
    }
}

pub fn is_blank_row(r: Row) -> bool
    ensures { result ≡ is_blank_row r }
{
    r.time == 0
        && r.number == 0
        && r.side == 0
        && r.width == 0
        && r.thirds.iter().all(|&t| is_blank_third(t))
}

fn is_bare(t: Third) -> bool
    ensures { result ≡ is_bare t }
{
    t.coverage == 0 && t.depth == 0
}

// No coverage and no depth, and all codes 6 or all descriptions DRY.
pub fn is_short(r: Row) -> bool
    ensures { result ≡ is_short r.thirds }
{
    r.thirds.iter().all(|&t| is_bare(t))
        && (r.thirds.iter().all(|t| t.code == 6) || r.thirds.iter().all(|t| t.description == DRY))
}

pub fn same_runway(a: Row, b: Row) -> bool
    ensures { result ≡ same_runway a b }
{
    a.number == b.number && a.side == b.side
}

// ---- Agreement with Table 1

#[repr(C)]
#[derive(Clone, Copy)]
pub struct Agreement {
    // 0 for a row that is judged, else 19; stays: C interface
    pub refusal: u8,
    pub count: u8,
}

// How many of a row's thirds have a code that Table 1 does not allow, whether or not the row is valid.
pub fn disagreements(r: Row) -> u8
    ensures { (result ≡ disagreements r.thirds) × (result ≤ 3) }
{
    r.thirds.iter().filter(|&&t| !agrees(t)).count() as u8
}

// The same of a valid row; any other is refused.
pub fn disagreeing(row: Row) -> Agreement
    ensures { result ≡ agreement row }
{
    if !valid_row(row) {
        return Agreement {
            refusal: Refusal::InvalidRow.number(),
            count: 0,
        };
    }
    Agreement {
        refusal: 0,
        count: disagreements(row),
    }
}
