// When a new notice is due: what a new row of a runway changes against the row shown.

#![tactic(auto)]

ghost use Rattle.std.specs.Prelude.{◌≡◌};
ghost use Rattle.text.specs.Refusals.{number};
ghost use Rattle.due.specs.Third.{rise, size, is_significant, depth_counts, third_counts};
ghost use Rattle.due.specs.Change.{counts_of, is_due, compared, refused, change};

use row::{Row, same_runway, valid_row};
use std::array;
use surface::{Contaminant, Third, line_of};
use text::refusal::Refusal;

#[repr(C)]
#[derive(Clone, Copy)]
pub struct Change {
    // 0 for two rows that are compared; stays: C interface
    pub refusal: u8,
    // for each third whether its change counts
    pub counts: [bool; 3],
    // whether a new notice is due
    pub due: bool,
}

// ---- A third

// How far two depths lie apart, up or down.
// stays: document 01 has the size of the signed difference worked out by hand.
fn difference(old: u16, new: u16) -> u32
    ensures { result ≡ size (rise old new) }
{
    let rise = i32::from(new) - i32::from(old);
    if rise < 0 { -rise as u32 } else { rise as u32 }
}

fn is_significant(description: u8, difference: u32) -> bool
    ensures { result ≡ is_significant description difference }
{
    let line = line_of(description as u32);
    line.is_some_and(|Contaminant(_, _, figure)| figure as u32 <= difference)
}

fn depth_counts(description: u8, old: u16, new: u16) -> bool
    ensures { result ≡ depth_counts description old new }
{
    if old == 0 || new == 0 {
        return old != new;
    }
    is_significant(description, difference(old, new))
}

fn third_counts(old: Third, new: Third) -> bool
    ensures { result ≡ third_counts old new }
{
    old.code != new.code
        || old.coverage != new.coverage
        || old.description != new.description
        || depth_counts(new.description, old.depth, new.depth)
}

// ---- A row

fn refused(refusal: Refusal) -> Change
    ensures { result ≡ refused (number refusal) }
{
    Change {
        refusal: refusal.number(),
        counts: [false; 3],
        due: false,
    }
}

fn counts_of(old: Row, new: Row) -> [bool; 3]
    ensures { result ≡ counts_of old new }
{
    array::from_fn(|i| third_counts(old.thirds[i], new.thirds[i]))
}

fn compared(old: Row, new: Row) -> Change
    ensures { result ≡ compared (counts_of old new) (is_due old new) }
{
    let counts = counts_of(old, new);
    Change {
        refusal: 0,
        counts,
        due: counts.contains(&true) || old.width != new.width,
    }
}

// For each third whether its change counts and for the row whether a new notice is due; or 19 for a row that is not valid, 29 for different runways.
pub fn compare(old: Row, new: Row) -> Change
    ensures { result ≡ change old new }
{
    if !(valid_row(old) && valid_row(new)) {
        return refused(Refusal::InvalidRow);
    }
    if !same_runway(old, new) {
        return refused(Refusal::RunwaysDiffer);
    }
    compared(old, new)
}
