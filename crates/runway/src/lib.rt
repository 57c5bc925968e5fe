// Observation times and runways: what a row, an item and a place of the board name.

#![tactic(auto)]

ghost use Rattle.std.specs.Prelude.{◌≡◌, drop};
ghost use Rattle.text.specs.Piece.{canonical, spell};
ghost use Rattle.text.specs.Put.{Put};
ghost use Rattle.runway.specs.Time.{is_short_month, days_of, real_day, real_clock, real_time, in_season, later};
ghost use Rattle.runway.specs.Runway.{side_name, valid_runway, runway_pieces, read_side, read_runway};
ghost use Rattle.runway.specs.Code.Held.{HeldSide, HeldRunway};

use fill::{put, put_digits};
use scan::digits;
use text::place;

// A runway that stands at a place of a text, and the place behind it.
#[derive(Clone, Copy)]
pub struct RunwayFound {
    pub number: u8,
    // 0 none, 1 L, 2 C, 3 R
    pub side: u8,
    pub next: usize,
}

#[tactic(auto, unfolding(crate::specs::Time::is_short_month))]
fn is_short_month(month: u32) -> bool
    ensures { result ≡ is_short_month month }
{
    matches!(month, 4 | 6 | 9 | 11)
}

// The days of a month, 29 February included.
#[tactic(auto, unfolding(crate::specs::Time::days_of))]
pub fn days_of(month: u32) -> u32
    ensures { result ≡ days_of month }
{
    if month == 2 {
        29
    } else if is_short_month(month) {
        30
    } else {
        31
    }
}

#[tactic(auto, using(text::specs::Laws::Tests::and_is), unfolding(crate::specs::Time::real_day))]
fn real_day(month: u32, day: u32) -> bool
    ensures { result ≡ real_day month day }
{
    1 <= month && month <= 12 && 1 <= day && day <= days_of(month)
}

// Hours 00 to 23 and minutes 00 to 59.
#[tactic(auto, using(text::specs::Laws::Tests::and_is), unfolding(crate::specs::Time::real_clock))]
pub fn real_clock(hhmm: u32) -> bool
    ensures { result ≡ real_clock hhmm }
{
    hhmm / 100 < 24 && hhmm % 100 < 60
}

// A time MMDDhhmm, as a number.
#[tactic(auto, using(text::specs::Laws::Tests::and_is), unfolding(crate::specs::Time::real_time))]
pub fn real_time(t: u32) -> bool
    ensures { result ≡ real_time t }
{
    real_day(t / 1000000, t / 10000 % 100) && real_clock(t % 10000)
}

// A season goes from 1 July to 30 June, so that a board and a notice may go on over New Year.
const SEASON_START: u32 = 7010000;

const TWELVE_MONTHS: u32 = 12000000;

// A time as it stands in its season: January to June follow December, as if they were months 13 to 18.
#[tactic(auto, using(text::specs::Laws::Tests::tests))]
fn in_season(t: u32) -> u32
    ensures { result ≡ in_season t }
{
    if t < SEASON_START {
        t + TWELVE_MONTHS
    } else {
        t
    }
}

// Whether `t` was observed later in the season than `s`.
#[tactic(auto, unfolding(crate::specs::Time::later))]
pub fn is_later(t: u32, s: u32) -> bool
    ensures { result ≡ later t s }
{
    in_season(s) < in_season(t)
}

// Numbers 01 to the highest; none, L, C or R.
#[tactic(auto, using(text::specs::Laws::Tests::and_is), unfolding(crate::specs::Runway::valid_runway))]
pub fn valid_runway(highest: u8, number: u8, side: u8) -> bool
    ensures { result ≡ valid_runway highest number side }
{
    1 <= number && number <= highest && side <= 3
}

// The side at `i`, perhaps none, and the place behind it.
fn side_at(s: &[u8], i: usize) -> (u8, usize)
    ensures { HeldSide s.now (read_side (drop i s.now)) result }
{
    match s.get(i) {
        Some(b'L') => (1, i + 1),
        Some(b'C') => (2, i + 1),
        Some(b'R') => (3, i + 1),
        _ => (0, place(s, i)),
    }
}

// The runway at `i`: any two digits, and its side.
pub fn read_runway(s: &[u8], i: usize) -> Option<RunwayFound>
    ensures { HeldRunway s.now (read_runway (drop i s.now)) result }
{
    let n = digits(s, i, 2)?;
    let (side, next) = side_at(s, n.next);
    Some(RunwayFound {
        number: n.value as u8,
        side,
        next,
    })
}

#[tactic(auto, unfolding(text::specs::Piece::spell))]
fn put_side(out: &mut [u8], at: usize, side: u8) -> usize
    ensures { Put at (canonical (spell (side_name side))) out.old out.new result }
{
    // stays: C interface: the side is a number
    match side {
        1 => put(out, at, b"L"),
        2 => put(out, at, b"C"),
        3 => put(out, at, b"R"),
        _ => put(out, at, b""),
    }
}

// Puts a runway's number in two digits, and its side.
pub fn put_runway(out: &mut [u8], at: usize, number: u8, side: u8) -> usize
    ensures { Put at (canonical (runway_pieces number side)) out.old out.new result }
{
    let at = put_digits(out, at, 2, u32::from(number));
    put_side(out, at, side)
}
