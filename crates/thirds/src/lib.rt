// The groups of thirds of a runway row's text: codes, coverages, depths and descriptions, joined by `/`.

#![tactic(auto)]

ghost use Rattle.std.specs.Prelude.{◌≡◌, drop};
ghost use Rattle.text.specs.Piece.{canonical};
ghost use Rattle.text.specs.Numbers.{read_number};
ghost use Rattle.text.specs.Code.Held.{Held};
ghost use Rattle.text.specs.Read.{read_after};
ghost use Rattle.text.specs.Names.{read_name};
ghost use Rattle.text.specs.Put.{Put};
ghost use Rattle.surface.specs.Descriptions.{description_name};
ghost use Rattle.thirds.specs.Groups.{measure_pieces, read_measure, read_coverage, read_description, third_pieces, read_third, group_pieces, read_group};
ghost use Rattle.thirds.specs.Code.Begin.{beginning};
ghost use Rattle.thirds.specs.Code.Held.{HeldThree, three, joint_text};

use fill::{put, put_digits};
use scan::{digits, word};
use surface::description::{
    COMPACTED_SNOW, DRY, DRY_SNOW, DRY_SNOW_ON_COMPACTED_SNOW, DRY_SNOW_ON_ICE, FROST, ICE, NR,
    SLUSH, STANDING_WATER, WATER_ON_COMPACTED_SNOW, WET, WET_ICE, WET_SNOW,
    WET_SNOW_ON_COMPACTED_SNOW, WET_SNOW_ON_ICE,
};
use text::Found;

// The groups, in the order in which they stand.
#[derive(Clone, Copy, PartialEq, Eq)]
pub enum Group {
    Codes,
    Coverages,
    Depths,
    Descriptions,
}

// A number for each third, and the place behind them.
#[derive(Clone, Copy)]
pub struct Trio {
    pub numbers: [u32; 3],
    pub next: usize,
}

// ---- Descriptions

// The texts of the descriptions, in the order of their numbers: the reader compares each at its place in the line, the writer copies it.
static NAMES: [&[u8]; 16] = [
    b"NR",
    b"COMPACTED SNOW",
    b"DRY SNOW",
    b"DRY SNOW ON TOP OF COMPACTED SNOW",
    b"DRY SNOW ON TOP OF ICE",
    b"FROST",
    b"ICE",
    b"SLUSH",
    b"STANDING WATER",
    b"WATER ON TOP OF COMPACTED SNOW",
    b"WET",
    b"WET ICE",
    b"WET SNOW",
    b"WET SNOW ON TOP OF COMPACTED SNOW",
    b"WET SNOW ON TOP OF ICE",
    b"DRY",
];

// The text of a description; past DRY there is none.
fn name(d: u32) -> &'static [u8]
    ensures { result.now ≡ description_name d }
{
    NAMES.get(d as usize).copied().unwrap_or(b"")
}

// ---- Reading

// The byte that stands there says which descriptions can; a longer one is tried before each that it begins with.
#[tactic(auto, using(crate::proofs::Descriptions::by_byte, crate::proofs::Descriptions::by_end), unfolding(crate::specs::Code::Begin::beginning, text::specs::Names::read_name))]
fn description(s: &[u8], i: usize) -> Option<Found>
    ensures { Held s.now (read_description (drop i s.now)) result }
{
    let at = |d: u8| word(s, i, name(u32::from(d)), u32::from(d));
    match s.get(i)? {
        b'N' => at(NR),
        b'C' => at(COMPACTED_SNOW),
        b'D' => at(DRY_SNOW_ON_COMPACTED_SNOW)
            .or_else(|| at(DRY_SNOW_ON_ICE))
            .or_else(|| at(DRY_SNOW))
            .or_else(|| at(DRY)),
        b'F' => at(FROST),
        b'I' => at(ICE),
        b'S' => at(SLUSH).or_else(|| at(STANDING_WATER)),
        b'W' => at(WATER_ON_COMPACTED_SNOW)
            .or_else(|| at(WET_SNOW_ON_COMPACTED_SNOW))
            .or_else(|| at(WET_SNOW_ON_ICE))
            .or_else(|| at(WET_SNOW))
            .or_else(|| at(WET_ICE))
            .or_else(|| at(WET)),
        _ => None,
    }
}

// Two digits, and three from 100 on.
fn number(s: &[u8], i: usize) -> Option<Found>
    ensures { Held s.now (read_number 2 (drop i s.now)) result }
{
    digits(s, i, 3)
        .filter(|f| 100 <= f.value)
        .or_else(|| digits(s, i, 2))
}

// NR, or a number that is not 0.
#[tactic(auto, unfolding(crate::specs::Groups::read_measure))]
fn measure(s: &[u8], i: usize) -> Option<Found>
    ensures { Held s.now (read_measure (drop i s.now)) result }
{
    word(s, i, b"NR", 0).or_else(|| number(s, i).filter(|f| 1 <= f.value))
}

// NR, or a number up to 100.
#[tactic(auto, unfolding(crate::specs::Groups::read_coverage))]
fn coverage(s: &[u8], i: usize) -> Option<Found>
    ensures { Held s.now (read_coverage (drop i s.now)) result }
{
    measure(s, i).filter(|f| f.value <= 100)
}

#[tactic(auto, unfolding(crate::specs::Groups::read_third))]
fn third(group: Group, s: &[u8], i: usize) -> Option<Found>
    ensures { Held s.now (read_third group (drop i s.now)) result }
{
    match group {
        Group::Codes => digits(s, i, 1),
        Group::Coverages => coverage(s, i),
        Group::Depths => measure(s, i),
        Group::Descriptions => description(s, i),
    }
}

// The third at the place `k` of a group, behind what parts it from what stands before it: a gap the first, `/` each other.
fn third_behind(k: usize, group: Group, s: &[u8], i: usize) -> Option<Found>
    ensures { Held s.now (read_after (joint_text k) (read_third group) (drop i s.now)) result }
{
    let joint: &[u8] = if k == 0 { b" " } else { b"/" };
    let f = word(s, i, joint, 0)?;
    third(group, s, f.next)
}

// The numbers of a group of thirds that stands at `i` behind a gap. One loop reads all three, so that the code for a third stands once and without a call.
pub fn read_group(group: Group, s: &[u8], i: usize) -> Option<Trio>
    ensures { HeldThree s.now (read_group group (drop i s.now)) result }
{
    let mut numbers = [0; 3];
    let mut next = i;
    for k in 0..3 {
        let found = third_behind(k, group, s, next)?;
        numbers[k] = found.value;
        next = found.next;
    }
    Some(Trio { numbers, next })
}

// ---- Writing

// NR, or two digits, and three from 100 on.
#[tactic(auto, unfolding(crate::specs::Groups::measure_pieces, text::specs::Piece::spell))]
fn put_measure(x: u32, out: &mut [u8], at: usize) -> usize
    ensures { Put at (canonical (measure_pieces x)) out.old out.new result }
{
    match x {
        0 => put(out, at, b"NR"),
        1..100 => put_digits(out, at, 2, x),
        _ => put_digits(out, at, 3, x),
    }
}

#[tactic(auto, using(crate::proofs::Descriptions::spelled), unfolding(crate::specs::Groups::third_pieces))]
fn put_third(group: Group, x: u32, out: &mut [u8], at: usize) -> usize
    ensures { Put at (canonical (third_pieces group x)) out.old out.new result }
{
    match group {
        Group::Codes => put_digits(out, at, 1, x),
        Group::Coverages | Group::Depths => put_measure(x, out, at),
        Group::Descriptions => put(out, at, name(x)),
    }
}

// Puts a space and the three numbers in the text of their group, and answers the place behind them.
pub fn put_group(group: Group, out: &mut [u8], at: usize, numbers: [u32; 3]) -> usize
    ensures { Put at (canonical (group_pieces group (three numbers))) out.old out.new result }
{
    let [a, b, c] = numbers;
    let at = put(out, at, b" ");
    let at = put_third(group, a, out, at);
    let at = put(out, at, b"/");
    let at = put_third(group, b, out, at);
    let at = put(out, at, b"/");
    put_third(group, c, out, at)
}
