// The text of a runway row: read as a line, and put into a buffer.

#![tactic(auto)]

ghost use Rattle.std.specs.Prelude.{◌≡◌, ◌≤◌, length, drop, MatchOption};
ghost use Rattle.text.specs.Choice.{all};
ghost use Rattle.text.specs.Piece.{canonical};
ghost use Rattle.text.specs.Put.{Put};
ghost use Rattle.text.specs.Code.Held.{Held};
ghost use Rattle.runway.specs.Code.Held.{HeldRunway};
ghost use Rattle.surface.specs.Third.{valid_coverage, valid_depth};
ghost use Rattle.thirds.specs.Groups.{highest};
ghost use Rattle.thirds.specs.Code.Held.{three, HeldThree};
ghost use Rattle.thirds.specs.Laws.Groups.{Shown};
ghost use Rattle.rowtext.specs.Text.{field, group_of, middle_pieces, width_pieces, row_pieces};
ghost use Rattle.rowtext.specs.Reading.{parted, each, time_group, runway_group, find_row, row_answer};
ghost use Rattle.rowtext.specs.Writing.{row_text, WroteRow};
ghost use Rattle.rowtext.specs.Code.Filling.{RowFound, with_number, with_group, with_rest, may_stand, alone_group, full_rest, fill_group, Filled, FaultAt, Judged, HeldWidth};

use fill::{has_room, put, put_digits};
use row::{HIGHEST_RUNWAY, Row, blank_row, is_short, valid_row};
use runway::{RunwayFound, put_runway, read_runway, real_time, valid_runway};
use scan::{digits, spaces, word};
use surface::{Third, description, is_coverage, valid_coverage, valid_depth};
use text::Found;
use text::refusal::{Fault, Refusal};
use thirds::{Group, Trio, put_group, read_group};

// NR as a number that is read.
const NR: u32 = description::NR as u32;

// ---- Reading

// The parts of a row, in the order in which they stand: coverages, depths and descriptions are one, since a short row has the last alone.
#[derive(Clone, Copy)]
enum Part {
    Time,
    Runway,
    Codes,
    Rest,
    Width,
}

static PARTS: [Part; 5] = [
    Part::Time,
    Part::Runway,
    Part::Codes,
    Part::Rest,
    Part::Width,
];

// Places are counted within the part of the line that is handed over.

// A refusal of the part that should follow the place `at`: told at its first byte, or at the end where it is missing.
fn fault(refusal: Refusal, s: &[u8], at: usize) -> Fault
    ensures { FaultAt s.now (drop at s.now) refusal result }
{
    refusal.at(spaces(s, at))
}

// A space stands at the place, or the line ends there: what is glued to a group belongs to it.
#[tactic(auto, using(crate::proofs::Steps::parted_end, crate::proofs::Steps::parted_at))]
fn parted(s: &[u8], at: usize) -> bool
    ensures { result ≡ parted (drop at s.now) }
{
    s.len() <= at || s[at] == b' '
}

#[tactic(auto, unfolding(crate::specs::Reading::time_group))]
fn time_group(s: &[u8]) -> Option<Found>
    ensures { Held s.now (time_group s.now) result }
{
    digits(s, 0, 8).filter(|f| real_time(f.value) && parted(s, f.next))
}

// A time that is at fault is so at the line's first byte, whatever stands there.
#[tactic(auto, unfolding(crate::specs::Code::Filling::fill_group))]
fn time_into(row: &mut Row, s: &[u8]) -> Result<usize, Fault>
    ensures { Filled (fill_group Part.Time) s.now row.old row.new result }
{
    let Some(time) = time_group(s) else {
        return Err(Refusal::NoRow.at(0));
    };
    row.time = time.value;
    Ok(time.next)
}

#[tactic(auto, unfolding(crate::specs::Reading::runway_group))]
fn runway_group(s: &[u8]) -> Option<RunwayFound>
    ensures { HeldRunway s.now (runway_group s.now) result }
{
    let gap = word(s, 0, b" ", 0)?;
    let f = read_runway(s, gap.next)?;
    (valid_runway(HIGHEST_RUNWAY, f.number, f.side) && parted(s, f.next)).then_some(f)
}

#[tactic(auto, unfolding(crate::specs::Code::Filling::fill_group))]
fn runway_into(row: &mut Row, s: &[u8]) -> Result<usize, Fault>
    ensures { Filled (fill_group Part.Runway) s.now row.old row.new result }
{
    let Some(runway) = runway_group(s) else {
        return Err(fault(Refusal::WrongRunway, s, 0));
    };
    row.number = runway.number;
    row.side = runway.side;
    Ok(runway.next)
}

// What a number of a group may be whatever its description is.
#[tactic(auto, unfolding(crate::specs::Code::Filling::may_stand, crate::specs::Reading::may_cover, crate::specs::Reading::may_lie))]
fn may_stand(group: Group, x: u32) -> bool
    ensures { result ≡ may_stand group x }
{
    match group {
        Group::Codes => x <= 6,
        Group::Coverages => x == NR || is_coverage(x),
        Group::Depths => x == NR || 3 <= x,
        Group::Descriptions => true,
    }
}

fn each_may_stand(group: Group, numbers: [u32; 3]) -> bool
    ensures { result ≡ each (may_stand group) (three numbers) }
{
    numbers.iter().all(|&x| may_stand(group, x))
}

// A group of thirds by itself.
#[tactic(auto, unfolding(crate::specs::Code::Filling::alone_group))]
fn alone_group(group: Group, s: &[u8], at: usize) -> Option<Trio>
    ensures { HeldThree s.now (alone_group group (drop at s.now)) result }
{
    read_group(group, s, at).filter(|t| each_may_stand(group, t.numbers) && parted(s, t.next))
}

// The third with its number of a group.
#[tactic(auto, unfolding(thirds::specs::Groups::highest))]
fn with_number(group: Group, mut t: Third, x: u32) -> Third
    requires { x ≤ highest group }
    ensures { result ≡ with_number group t x }
{
    match group {
        Group::Codes => t.code = x as u8,
        Group::Coverages => t.coverage = x as u8,
        Group::Depths => t.depth = x as u16,
        Group::Descriptions => t.description = x as u8,
    }
    t
}

// The row with its numbers of a group.
fn with_group(group: Group, row: Row, numbers: [u32; 3]) -> Row
    requires { Shown group (three numbers) }
    ensures { result ≡ with_group group row (three numbers) }
{
    let thirds = std::array::from_fn(|k| with_number(group, row.thirds[k], numbers[k]));
    Row { thirds, ..row }
}

#[tactic(auto, using(crate::proofs::Steps::codes_alone), unfolding(crate::specs::Code::Filling::fill_group))]
fn codes_into(row: &mut Row, s: &[u8]) -> Result<usize, Fault>
    ensures { Filled (fill_group Part.Codes) s.now row.old row.new result }
{
    let Some(codes) = alone_group(Group::Codes, s, 0) else {
        return Err(fault(Refusal::WrongCodes, s, 0));
    };
    *row = with_group(Group::Codes, *row, codes.numbers);
    Ok(codes.next)
}

// The row with coverages, depths and descriptions.
fn with_rest(row: Row, coverages: [u32; 3], depths: [u32; 3], descriptions: [u32; 3]) -> Row
    requires { Shown Group.Coverages (three coverages) × Shown Group.Depths (three depths) × Shown Group.Descriptions (three descriptions) }
    ensures { result ≡ with_rest row (three coverages, (three depths, three descriptions)) }
{
    let row = with_group(Group::Coverages, row, coverages);
    let row = with_group(Group::Depths, row, depths);
    with_group(Group::Descriptions, row, descriptions)
}

fn valid_coverages(row: Row) -> bool
    ensures { result ≡ all valid_coverage row.thirds }
{
    row.thirds.iter().all(|&t| valid_coverage(t))
}

fn valid_depths(row: Row) -> bool
    ensures { result ≡ all valid_depth row.thirds }
{
    row.thirds.iter().all(|&t| valid_depth(t))
}

// A number that its description forbids can be told only once all three groups are read.
fn judged(row: Row, s: &[u8], depths: usize) -> Result<(), Fault>
    ensures { Judged row.thirds s.now (drop depths s.now) result }
{
    if !valid_coverages(row) {
        return Err(fault(Refusal::WrongCoverageOrDepth, s, 0));
    }
    if !valid_depths(row) {
        return Err(fault(Refusal::WrongCoverageOrDepth, s, depths));
    }
    Ok(())
}

// Coverages, depths and descriptions of a row that is taken: read once, and without the tests that their judgement implies. Where it refuses,
// `full_fault` tells what is at fault.
fn full_into(row: &mut Row, s: &[u8]) -> Option<usize>
    ensures { MatchOption result (row.new ≡ row.old) (λ next. Filled full_rest s.now row.old row.new (Ok next)) }
{
    let v = read_group(Group::Coverages, s, 0)?;
    let d = read_group(Group::Depths, s, v.next)?;
    let k = read_group(Group::Descriptions, s, d.next)?;
    let filled = with_rest(*row, v.numbers, d.numbers, k.numbers);
    if valid_coverages(filled) && valid_depths(filled) {
        *row = filled;
        Some(k.next)
    } else {
        None
    }
}

// The same group by group, each by itself, so that the first at fault is told.
#[tactic(auto, using(crate::proofs::Steps::coverages_alone, crate::proofs::Steps::depths_alone), unfolding(crate::specs::Code::Filling::full_rest, crate::specs::Reading::description_group))]
fn full_fault(row: &mut Row, s: &[u8]) -> Result<usize, Fault>
    ensures { Filled full_rest s.now row.old row.new result }
{
    let Some(v) = alone_group(Group::Coverages, s, 0) else {
        return Err(fault(Refusal::WrongCoverageOrDepth, s, 0));
    };
    let Some(d) = alone_group(Group::Depths, s, v.next) else {
        return Err(fault(Refusal::WrongCoverageOrDepth, s, v.next));
    };
    let Some(k) = read_group(Group::Descriptions, s, d.next) else {
        return Err(fault(Refusal::WrongDescriptions, s, d.next));
    };
    let filled = with_rest(*row, v.numbers, d.numbers, k.numbers);
    judged(filled, s, v.next)?;
    *row = filled;
    Ok(k.next)
}

// 01 to 99 behind a gap, or 0 for none.
fn width(s: &[u8], i: usize) -> Found
    requires { i ≤ length s.now }
    ensures { HeldWidth s.now (drop i s.now) result }
{
    word(s, i, b" ", 0)
        .and_then(|gap| digits(s, gap.next, 2))
        .filter(|f| 1 <= f.value)
        .unwrap_or(Found { value: 0, next: i })
}

// Three numbers that are left out.
const ALL_NR: [u32; 3] = [NR; 3];

// Coverages, depths and descriptions, or all that is left of a short row: its descriptions with nothing but a width behind them, which is read
// here and not again. A row whose coverages and depths fit is not short, so that the full form may be tried first.
fn rest_into(row: &mut Row, s: &[u8]) -> Result<usize, Fault>
    ensures { Filled (fill_group Part.Rest) s.now row.old row.new result }
{
    if let Some(next) = full_into(row, s) {
        return Ok(next);
    }
    if let Some(k) = read_group(Group::Descriptions, s, 0) {
        let w = width(s, k.next);
        if s.len() <= w.next {
            let short = with_rest(*row, ALL_NR, ALL_NR, k.numbers);
            if !is_short(short) {
                return Err(fault(Refusal::WrongCoverageOrDepth, s, 0));
            }
            *row = short;
            row.width = w.value as u8;
            return Ok(w.next);
        }
    }
    full_fault(row, s)
}

// The width, and nothing behind it. Where nothing is left, there is none, or a short row has it already.
#[tactic(auto, unfolding(crate::specs::Code::Filling::fill_group))]
fn width_into(row: &mut Row, s: &[u8]) -> Result<usize, Fault>
    ensures { Filled (fill_group Part.Width) s.now row.old row.new result }
{
    if s.is_empty() {
        return Ok(0);
    }
    let w = width(s, 0);
    if s.len() <= w.next {
        row.width = w.value as u8;
        return Ok(w.next);
    }
    // what follows it, or what is glued to it
    let at = if parted(s, w.next) { w.next } else { 0 };
    Err(fault(Refusal::WrongWidth, s, at))
}

fn part_into(part: Part, row: &mut Row, s: &[u8]) -> Result<usize, Fault>
    ensures { Filled (fill_group part) s.now row.old row.new result }
{
    match part {
        Part::Time => time_into(row, s),
        Part::Runway => runway_into(row, s),
        Part::Codes => codes_into(row, s),
        Part::Rest => rest_into(row, s),
        Part::Width => width_into(row, s),
    }
}

// The row that a whole line is: part by part, each in what is left of the line, and the first that is at fault refuses it.
pub fn find_row(line: &[u8]) -> Result<Row, Fault>
    ensures { RowFound line.now result }
{
    let mut row = blank_row();
    let mut at = 0;
    let mut parts = PARTS.iter();
    'parts: loop {
        let Some(&part) = parts.next() else {
            break 'parts Ok(row);
        };
        match part_into(part, &mut row, &line[at..]) {
            Ok(next) => at += next,
            Err(fault) => break 'parts Err(fault.refusal.at(at + fault.place)),
        }
    }
}

#[repr(C)]
#[derive(Clone, Copy)]
pub struct RowRead {
    // 0 for a row that is taken, else 5 or 24 to 28; stays: C interface
    pub refusal: u8,
    // the first byte of the group at fault, 0 for a row that is taken
    pub place: usize,
    pub row: Row,
}

// The same for C: a line that is refused has a blank row.
pub fn read_row(line: &[u8]) -> RowRead
    ensures { result ≡ row_answer line.now (find_row line.now) }
{
    match find_row(line) {
        Ok(row) => RowRead {
            refusal: 0,
            place: 0,
            row,
        },
        Err(fault) => RowRead {
            refusal: fault.refusal.number(),
            place: fault.place,
            row: blank_row(),
        },
    }
}

// ---- Writing

// What a third holds for each of the groups.
fn field(group: Group, t: Third) -> u32
    ensures { result ≡ field group t }
{
    match group {
        Group::Codes => u32::from(t.code),
        Group::Coverages => u32::from(t.coverage),
        Group::Depths => u32::from(t.depth),
        Group::Descriptions => u32::from(t.description),
    }
}

// A space and a group of the row's thirds.
fn put_thirds(group: Group, out: &mut [u8], at: usize, row: Row) -> usize
    ensures { Put at (canonical (group_of group row)) out.old out.new result }
{
    let numbers = row.thirds.map(|t| field(group, t));
    put_group(group, out, at, numbers)
}

// Coverages and depths, left out of a short row.
#[tactic(auto, unfolding(crate::specs::Text::middle_pieces))]
fn put_middle(out: &mut [u8], at: usize, row: Row) -> usize
    ensures { Put at (canonical (middle_pieces row)) out.old out.new result }
{
    if is_short(row) {
        return put(out, at, b"");
    }
    let at = put_thirds(Group::Coverages, out, at, row);
    put_thirds(Group::Depths, out, at, row)
}

#[tactic(auto, unfolding(crate::specs::Text::width_pieces))]
fn put_width(out: &mut [u8], at: usize, width: u8) -> usize
    ensures { Put at (canonical (width_pieces width)) out.old out.new result }
{
    if width == 0 {
        return put(out, at, b"");
    }
    let at = put(out, at, b" ");
    put_digits(out, at, 2, u32::from(width))
}

// Puts the text of any row into the rest of a buffer, as far as that goes, and answers its length. It judges nothing: it is for rows that were
// read or judged before.
pub fn put_any_row(rest: &mut [u8], row: Row) -> usize
    ensures { Put 0 (canonical (row_pieces row)) rest.old rest.new result }
{
    let at = put_digits(rest, 0, 8, row.time);
    let at = put(rest, at, b" ");
    let at = put_runway(rest, at, row.number, row.side);
    let at = put_thirds(Group::Codes, rest, at, row);
    let at = put_middle(rest, at, row);
    let at = put_thirds(Group::Descriptions, rest, at, row);
    put_width(rest, at, row.width)
}

// No row has a longer text.
pub const LONGEST_ROW: usize = 147;

// Writes the row into the rest of a buffer and answers how many bytes it filled.
// A row that is not valid or does not fit leaves every byte as it was: 0.
pub fn write_row(rest: &mut [u8], row: Row) -> usize
    ensures { WroteRow (row_text row) rest.old rest.new result }
{
    if !valid_row(row) || !has_room(rest.len(), LONGEST_ROW, |out| put_any_row(out, row)) {
        return 0;
    }
    put_any_row(rest, row)
}
