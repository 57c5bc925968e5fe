// A third of a runway: what it may hold, how an observation of it is assessed, and whether its code agrees with Table 1.
// In every field 0 stands for NR.

#![tactic(auto)]

ghost use Rattle.std.specs.Prelude.{◌≡◌};
ghost use Rattle.surface.specs.Descriptions.{is_contaminant, line_of, is_deep};
ghost use Rattle.surface.specs.Third.{is_blank_third, is_coverage, valid_coverage, is_reported, valid_depth, valid_third};
ghost use Rattle.surface.specs.Table1.{is_named, holds, is_for, code_for, can_hold, allows, is_allowed, agrees};
ghost use Rattle.surface.specs.Assess.{is_kind, is_temperature, in_range, is_shallow, covered_dry, deep_wet, deep_other, slippery_other, contradictory, coverage_for, uncovered, is_thin_water, reported_kind, reported_depth, covered, assessed, assessing};
ghost use Rattle.surface.specs.Code.{observed, IsTaken, assessment};

use Condition::{
    Always, DepthOver, DepthTo, NotSlippery, Slippery, TemperatureOver, TemperatureTo,
};
use Kinds::{Either, One};
use description::{
    COMPACTED_SNOW, DRY, DRY_SNOW, DRY_SNOW_ON_COMPACTED_SNOW, DRY_SNOW_ON_ICE, FROST, ICE, NR,
    SLUSH, STANDING_WATER, WATER_ON_COMPACTED_SNOW, WET, WET_ICE, WET_SNOW,
    WET_SNOW_ON_COMPACTED_SNOW, WET_SNOW_ON_ICE,
};
use text::refusal::Refusal;

pub mod description;

#[repr(C)]
#[derive(Clone, Copy, PartialEq, Eq)]
pub struct Third {
    pub code: u8,
    // 25, 50, 75, 100
    pub coverage: u8,
    // millimetres
    pub depth: u16,
    pub description: u8,
}

#[repr(C)]
#[derive(Clone, Copy)]
pub struct Observation {
    pub kind: u32,
    // per cent
    pub cover: u32,
    // millimetres
    pub depth: u32,
    // tenths of a degree Celsius
    pub temperature: i32,
    pub slippery: bool,
}

#[repr(C)]
#[derive(Clone, Copy)]
pub struct Assessment {
    // 0 for an observation that is taken; stays: C interface
    pub refusal: u8,
    pub third: Third,
}

// ---- What a third may hold

pub const BLANK_THIRD: Third = Third {
    code: 0,
    coverage: NR,
    depth: 0,
    description: NR,
};

pub fn is_blank_third(t: Third) -> bool
    ensures { result ≡ is_blank_third t }
{
    t == BLANK_THIRD
}

fn is_contaminant(description: u8) -> bool
    ensures { result ≡ is_contaminant description }
{
    (COMPACTED_SNOW..=WET_SNOW_ON_ICE).contains(&description)
}

pub fn is_coverage(coverage: u32) -> bool
    ensures { result ≡ is_coverage coverage }
{
    matches!(coverage, 25 | 50 | 75 | 100)
}

// A coverage is a number only under a contaminant.
pub fn valid_coverage(t: Third) -> bool
    ensures { result ≡ valid_coverage t }
{
    t.coverage == NR || is_coverage(u32::from(t.coverage)) && is_contaminant(t.description)
}

// A contaminant that has a depth, the least of it that is reported, and the difference that is a significant change, in millimetres.
// stays: no plainer: with named fields a line of the table would take five.
#[derive(Clone, Copy)]
pub struct Contaminant(pub u8, pub u16, pub u16);

// One line for each line of Table 3 of document 000, in its order.
const TABLE_3: [Contaminant; 4] = [
    Contaminant(STANDING_WATER, 4, 3), // 积水 04 03
    Contaminant(SLUSH, 3, 3), // 雪浆 03 03
    Contaminant(WET_SNOW, 3, 5), // 湿雪 03 05
    Contaminant(DRY_SNOW, 3, 20), // 干雪 03 20
];

// The line of Table 3 that a kind has.
pub fn line_of(kind: u32) -> Option<Contaminant>
    ensures { result ≡ line_of kind }
{
    TABLE_3.iter().find(|line| line.0 as u32 == kind).copied()
}

fn is_deep(kind: u8) -> bool
    ensures { result ≡ is_deep kind }
{
    line_of(kind as u32).is_some()
}

fn is_reported(description: u8, depth: u16) -> bool
    ensures { result ≡ is_reported description depth }
{
    line_of(description as u32).is_some_and(|Contaminant(_, least, _)| least <= depth)
}

pub const GREATEST_DEPTH: u32 = 999;

pub fn valid_depth(t: Third) -> bool
    ensures { result ≡ valid_depth t }
{
    t.depth == 0 || is_reported(t.description, t.depth) && u32::from(t.depth) <= GREATEST_DEPTH
}

pub fn valid_third(t: Third) -> bool
    ensures { result ≡ valid_third t }
{
    t.code <= 6 && t.description <= DRY && valid_coverage(t) && valid_depth(t)
}

// ---- A surface, as it was observed

// An observation that is in range: its numbers are as narrow as those of a third.
#[derive(Clone, Copy)]
struct Surface {
    kind: u8,
    cover: u8,
    depth: u16,
    temperature: i32,
    slippery: bool,
}

fn is_kind(kind: u32) -> bool
    ensures { result ≡ is_kind kind }
{
    (u32::from(COMPACTED_SNOW)..=u32::from(DRY)).contains(&kind)
}

fn is_temperature(temperature: i32) -> bool
    ensures { result ≡ is_temperature temperature }
{
    (-600..=600).contains(&temperature)
}

fn in_range(o: Observation) -> bool
    ensures { result ≡ in_range o }
{
    is_kind(o.kind) && o.cover <= 100 && o.depth <= GREATEST_DEPTH && is_temperature(o.temperature)
}

impl TryFrom<Observation> for Surface {
    type Error = Refusal;

    ghost try_from_gives = { IsTaken };

    fn try_from(o: Observation) -> Result<Self, Refusal> {
        if !in_range(o) {
            return Err(Refusal::OutOfRange);
        }
        Ok(Surface {
            kind: o.kind as u8,
            cover: o.cover as u8,
            depth: o.depth as u16,
            temperature: o.temperature,
            slippery: o.slippery,
        })
    }
}

// ---- Table 1

// The kinds of surface that an entry of Table 1 names: one, or one "or" another.
#[derive(Clone, Copy)]
pub enum Kinds {
    One(u8),
    Either(u8, u8),
}

// What an entry says besides its kinds.
#[derive(Clone, Copy)]
pub enum Condition {
    Always,
    NotSlippery,
    Slippery,
    // millimetres; To takes the figure in, Over does not
    DepthTo(u16),
    DepthOver(u16),
    // tenths of a degree Celsius
    TemperatureTo(i32),
    TemperatureOver(i32),
}

// The code, the kinds of surface, and the condition under which they have the code.
// stays: no plainer: with named fields an entry of the table would take five lines.
#[derive(Clone, Copy)]
pub struct Entry(pub u8, pub Kinds, pub Condition);

const MINUS_15_DEGREES: i32 = -150;

// One line for each entry of Table 1 of document 000, in its order and with its words. WET above 3 mm is refused by 16 before it comes here.
const TABLE_1: [Entry; 19] = [
    Entry(6, One(DRY), Always), // 干
    Entry(5, One(FROST), Always), // 霜
    Entry(5, One(WET), NotSlippery), // 湿【跑道表面覆盖有任何明显的湿气或深度不超过 3 毫米（含）的水】
    Entry(5, One(SLUSH), DepthTo(3)), // 雪浆【深度不超过 3 毫米（含）】
    Entry(5, One(DRY_SNOW), DepthTo(3)), // 干雪【深度不超过 3 毫米（含）】
    Entry(5, One(WET_SNOW), DepthTo(3)), // 湿雪【深度不超过 3 毫米（含）】
    Entry(4, One(COMPACTED_SNOW), TemperatureTo(MINUS_15_DEGREES)), // 压实的雪（外面气温-15 摄氏度或 5 华氏度及以下）
    Entry(3, One(WET), Slippery), // 湿（“湿滑”跑道）
    Entry(3, One(DRY_SNOW_ON_COMPACTED_SNOW), Always), // 压实的雪面上有干雪（任何深度）
    Entry(3, One(WET_SNOW_ON_COMPACTED_SNOW), Always), // 压实的雪面上有湿雪（任何深度）
    Entry(3, One(DRY_SNOW), DepthOver(3)), // 干雪（深度超过 3 毫米）
    Entry(3, One(WET_SNOW), DepthOver(3)), // 湿雪（深度超过 3 毫米）
    Entry(3, One(COMPACTED_SNOW), TemperatureOver(MINUS_15_DEGREES)), // 压实的雪（外面气温高于-15 摄氏度或 5 华氏度）
    Entry(2, One(STANDING_WATER), DepthOver(3)), // 积水（深度超过 3 毫米）
    Entry(2, One(SLUSH), DepthOver(3)), // 雪浆（深度超过 3 毫米）
    Entry(1, One(ICE), Always), // 冰
    Entry(0, One(WET_ICE), Always), // 湿冰
    Entry(0, One(WATER_ON_COMPACTED_SNOW), Always), // 压实的雪面上有水
    Entry(0, Either(DRY_SNOW_ON_ICE, WET_SNOW_ON_ICE), Always), // 冰面上有干雪或湿雪
];

fn is_named(kinds: Kinds, kind: u8) -> bool
    ensures { result ≡ is_named kinds kind }
{
    match kinds {
        Kinds::One(a) => a == kind,
        Kinds::Either(a, b) => a == kind || b == kind,
    }
}

// The condition holds of the surface.
fn holds(c: Condition, s: Surface) -> bool
    ensures { result ≡ holds c (observed s) }
{
    match c {
        Condition::Always => true,
        Condition::NotSlippery => !s.slippery,
        Condition::Slippery => s.slippery,
        Condition::DepthTo(mm) => s.depth <= mm,
        Condition::DepthOver(mm) => mm < s.depth,
        Condition::TemperatureTo(tenths) => s.temperature <= tenths,
        Condition::TemperatureOver(tenths) => tenths < s.temperature,
    }
}

fn is_for(e: Entry, kind: u8, s: Surface) -> bool
    ensures { result ≡ is_for e kind (observed s) }
{
    let Entry(_, kinds, condition) = e;
    is_named(kinds, kind) && holds(condition, s)
}

// The code that Table 1 gives a surface of this kind, so observed.
fn code_for(kind: u8, s: Surface) -> u8
    ensures { result ≡ code_for kind (observed s) }
{
    TABLE_1
        .iter()
        .find(|&&e| is_for(e, kind, s))
        .map_or(0, |&Entry(code, ..)| code)
}

// The condition can hold of a surface of which only the reported depth is known.
fn can_hold(c: Condition, depth: u16) -> bool
    ensures { result ≡ can_hold c depth }
{
    match c {
        Condition::DepthTo(mm) => depth <= mm,
        Condition::DepthOver(mm) => mm < depth,
        _ => true,
    }
}

fn allows(e: Entry, t: Third) -> bool
    ensures { result ≡ allows e t }
{
    let Entry(code, kinds, condition) = e;
    is_named(kinds, t.description) && code == t.code && can_hold(condition, t.depth)
}

fn is_allowed(t: Third) -> bool
    ensures { result ≡ is_allowed t }
{
    TABLE_1.iter().any(|&e| allows(e, t))
}

// The third's code is one that Table 1 allows its description and depth.
pub fn agrees(t: Third) -> bool
    ensures { result ≡ agrees t }
{
    t.description == NR || is_allowed(t)
}

// ---- Assessing

fn is_shallow(depth: u16) -> bool
    ensures { result ≡ is_shallow depth }
{
    depth <= 3
}

fn covered_dry(s: Surface) -> bool
    ensures { result ≡ covered_dry (observed s) }
{
    s.kind == DRY && 0 < s.cover
}

fn deep_wet(s: Surface) -> bool
    ensures { result ≡ deep_wet (observed s) }
{
    s.kind == WET && !is_shallow(s.depth)
}

fn deep_other(s: Surface) -> bool
    ensures { result ≡ deep_other (observed s) }
{
    s.kind != WET && !is_deep(s.kind) && 0 < s.depth
}

fn slippery_other(s: Surface) -> bool
    ensures { result ≡ slippery_other (observed s) }
{
    s.kind != WET && s.slippery
}

fn contradictory(s: Surface) -> bool
    ensures { result ≡ contradictory (observed s) }
{
    covered_dry(s) || deep_wet(s) || deep_other(s) || slippery_other(s)
}

fn coverage_for(cover: u8) -> u8
    ensures { result ≡ coverage_for cover }
{
    match cover {
        0..=25 => 25,
        26..=50 => 50,
        51..=75 => 75,
        _ => 100,
    }
}

// Too little cover to report: only that the surface is dry, if it is.
fn uncovered(kind: u8) -> Third
    ensures { result ≡ uncovered kind }
{
    Third {
        code: 6,
        description: if kind == DRY { DRY } else { NR },
        ..BLANK_THIRD
    }
}

fn is_thin_water(s: Surface) -> bool
    ensures { result ≡ is_thin_water (observed s) }
{
    s.kind == STANDING_WATER && is_shallow(s.depth)
}

// Standing water that is no deeper than 3 mm is reported as WET.
fn reported_kind(s: Surface) -> u8
    ensures { result ≡ reported_kind (observed s) }
{
    if is_thin_water(s) { WET } else { s.kind }
}

fn reported_depth(kind: u8, depth: u16) -> u16
    ensures { result ≡ reported_depth kind depth }
{
    if is_reported(kind, depth) { depth } else { 0 }
}

fn covered(kind: u8, s: Surface) -> Third
    ensures { result ≡ covered kind (observed s) }
{
    Third {
        code: code_for(kind, s),
        coverage: coverage_for(s.cover),
        depth: reported_depth(kind, s.depth),
        description: kind,
    }
}

const LEAST_COVER: u8 = 10;

fn assessed(s: Surface) -> Third
    ensures { result ≡ assessed (observed s) }
{
    if s.cover < LEAST_COVER {
        return uncovered(s.kind);
    }
    covered(reported_kind(s), s)
}

// The third as it is to be reported.
fn reported(o: Observation) -> Result<Third, Refusal>
    ensures { assessment result ≡ assessing o }
{
    let s = Surface::try_from(o)?;
    if contradictory(s) {
        return Err(Refusal::Contradiction);
    }
    Ok(assessed(s))
}

// Refusal 15 for what is out of range, 16 for what contradicts itself; else the third as it is to be reported.
pub fn assess(o: Observation) -> Assessment
    ensures { result ≡ assessing o }
{
    match reported(o) {
        Ok(third) => Assessment { refusal: 0, third },
        Err(refusal) => Assessment {
            refusal: refusal.number(),
            third: BLANK_THIRD,
        },
    }
}
