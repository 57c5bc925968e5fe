// The assessor, on each kind at the depths and signs that matter, and on each edge of the ranges. A line holds what was observed (kind,
// cover, depth, slippery) and what is reported (refusal, code, coverage, depth, description), and then whether the third is valid and agrees.
use crate::output::{print, print_digits};
use std::io;
use surface::description::{COMPACTED_SNOW, DRY, FROST, SLUSH};
use surface::{Observation, Third, agrees, assess, valid_third};

// Four digits and a space.
fn print_number(rt: &impl Print, n: u32) -> io::Result<()> {
    print_digits(rt, 4, n)?;
    print(rt, b" ")
}

fn print_byte(rt: &impl Print, n: u8) -> io::Result<()> {
    print_number(rt, n as u32)
}

fn print_bool(rt: &impl Print, b: bool) -> io::Result<()> {
    print_number(rt, u32::from(b))
}

fn print_third(rt: &impl Print, t: Third) -> io::Result<()> {
    print_byte(rt, t.code)?;
    print_byte(rt, t.coverage)?;
    print_number(rt, t.depth as u32)?;
    print_byte(rt, t.description)?;
    print_bool(rt, valid_third(t))?;
    print_bool(rt, agrees(t))
}

fn show(rt: &impl Print, o: Observation) -> io::Result<()> {
    print_number(rt, o.kind)?;
    print_number(rt, o.cover)?;
    print_number(rt, o.depth)?;
    print_bool(rt, o.slippery)?;
    let a = assess(o);
    print_byte(rt, a.refusal)?;
    print_third(rt, a.third)?;
    print(rt, b"\n")
}

fn at_depth(rt: &impl Print, kind: u32, depth: u32, slippery: bool) -> io::Result<()> {
    let o = Observation {
        kind,
        cover: 100,
        depth,
        temperature: 0,
        slippery,
    };
    show(rt, o)
}

fn at_cover(rt: &impl Print, kind: u32, cover: u32) -> io::Result<()> {
    let o = Observation {
        kind,
        cover,
        depth: 0,
        temperature: 0,
        slippery: false,
    };
    show(rt, o)
}

fn at_temperature(rt: &impl Print, temperature: i32) -> io::Result<()> {
    let o = Observation {
        kind: COMPACTED_SNOW as u32,
        cover: 100,
        depth: 0,
        temperature,
        slippery: false,
    };
    show(rt, o)
}

// Every kind, and a number below and above them.
fn kinds(rt: &impl Print) -> io::Result<()> {
    for kind in 0..=16 {
        at_depth(rt, kind, 0, false)?;
        at_depth(rt, kind, 2, false)?;
        at_depth(rt, kind, 3, false)?;
        at_depth(rt, kind, 4, false)?;
        at_depth(rt, kind, 0, true)?;
    }
    Ok(())
}

fn covers(rt: &impl Print) -> io::Result<()> {
    for cover in 0..=102 {
        at_cover(rt, FROST as u32, cover)?;
    }
    at_cover(rt, DRY as u32, 0)?;
    at_cover(rt, DRY as u32, 1)
}

pub fn print_observations(rt: &impl Print) -> io::Result<()> {
    kinds(rt)?;
    covers(rt)?;
    at_depth(rt, SLUSH as u32, 999, false)?;
    at_depth(rt, SLUSH as u32, 1000, false)?;
    at_temperature(rt, -601)?;
    at_temperature(rt, -600)?;
    at_temperature(rt, -150)?;
    at_temperature(rt, -149)?;
    at_temperature(rt, 600)?;
    at_temperature(rt, 601)
}
