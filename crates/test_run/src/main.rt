// A test: prints what the code answers at the edges, to be held against what the models in compare/ answer. First come the assessor's
// observations, then each part of the input in its order. A part stands behind a line with its letter, `M` for a message or `R` for the
// text of a row, and its length in five digits; an LF stands behind it.

#![tactic(auto)]

mod messages;
mod observations;
mod output;
mod rows;

ghost use Rattle.std.specs.Prelude.{◌≤◌, length, IfOk, IfSome};

use messages::print_message;
use observations::print_observations;
use rows::print_row;
use scan::digits;
use std::io::{self, Read};

const ROOM: usize = 400000;

const LENGTH_DIGITS: usize = 5;

// More parts than there are.
const MOST: u32 = 9999;

// What a part is, and where it starts and ends.
#[derive(Clone, Copy)]
struct Part {
    letter: u8,
    start: usize,
    end: usize,
}

// The part whose letter, which is not 0, stands at `at`.
fn part_at(input: &[u8], at: usize) -> Option<Part>
    ensures { IfSome result (λ p. (p.start ≤ p.end) × (p.end ≤ length input.now)) }
{
    let letter = *input.get(at)?;
    if letter == 0 {
        return None;
    }
    let size = digits(input, at + 1, LENGTH_DIGITS)?;
    if input.len() <= size.next {
        return None;
    }
    let start = size.next + 1;
    let n = size.value as usize;
    if input.len() - start < n {
        return None;
    }
    Some(Part {
        letter,
        start,
        end: start + n,
    })
}

fn print_part(
    rt: &impl Print,
    letter: u8,
    number: u32,
    part: &[u8],
    before: &[u8],
) -> io::Result<()> {
    match letter {
        b'M' => print_message(rt, number, part, before),
        b'R' => print_row(rt, part),
        _ => Ok(()),
    }
}

// Every part of the input; the first is compared with itself.
fn print_parts(rt: &impl Print, input: &[u8]) -> io::Result<()> {
    let Some(first) = part_at(input, 0) else {
        return Ok(());
    };
    let mut before = &input[first.start..first.end];
    let mut at = 0;
    for number in 1..=MOST {
        let Some(Part { letter, start, end }) = part_at(input, at) else {
            return Ok(());
        };
        let part = &input[start..end];
        print_part(rt, letter, number, part, before)?;
        if input.len() <= end {
            return Ok(());
        }
        before = part;
        at = end + 1;
    }
    Ok(())
}

// Reads until `held` is full or the input ends, and answers how many bytes it put.
// stays: no plainer: the lister and the test each have it, since what an input gives no promise of a library could say.
fn read_full(input: &mut impl Read, held: &mut [u8]) -> io::Result<usize>
    ensures { IfOk result (λ n. n ≤ length held.new) }
{
    let mut n = 0;
    while n < held.len() {
        let got = input.read(&mut held[n..])?;
        if got == 0 {
            break;
        }
        n += got;
    }
    Ok(n)
}

fn run(rt: &impl Print, input: &mut impl Read, held: &mut [u8]) -> io::Result<()> {
    let n = read_full(input, held)?;
    print_parts(rt, &held[..n])
}

// Lends the array where its length is that of its type: where it is made, the prover would count its bytes one by one.
fn lend(rt: &impl Print, input: &mut impl Read, held: &mut [u8; ROOM]) -> io::Result<()> {
    run(rt, input, held)
}

fn main(rt: HostRuntime) -> io::Result<()> {
    print_observations(&rt)?;
    let mut input = rt.stdin();
    let mut held = [0; ROOM];
    lend(&rt, &mut input, &mut held)
}
