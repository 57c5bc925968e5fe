// Lines 1 to 5 of a notice: read one after the other, and put one under the other.

#![tactic(auto)]

ghost use Rattle.std.specs.Prelude.{◌≡◌, [], MatchOption};
ghost use Rattle.text.specs.Read.{misfit, got};
ghost use Rattle.text.specs.Refusals.{number};
ghost use Rattle.text.specs.Put.{Put};
ghost use Rattle.front.specs.Code.Front.{blank_front, number_of, fill_line, line_refusal, front_text, FrontHeld};

use fill::line_under;
use frontlines::{
    Addresses, Filing, Heading, Title, put_addresses, put_aerodrome, put_filing, put_heading,
    put_serial, read_addresses, read_aerodrome, read_filing, read_heading, read_serial,
};
use text::first_line;
use text::refusal::{Fault, Refusal};

// ---- Reading

// What lines 1 to 5 say, as far as they are read.
#[derive(Clone, Copy)]
pub struct Front {
    pub addresses: Addresses,
    pub filing: Filing,
    // line 3
    pub title: Title,
    pub time: u32,
    // lines 4 and 5, which repeat two of its groups
    pub serial: u32,
    pub aerodrome: [u8; 4],
}

// The front of a message; what is below it starts at `next`.
#[derive(Clone, Copy)]
pub struct FrontFound {
    pub front: Front,
    pub next: usize,
}

// Lines 1 to 5.
#[derive(Clone, Copy)]
enum Line {
    First,
    Second,
    Third,
    Fourth,
    Fifth,
}

const LINES: [Line; 5] = [
    Line::First,
    Line::Second,
    Line::Third,
    Line::Fourth,
    Line::Fifth,
];

pub fn blank_front() -> Front
    ensures { result ≡ blank_front }
{
    Front {
        addresses: Addresses {
            priority: 0,
            count: 0,
            letters: [0; 64],
        },
        filing: Filing {
            time: 0,
            originator: [0; 8],
        },
        title: Title {
            region: [0; 2],
            serial: 0,
            aerodrome: [0; 4],
        },
        time: 0,
        serial: 0,
        aerodrome: [0; 4],
    }
}

// What refuses a message where this line is missing or does not fit.
#[tactic(auto, unfolding(crate::specs::Code::Front::line_refusal))]
fn line_refusal(line: Line) -> Refusal
    ensures { number result ≡ line_refusal (number_of line) }
{
    match line {
        Line::First | Line::Second => Refusal::Line1Or2,
        Line::Third => Refusal::Line3,
        Line::Fourth | Line::Fifth => Refusal::Outline,
    }
}

// Reads the text of a line whole and fills it into the front; nothing where it does not fit.
fn fill_line(front: &mut Front, line: Line, text: &[u8]) -> Option<()>
    ensures { MatchOption result
        (fill_line (number_of line) front.old text.now ≡ misfit)
        (λ _. fill_line (number_of line) front.old text.now ≡ got front.new []) }
{
    match line {
        Line::First => front.addresses = read_addresses(text)?,
        Line::Second => front.filing = read_filing(text)?,
        Line::Third => {
            let heading = read_heading(text)?;
            front.title = heading.title;
            front.time = heading.time;
        }
        Line::Fourth => front.serial = read_serial(text)?.value,
        Line::Fifth => front.aerodrome = read_aerodrome(text)?,
    }
    Some(())
}

// Lines 1 to 5, each at its place in the message and filled in place: the first that is missing or does not fit decides, at its first byte, which
// is the message's length where it is missing.
pub fn read_front(m: &[u8]) -> Result<FrontFound, Fault>
    ensures { FrontHeld m.now result }
{
    let mut front = blank_front();
    let mut at: usize = 0;
    let mut left = LINES.iter();
    'lines: loop {
        let Some(&line) = left.next() else {
            break 'lines Ok(FrontFound { front, next: at });
        };
        let fault = line_refusal(line).at(at);
        if m.len() <= at {
            break 'lines Err(fault);
        }
        let first = first_line(&m[at..]);
        let Some(()) = fill_line(&mut front, line, &m[at..at + first.size]) else {
            break 'lines Err(fault);
        };
        at += first.next;
    }
}

// ---- Writing

// Puts lines 1 to 5, each under the line before it, and answers how many bytes they have.
pub fn put_front(
    out: &mut [u8],
    addresses: Addresses,
    filing: Filing,
    title: Title,
    time: u32,
) -> usize
    ensures { Put 0 (front_text addresses filing title time) out.old out.new result }
{
    let heading = Heading { title, time };
    let at = put_addresses(out, addresses);
    let at = line_under(out, at, |rest| put_filing(rest, filing));
    let at = line_under(out, at, |rest| put_heading(rest, heading));
    let at = line_under(out, at, |rest| put_serial(rest, title.serial));
    line_under(out, at, |rest| put_aerodrome(rest, title.aerodrome))
}
