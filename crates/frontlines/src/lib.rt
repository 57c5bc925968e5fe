// Lines 1 to 5 of a notice: who it is for, who filed it, what it is about.
// Each line is read whole, at its place in the message, and put into the rest of a buffer.

#![tactic(auto)]

ghost use Rattle.std.specs.Prelude.{◌≡◌, ◌*◌, take, drop, replicate};
ghost use Rattle.std.proofs.lemmas.List.Edits.{sets};
ghost use Rattle.text.specs.Choice.{◌and◌, all, member};
ghost use Rattle.text.specs.Piece.{canonical, spell};
ghost use Rattle.text.specs.Read.{read_gap, read_many, whole};
ghost use Rattle.text.specs.Arrays.{is_zero, slots, past_slots};
ghost use Rattle.text.specs.Code.Held.{Spanned, Held};
ghost use Rattle.text.specs.Put.{Put};
ghost use Rattle.frontlines.specs.Letters.{read_letters, is_letters};
ghost use Rattle.frontlines.specs.Addresses.{priorities, priority_name, address_pieces, read_priority, read_address, read_addresses, addresses_pieces, valid_addresses};
ghost use Rattle.frontlines.specs.Filing.{real_filing, read_filing_time, read_filing, filing_pieces, valid_filing};
ghost use Rattle.frontlines.specs.Heading.{is_serial, read_serial, read_time, designator_pieces, read_heading, heading_pieces, valid_title, read_serial_line, serial_pieces, read_aerodrome, aerodrome_pieces};
ghost use Rattle.frontlines.specs.Code.Answers.{Designated, found, list_answer};

use fill::{put, put_digits};
use runway::{real_clock, real_time};
use scan::{counted, digits, word, zeros_from};
use text::{Class, Found, Span};

// Line 1. Zeros stand past the last address.
#[repr(C)]
#[derive(Clone, Copy, PartialEq, Eq)]
pub struct Addresses {
    // 1 GG, 2 DD
    pub priority: u8,
    pub count: u8,
    // eight letters each
    pub letters: [u8; 64],
}

// Line 2.
#[repr(C)]
#[derive(Clone, Copy, PartialEq, Eq)]
pub struct Filing {
    // ddhhmm as a number
    pub time: u32,
    pub originator: [u8; 8],
}

// Line 3 without its time, which a record works out from its rows.
#[repr(C)]
#[derive(Clone, Copy, PartialEq, Eq)]
pub struct Title {
    pub region: [u8; 2],
    pub serial: u16,
    pub aerodrome: [u8; 4],
}

// Line 3.
#[derive(Clone, Copy)]
pub struct Heading {
    pub title: Title,
    pub time: u32,
}

const MOST_ADDRESSES: u8 = 8;

const ADDRESS_SIZE: usize = 8;

// A gap at `i`, and then `n` letters.
fn gap_letters(s: &[u8], i: usize, n: usize) -> Option<Span>
    ensures { Spanned s.now (read_gap (read_letters n) (drop i s.now)) result }
{
    let start = word(s, i, b" ", 0)?.next;
    if counted(s, start, Class::Letters, n) {
        Some(Span {
            start,
            next: start + n,
        })
    } else {
        None
    }
}

// An array of the bytes of a text; zeros stand behind a shorter one.
fn bytes<const N: usize>(s: &[u8]) -> [u8; N]
    ensures { result ≡ sets (replicate N 0) 0 s.now }
{
    let mut a = [0; N];
    put(&mut a, 0, s);
    a
}

// `GG` or `DD`.
fn priority(s: &[u8]) -> Option<Found>
    ensures { Held s.now (read_priority s.now) result }
{
    word(s, 0, b"GG", 1).or_else(|| word(s, 0, b"DD", 2))
}

// How many addresses stand from `i` up to the end of the line, perhaps none, and their letters; each is read at its place.
fn address_list(s: &[u8], i: usize) -> Option<(u8, [u8; 64])>
    ensures { result ≡ list_answer (whole (read_many read_address 8 (drop i s.now))) }
{
    let mut letters = [0; 64];
    let mut count: u8 = 0;
    let mut at = i;
    'groups: loop {
        if s.len() <= at {
            break 'groups Some((count, letters));
        }
        if MOST_ADDRESSES <= count {
            break 'groups None;
        }
        let Some(group) = gap_letters(s, at, ADDRESS_SIZE) else {
            break 'groups None;
        };
        put(
            &mut letters,
            usize::from(count) * ADDRESS_SIZE,
            &s[group.start..group.next],
        );
        count += 1;
        at = group.next;
    }
}

// Line 1: `GG` or `DD`, then 1 to 8 addresses of eight letters.
pub fn read_addresses(line: &[u8]) -> Option<Addresses>
    ensures { result ≡ found (whole (read_addresses line.now)) }
{
    let priority = priority(line)?;
    let (count, letters) = address_list(line, priority.next)?;
    if count == 0 {
        return None;
    }
    Some(Addresses {
        priority: priority.value as u8,
        count,
        letters,
    })
}

// Day 01 to 31, 00 to 23, 00 to 59.
#[tactic(auto, using(text::specs::Laws::Tests::and_is), unfolding(crate::specs::Filing::real_filing))]
fn real_filing(t: u32) -> bool
    ensures { result ≡ real_filing t }
{
    let day = t / 10000;
    1 <= day && day <= 31 && real_clock(t % 10000)
}

fn filing_time(s: &[u8]) -> Option<Found>
    ensures { Held s.now (read_filing_time s.now) result }
{
    digits(s, 0, 6).filter(|f| real_filing(f.value))
}

// Line 2: the filing time and the originator.
pub fn read_filing(line: &[u8]) -> Option<Filing>
    ensures { result ≡ found (whole (read_filing line.now)) }
{
    let time = filing_time(line)?;
    let originator = gap_letters(line, time.next, 8)?;
    if originator.next < line.len() {
        return None;
    }
    Some(Filing {
        time: time.value,
        originator: bytes(&line[originator.start..originator.next]),
    })
}

#[tactic(auto, using(text::specs::Laws::Tests::and_is))]
fn is_serial(n: u32) -> bool
    ensures { result ≡ is_serial n }
{
    1 <= n && n <= 9999
}

// A serial 0001 to 9999.
fn serial(s: &[u8], i: usize) -> Option<Found>
    ensures { Held s.now (read_serial (drop i s.now)) result }
{
    digits(s, i, 4).filter(|f| is_serial(f.value))
}

// `SW`, two letters and a serial, without gaps.
fn designator(s: &[u8]) -> Option<Found>
    ensures { Designated s.now result }
{
    word(s, 0, b"SW", 0)?;
    if counted(s, 2, Class::Letters, 2) {
        serial(s, 4)
    } else {
        None
    }
}

// A gap at `i`, and then an observation time.
fn gap_time(s: &[u8], i: usize) -> Option<Found>
    ensures { Held s.now (read_gap read_time (drop i s.now)) result }
{
    let gap = word(s, i, b" ", 0)?;
    digits(s, gap.next, 8).filter(|f| real_time(f.value))
}

// Line 3: `SW`, two letters and a serial; the aerodrome; an observation time.
pub fn read_heading(line: &[u8]) -> Option<Heading>
    ensures { result ≡ found (whole (read_heading line.now)) }
{
    let serial = designator(line)?;
    let aerodrome = gap_letters(line, serial.next, 4)?;
    let time = gap_time(line, aerodrome.next)?;
    if time.next < line.len() {
        return None;
    }
    Some(Heading {
        title: Title {
            region: bytes(&line[2..4]),
            serial: serial.value as u16,
            aerodrome: bytes(&line[aerodrome.start..aerodrome.next]),
        },
        time: time.value,
    })
}

// Line 4: `(SNOWTAM` and a serial.
pub fn read_serial(line: &[u8]) -> Option<Found>
    ensures { Held line.now (whole (read_serial_line line.now)) result }
{
    let word = word(line, 0, b"(SNOWTAM ", 0)?;
    let serial = serial(line, word.next)?;
    if serial.next < line.len() {
        return None;
    }
    Some(serial)
}

// Whether a text is `n` letters and nothing more.
#[tactic(auto, using(text::specs::Laws::Tests::and_is, crate::proofs::Groups::letters_are), unfolding(crate::specs::Letters::is_letters))]
fn is_letters(s: &[u8], n: usize) -> bool
    ensures { result ≡ is_letters n s.now }
{
    s.len() == n && counted(s, 0, Class::Letters, n)
}

// Line 5: an aerodrome.
pub fn read_aerodrome(line: &[u8]) -> Option<[u8; 4]>
    ensures { result ≡ found (whole (read_aerodrome line.now)) }
{
    if is_letters(line, 4) {
        Some(bytes(line))
    } else {
        None
    }
}

// Whether so many addresses of letters stand in the array, and zeros past them.
fn holds_addresses(letters: &[u8], count: u8) -> bool
    ensures { result ≡ (all (is_letters 8) (slots 8 count letters.now) and all is_zero (past_slots 8 count letters.now)) }
{
    let n = usize::from(count) * ADDRESS_SIZE;
    counted(letters, 0, Class::Letters, n) && zeros_from(letters, n)
}

fn is_priority(p: u8) -> bool
    ensures { result ≡ member priorities p }
{
    matches!(p, 1 | 2)
}

// GG or DD, 1 to 8 addresses of letters, zeros past them.
#[tactic(auto, using(text::specs::Laws::Tests::and_is), unfolding(crate::specs::Addresses::valid_addresses))]
pub fn valid_addresses(a: Addresses) -> bool
    ensures { result ≡ valid_addresses a }
{
    is_priority(a.priority)
        && 1 <= a.count
        && a.count <= MOST_ADDRESSES
        && holds_addresses(&a.letters, a.count)
}

// A real filing time, and an originator of letters.
#[tactic(auto, using(text::specs::Laws::Tests::and_is), unfolding(crate::specs::Filing::valid_filing))]
pub fn valid_filing(f: Filing) -> bool
    ensures { result ≡ valid_filing f }
{
    real_filing(f.time) && is_letters(&f.originator, 8)
}

// A region and an aerodrome of letters, and a serial 0001 to 9999.
#[tactic(auto, using(text::specs::Laws::Tests::and_is), unfolding(crate::specs::Heading::valid_title))]
pub fn valid_title(t: Title) -> bool
    ensures { result ≡ valid_title t }
{
    is_letters(&t.region, 2) && is_serial(u32::from(t.serial)) && is_letters(&t.aerodrome, 4)
}

#[tactic(auto, unfolding(text::specs::Piece::spell))]
fn put_priority(rest: &mut [u8], priority: u8) -> usize
    ensures { Put 0 (canonical (spell (priority_name priority))) rest.old rest.new result }
{
    // stays: C interface: the priority is a number
    match priority {
        1 => put(rest, 0, b"GG"),
        2 => put(rest, 0, b"DD"),
        _ => put(rest, 0, b""),
    }
}

// A gap and the address at a place of the list; past the array there is none.
fn put_address(rest: &mut [u8], at: usize, letters: &[u8], i: u8) -> usize
    ensures { Put at (canonical (address_pieces (take 8 (drop (i * 8) letters.now)))) rest.old rest.new result }
{
    let start = (usize::from(i) * ADDRESS_SIZE).min(letters.len());
    let end = (start + ADDRESS_SIZE).min(letters.len());
    let at = put(rest, at, b" ");
    put(rest, at, &letters[start..end])
}

// Puts line 1 into the rest of a buffer, and answers how many bytes it has.
pub fn put_addresses(rest: &mut [u8], a: Addresses) -> usize
    ensures { Put 0 (canonical (addresses_pieces a)) rest.old rest.new result }
{
    let mut at = put_priority(rest, a.priority);
    for i in 0..a.count {
        at = put_address(rest, at, &a.letters, i);
    }
    at
}

// Puts line 2.
pub fn put_filing(rest: &mut [u8], f: Filing) -> usize
    ensures { Put 0 (canonical (filing_pieces f)) rest.old rest.new result }
{
    let at = put_digits(rest, 0, 6, f.time);
    let at = put(rest, at, b" ");
    put(rest, at, &f.originator)
}

fn put_designator(rest: &mut [u8], region: [u8; 2], serial: u16) -> usize
    ensures { Put 0 (canonical (designator_pieces region serial)) rest.old rest.new result }
{
    let at = put(rest, 0, b"SW");
    let at = put(rest, at, &region);
    put_digits(rest, at, 4, u32::from(serial))
}

// Puts line 3, with the time that is worked out from the rows.
pub fn put_heading(rest: &mut [u8], h: Heading) -> usize
    ensures { Put 0 (canonical (heading_pieces h)) rest.old rest.new result }
{
    let at = put_designator(rest, h.title.region, h.title.serial);
    let at = put(rest, at, b" ");
    let at = put(rest, at, &h.title.aerodrome);
    let at = put(rest, at, b" ");
    put_digits(rest, at, 8, h.time)
}

// Puts line 4.
pub fn put_serial(rest: &mut [u8], serial: u16) -> usize
    ensures { Put 0 (canonical (serial_pieces serial)) rest.old rest.new result }
{
    let at = put(rest, 0, b"(SNOWTAM ");
    put_digits(rest, at, 4, u32::from(serial))
}

// Puts line 5.
#[tactic(auto, using(crate::proofs::Writes::verbatim_text), unfolding(crate::specs::Heading::aerodrome_pieces))]
pub fn put_aerodrome(rest: &mut [u8], aerodrome: [u8; 4]) -> usize
    ensures { Put 0 (canonical (aerodrome_pieces aerodrome)) rest.old rest.new result }
{
    put(rest, 0, &aerodrome)
}
