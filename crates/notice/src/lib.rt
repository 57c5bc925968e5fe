// A notice: a message read as a record, a record written as a message, and whether two messages tell the same.

#![tactic(auto)]

ghost use Rattle.std.specs.Prelude.{◌≡◌, ◌+◌, ◌-◌, ◌≤◌, true, length, drop};
ghost use Rattle.text.specs.Lines.{line_size, lines_size};
ghost use Rattle.notice.specs.Same.{SaysSame, same_record};
ghost use Rattle.record.specs.Record.{valid_record};
ghost use Rattle.notice.specs.Writing.{Wrote, WroteAt};
ghost use Rattle.notice.specs.Rewriting.{Rewrote};
ghost use Rattle.notice.specs.Reading.{reading};
ghost use Rattle.notice.specs.Code.Below.{Opened, DisagreesAt, FillsRecord};

use body::{latest_time, read_rows};
use fill::has_room;
use front::read_front;
use record::{
    Reading, Record, accepted, blank_record, mismatch, put_notice, record_of, refused, valid_record,
};
use remarks::{no_remarks, read_remarks};
use sameness::{same_addresses, same_filing, same_items, same_language, same_rows, same_title};
use text::refusal::{Fault, Refusal};
use text::{LONGEST, first_line, lines_size, place};

// What a writing answers, under the name that it had here.
pub use text::Written;

// ---- Reading

// The place so many bytes before the end of the line behind these.
fn before_end(message: &[u8], lines: u8, back: usize) -> usize
    requires inside { lines_size lines message.now ≤ length message.now }
    requires enough { back ≤ line_size (drop (lines_size lines message.now) message.now) }
    ensures { result ≡ lines_size lines message.now + (line_size (drop (lines_size lines message.now) message.now) - back) }
{
    let start = lines_size(message, lines);
    start + (first_line(&message[start..]).size - back)
}

// Where lines that disagree are told to be wrong: 10 at the serial of line 4, 11 at line 5, 12 at the time of line 3. The lines are found anew,
// since only a refused message needs this. They were read, so the serial is the last four bytes of its line, and the time the last eight.
fn disagreement_place(message: &[u8], refusal: Refusal) -> usize
    requires { Opened message.now }
    ensures { DisagreesAt message.now refusal result }
{
    match refusal {
        Refusal::SerialsDiffer => before_end(message, 3, 4),
        Refusal::AerodromesDiffer => lines_size(message, 4),
        _ => before_end(message, 2, 8),
    }
}

// Fills in the record of a message, or answers its first fault: 1 first, then line by line, where the first line that does not fit decides; 10, 11, 12
// at the end. The parts meet here, so that none is handed on from answer to answer. A refused message leaves the record as it was.
fn record_into(record: &mut Record, message: &[u8]) -> Result<(), Fault>
    ensures { FillsRecord message.now «record».old «record».new result }
{
    if LONGEST < message.len() {
        return Err(Refusal::TooLong.at(LONGEST));
    }
    let opening = read_front(message)?;
    let below = &message[opening.next..];
    let block = match read_rows(below) {
        Ok(block) => block,
        Err(fault) => return Err(fault.refusal.at(opening.next + fault.place)),
    };
    let end = opening.next + place(below, block.next);
    let mut remarks = no_remarks();
    if let Err(fault) = read_remarks(block.closed, &message[end..], &mut remarks) {
        return Err(fault.refusal.at(end + fault.place));
    }
    if let Err(refusal) = mismatch(opening.front, block.rows) {
        return Err(refusal.at(disagreement_place(message, refusal)));
    }
    *record = record_of(opening.front, block.rows, remarks);
    Ok(())
}

// Reads a message.
pub fn read(message: &[u8]) -> Reading
    ensures { result ≡ reading message.now }
{
    let mut reading = accepted(blank_record());
    match record_into(&mut reading.record, message) {
        Ok(()) => reading,
        Err(fault) => refused(fault.refusal.number(), fault.place),
    }
}

// ---- Writing

// Writes the text of a valid record: 14 where the buffer is too short for it.
fn write_valid(r: Record, time: u32, buffer: &mut [u8]) -> Written
    requires { valid_record r ≡ true }
    ensures { WroteAt time r buffer.old buffer.new result }
{
    if !has_room(buffer.len(), LONGEST, |rest| put_notice(rest, r, time)) {
        return Written::from(Err(Refusal::BufferTooShort));
    }
    Written::from(Ok(put_notice(buffer, r, time)))
}

// Writes the text of a record with a heading time that is known: 13, then 14 where the buffer is too short for it. A refused writing touches no byte.
pub fn write_at(r: Record, time: u32, buffer: &mut [u8]) -> Written
    ensures { WroteAt time r buffer.old buffer.new result }
{
    if !valid_record(r) {
        return Written::from(Err(Refusal::InvalidRecord));
    }
    write_valid(r, time, buffer)
}

// Writes the text of a record, its heading time worked out: 13, 14.
pub fn write(r: Record, buffer: &mut [u8]) -> Written
    ensures { Wrote r buffer.old buffer.new result }
{
    write_at(r, latest_time(r.rows), buffer)
}

// Reads a message and writes it anew, or answers the refusal of its reading; a record that was read is valid and is not judged again.
pub fn rewrite(message: &[u8], buffer: &mut [u8]) -> Written
    ensures { Rewrote message.now buffer.old buffer.new result }
{
    let mut record = blank_record();
    match record_into(&mut record, message) {
        Ok(()) => write_valid(record, latest_time(record.rows), buffer),
        Err(fault) => Written::from(Err(fault.refusal)),
    }
}

// ---- Sameness

// Part by part, those first that differ soonest.
#[tactic(auto, using(text::specs::Laws::Tests::and_is), unfolding(crate::specs::Same::same_record))]
fn same_record(a: Record, b: Record) -> bool
    ensures { result ≡ same_record a b }
{
    same_title(a.title, b.title)
        && same_filing(a.filing, b.filing)
        && same_addresses(a.addresses, b.addresses)
        && same_rows(a.rows, b.rows)
        && same_items(a.items, b.items)
        && same_language(a.language, b.language)
}

// Whether both messages are accepted and their records are equal.
pub fn same(a: &[u8], b: &[u8]) -> bool
    ensures { SaysSame a.now b.now result }
{
    let mut first = blank_record();
    let Ok(()) = record_into(&mut first, a) else {
        return false;
    };
    let mut second = blank_record();
    let Ok(()) = record_into(&mut second, b) else {
        return false;
    };
    same_record(first, second)
}
