// The record: what a message says, part by part. Its rules, its text, and the answer to a message whose parts fit.

#![tactic(auto)]

ghost use Rattle.std.specs.Prelude.{◌≡◌};
ghost use Rattle.text.specs.Put.{Put};
ghost use Rattle.body.specs.Rows.{rows_of};
ghost use Rattle.record.specs.Record.{blank_record, valid_record};
ghost use Rattle.record.specs.Notice.{notice_text_at};
ghost use Rattle.record.specs.Answer.{accepted, refused};
ghost use Rattle.record.specs.Code.Fitted.{mismatch, record_of};

use body::{Rows, blank_rows, latest_time, put_rows, valid_rows};
use fill::put;
use front::{Front, blank_front, put_front};
use frontlines::{Addresses, Filing, Title, valid_addresses, valid_filing, valid_title};
use items::{Items, Language, holds_items, holds_language};
use remarks::{Remarks, no_remarks, put_remarks};
use scan::same_bytes;
use text::refusal::Refusal;

// What a message says, part by part; the heading time is the latest row time and is not stored.
#[repr(C)]
#[derive(Clone, Copy)]
pub struct Record {
    pub addresses: Addresses,
    pub filing: Filing,
    pub title: Title,
    pub rows: Rows,
    pub items: Items,
    pub language: Language,
}

// A refusal number and the place of what is wrong, 0 and 0 for accepted, and the record: blank where it is refused.
#[repr(C)]
#[derive(Clone, Copy)]
pub struct Reading {
    // stays: C interface: 0, or the number of a refusal
    pub refusal: u8,
    pub place: usize,
    pub record: Record,
}

// ---- The answer to a message

// 10, 11, 12 in that order where the lines do not agree.
pub fn mismatch(front: Front, rows: Rows) -> Result<(), Refusal>
    ensures { result ≡ mismatch front (rows_of rows) }
{
    if u32::from(front.title.serial) != front.serial {
        return Err(Refusal::SerialsDiffer);
    }
    if !same_bytes(&front.title.aerodrome, &front.aerodrome) {
        return Err(Refusal::AerodromesDiffer);
    }
    if front.time != latest_time(rows) {
        return Err(Refusal::NotLatestTime);
    }
    Ok(())
}

// The record that the parts make.
pub fn record_of(front: Front, rows: Rows, remarks: Remarks) -> Record
    ensures { result ≡ record_of front rows remarks }
{
    Record {
        addresses: front.addresses,
        filing: front.filing,
        title: front.title,
        rows,
        items: remarks.items,
        language: remarks.language,
    }
}

pub fn accepted(r: Record) -> Reading
    ensures { result ≡ accepted r }
{
    Reading {
        refusal: 0,
        place: 0,
        record: r,
    }
}

// The record that nothing was read into.
pub fn blank_record() -> Record
    ensures { result ≡ blank_record }
{
    record_of(blank_front(), blank_rows(), no_remarks())
}

// stays: a refusal by its number, as it was promised of.
pub fn refused(refusal: u8, place: usize) -> Reading
    ensures { result ≡ refused refusal place }
{
    Reading {
        refusal,
        place,
        record: blank_record(),
    }
}

// ---- Its rules and its text

// Every part is valid.
#[tactic(auto, using(text::specs::Laws::Tests::and_is), unfolding(crate::specs::Record::valid_record))]
pub fn valid_record(r: Record) -> bool
    ensures { result ≡ valid_record r }
{
    valid_addresses(r.addresses)
        && valid_filing(r.filing)
        && valid_title(r.title)
        && valid_rows(r.rows)
        && holds_items(r.items)
        && holds_language(r.language)
}

// Puts the text of any record with the heading time given part by part, as far as the buffer goes, and judges nothing.
pub fn put_notice(out: &mut [u8], r: Record, time: u32) -> usize
    ensures { Put 0 (notice_text_at time r) out.old out.new result }
{
    let at = put_front(out, r.addresses, r.filing, r.title, time);
    let at = put_rows(out, at, r.rows);
    let at = put_remarks(out, at, r.items, r.language);
    put(out, at, b")\n")
}
