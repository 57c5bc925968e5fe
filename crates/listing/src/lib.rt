// What the lister prints of a message.

#![tactic(auto)]

ghost use Rattle.std.specs.Prelude.{◌≡◌};
ghost use Rattle.text.specs.Put.{Put};
ghost use Rattle.body.specs.Rows.{rows_of};
ghost use Rattle.record.specs.Notice.{notice_text};
ghost use Rattle.listing.specs.Listing.{disagreeing_thirds, counted, accepted_line, refused_line, listing};

use body::{Rows, latest_time};
use fill::{in_rest, put, put_number};
use notice::read;
use record::{Record, put_notice};
use row::disagreements;

// Those of all rows together.
fn disagreeing_thirds(r: Rows) -> u8
    ensures { result ≡ disagreeing_thirds (rows_of r) }
{
    let mut n = 0;
    for &row in r.shown() {
        n += disagreements(row);
    }
    n
}

// A space, and a number in one digit or two.
fn put_counted(out: &mut [u8], at: usize, n: u8) -> usize
    ensures { Put at (counted n) out.old out.new result }
{
    let at = put(out, at, b" ");
    put_number(out, at, n)
}

// The first line of an accepted message.
fn put_accepted(out: &mut [u8], r: Record) -> usize
    ensures { Put 0 (accepted_line r) out.old out.new result }
{
    let at = put(out, 0, b"ACCEPTED");
    let at = put_counted(out, at, r.rows.count);
    let at = put_counted(out, at, r.items.count);
    let at = put_counted(out, at, disagreeing_thirds(r.rows));
    put(out, at, b"\n")
}

// The only line of a refused one.
fn put_refused(out: &mut [u8], refusal: u8) -> usize
    ensures { Put 0 (refused_line refusal) out.old out.new result }
{
    let at = put(out, 0, b"REFUSED");
    let at = put_counted(out, at, refusal);
    put(out, at, b"\n")
}

// The record's text in the rest of the buffer from `at` on.
fn notice_at(out: &mut [u8], at: usize, r: Record) -> usize
    ensures { Put at (notice_text r) out.old out.new result }
{
    let time = latest_time(r.rows);
    in_rest(out, at, |rest| put_notice(rest, r, time))
}

// Puts what the lister prints of a message, as far as the buffer goes, and answers its length.
pub fn list(message: &[u8], out: &mut [u8]) -> usize
    ensures { Put 0 (listing message.now) out.old out.new result }
{
    let a = read(message);
    if a.refusal != 0 {
        return put_refused(out, a.refusal);
    }
    let at = put_accepted(out, a.record);
    notice_at(out, at, a.record)
}
