// A board written as a notice.

#![tactic(auto)]

ghost use Rattle.std.specs.Prelude.{◌≡◌};
ghost use Rattle.body.specs.Rows.{make_rows};
ghost use Rattle.board.specs.Board.{reported};
ghost use Rattle.boardnotice.specs.Writing.{board_record, WroteBoard};
ghost use Rattle.boardnotice.specs.DeskNotice.{details_of, WroteDeskNotice};

use board::{Board, valid_board};
use body::Rows;
use desktext::desk_board;
use frontlines::{Addresses, Filing, Title};
use items::{Items, Language};
use notice::{read, write_at};
use record::Record;
use row::{Row, blank_row, is_blank_row};
use text::Written;
use text::refusal::Refusal;

// What the heading of a notice says besides the aerodrome and the time.
#[repr(C)]
#[derive(Clone, Copy)]
pub struct Details {
    pub addresses: Addresses,
    pub filing: Filing,
    pub region: [u8; 2],
    pub serial: u16,
}

// The rows shown, in board order, zeros behind them.
fn shown_rows(rows: &[Row; 8]) -> Rows
    ensures { result ≡ make_rows (reported rows.now) }
{
    let mut shown = [blank_row(); 8];
    let mut count: u8 = 0;
    for &r in rows {
        if !is_blank_row(r) {
            shown[count as usize] = r;
            count += 1;
        }
    }
    Rows { count, rows: shown }
}

// What the notice of a board says; its heading time is the stored one, which a record does not hold.
fn board_record(b: Board, d: Details, items: Items, language: Language) -> Record
    ensures { result ≡ board_record b d items language }
{
    let region = d.region;
    let aerodrome = b.aerodrome;
    Record {
        addresses: d.addresses,
        filing: d.filing,
        title: Title {
            region,
            serial: d.serial,
            aerodrome,
        },
        rows: shown_rows(&b.rows),
        items,
        language,
    }
}

// Writes the notice of a board, the stored time in its heading: 17, then 21 where no row is shown, then 13 and 14. A refused writing touches no byte.
pub fn write_board(
    b: Board,
    d: Details,
    items: Items,
    language: Language,
    buffer: &mut [u8],
) -> Written
    ensures { WroteBoard b d items language buffer.old buffer.new result }
{
    if !valid_board(b) {
        return Written::from(Err(Refusal::WrongBoard));
    }
    let r = board_record(b, d, items, language);
    if r.rows.count == 0 {
        return Written::from(Err(Refusal::NoReport));
    }
    write_at(r, b.latest, buffer)
}

// What the heading of a record says besides the aerodrome and the time.
fn details_of(r: Record) -> Details
    ensures { result ≡ details_of r }
{
    let region = r.title.region;
    Details {
        addresses: r.addresses,
        filing: r.filing,
        region,
        serial: r.title.serial,
    }
}

// Writes the notice of the board after a desk's input, with the details, items and plain language of a message: 17, 21, 13, 14.
// The record of a refused message is all zeros, so that writing it is refused by 13.
pub fn board_notice(desk: &[u8], model: &[u8], buffer: &mut [u8]) -> Written
    ensures { WroteDeskNotice desk.now model.now buffer.old buffer.new result }
{
    let record = read(model).record;
    write_board(
        desk_board(desk),
        details_of(record),
        record.items,
        record.language,
        buffer,
    )
}
