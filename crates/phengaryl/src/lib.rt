// The C interface: the library's own functions under the names of include/phengaryl.h, each with its promise. Nothing here relies on a caller.

#![tactic(auto)]

ghost use Rattle.std.specs.Prelude.{◌≡◌};
ghost use Rattle.text.specs.Put.{Put};
ghost use Rattle.surface.specs.Assess.{assessing};
ghost use Rattle.row.specs.Agreement.{agreement};
ghost use Rattle.due.specs.Change.{change};
ghost use Rattle.rowtext.specs.Reading.{find_row, row_answer};
ghost use Rattle.rowtext.specs.Writing.{row_text, WroteRow};
ghost use Rattle.radio.specs.Answers.{radio_reading, WroteRadio};
ghost use Rattle.notice.specs.Reading.{reading};
ghost use Rattle.notice.specs.Writing.{Wrote};
ghost use Rattle.notice.specs.Rewriting.{Rewrote};
ghost use Rattle.notice.specs.Same.{SaysSame};
ghost use Rattle.listing.specs.Listing.{listing};
ghost use Rattle.board.specs.Board.{opening, valid_board};
ghost use Rattle.board.specs.Report.{report};
ghost use Rattle.desktext.specs.Desk.{desk_text};
ghost use Rattle.boardnotice.specs.Writing.{WroteBoard};
ghost use Rattle.boardnotice.specs.DeskNotice.{WroteDeskNotice};

use board::{Answer, Board, Sent, open, report, valid_board};
use boardnotice::{Details, board_notice, write_board};
use body::Rows;
use desktext::{RunwayList, desk};
use due::{Change, compare};
use items::{Items, Language};
use listing::list;
use notice::{read, rewrite, same, write};
use radio::{Radio, read_radio, write_radio};
use record::{Reading, Record};
use row::{Agreement, Row, disagreeing};
use rowtext::{RowRead, read_row, write_row};
use surface::{Assessment, Observation, assess};
use text::Written;

// ---- Messages and records

// The record of a message, or why it is refused.
#[unsafe(no_mangle)]
pub extern "C" fn phengaryl_read(message: &[u8]) -> Reading
    ensures { result ≡ reading message.now }
{
    read(message)
}

// A record as a message, in canonical form.
#[unsafe(no_mangle)]
pub extern "C" fn phengaryl_write(record: Record, out: &mut [u8]) -> Written
    ensures { Wrote «record» out.old out.new result }
{
    write(record, out)
}

// A message anew, in canonical form.
#[unsafe(no_mangle)]
pub extern "C" fn phengaryl_rewrite(message: &[u8], out: &mut [u8]) -> Written
    ensures { Rewrote message.now out.old out.new result }
{
    rewrite(message, out)
}

// Whether two messages are accepted and tell the same.
#[unsafe(no_mangle)]
pub extern "C" fn phengaryl_same(one: &[u8], other: &[u8]) -> bool
    ensures { SaysSame one.now other.now result }
{
    same(one, other)
}

// What the lister prints of a message, put as far as the buffer goes; answers how many bytes it has.
#[unsafe(no_mangle)]
pub extern "C" fn phengaryl_list(message: &[u8], out: &mut [u8]) -> usize
    ensures { Put 0 (listing message.now) out.old out.new result }
{
    list(message, out)
}

// ---- Observations and rows

// The third that is reported of an observation, or why it is refused.
#[unsafe(no_mangle)]
pub extern "C" fn phengaryl_assess(observation: Observation) -> Assessment
    ensures { result ≡ assessing observation }
{
    assess(observation)
}

// How many thirds of a row have a code that Table 1 does not allow, or 19.
#[unsafe(no_mangle)]
pub extern "C" fn phengaryl_disagreeing(row: Row) -> Agreement
    ensures { result ≡ agreement row }
{
    disagreeing(row)
}

// What a new row changes against the row shown: which thirds count, and whether a new notice is due.
#[unsafe(no_mangle)]
pub extern "C" fn phengaryl_due(old: Row, new: Row) -> Change
    ensures { result ≡ change old new }
{
    compare(old, new)
}

// The row of a text, or the number and the place of the group at fault.
#[unsafe(no_mangle)]
pub extern "C" fn phengaryl_read_row(text: &[u8]) -> RowRead
    ensures { result ≡ row_answer text.now (find_row text.now) }
{
    read_row(text)
}

// A row's text, if it is valid and there is room; answers how many bytes were filled.
#[unsafe(no_mangle)]
pub extern "C" fn phengaryl_write_row(row: Row, out: &mut [u8]) -> usize
    ensures { WroteRow (row_text row) out.old out.new result }
{
    write_row(out, row)
}

// ---- The radio record

// Rows as a radio record.
#[unsafe(no_mangle)]
pub extern "C" fn phengaryl_radio_write(rows: Rows, out: &mut [u8]) -> Written
    ensures { WroteRadio rows out.old out.new result }
{
    write_radio(rows, out)
}

// The rows of a radio record, or why it is refused.
#[unsafe(no_mangle)]
pub extern "C" fn phengaryl_radio_read(bytes: &[u8]) -> Radio
    ensures { result ≡ radio_reading bytes.now }
{
    read_radio(bytes)
}

// ---- The board

// A board for the runways of an aerodrome, or 17. C hands over no array, so the aerodrome is lent and the list is a struct.
#[unsafe(no_mangle)]
pub extern "C" fn phengaryl_open(aerodrome: &[u8; 4], list: RunwayList) -> Answer
    ensures { result ≡ opening aerodrome.now list.count list.runways list.owners }
{
    open(*aerodrome, list.count, list.runways, list.owners)
}

// The board after a report of a row by a desk.
#[unsafe(no_mangle)]
pub extern "C" fn phengaryl_report(board: Board, desk: u32, row: Row) -> Answer
    ensures { result ≡ report board desk row }
{
    report(board, Sent { desk, row })
}

// Whether a board keeps its rules.
#[unsafe(no_mangle)]
pub extern "C" fn phengaryl_valid_board(board: Board) -> bool
    ensures { result ≡ valid_board board }
{
    valid_board(board)
}

// The notice of a board.
#[unsafe(no_mangle)]
pub extern "C" fn phengaryl_write_board(
    board: Board,
    details: Details,
    items: Items,
    language: Language,
    out: &mut [u8],
) -> Written
    ensures { WroteBoard board details items language out.old out.new result }
{
    write_board(board, details, items, language, out)
}

// ---- The desk's text

// What the desk prints for a whole input, put as far as the buffer goes; answers how many bytes it has, told up to 65,536 past the buffer's end.
#[unsafe(no_mangle)]
pub extern "C" fn phengaryl_desk(input: &[u8], out: &mut [u8]) -> usize
    ensures { Put 0 (desk_text input.now) out.old out.new result }
{
    desk(input, out)
}

// The notice of the board after a desk's input, with the details of a model; answers the refusal, and through `filled` how many bytes were filled.
#[unsafe(no_mangle)]
pub extern "C" fn phengaryl_board_notice(
    desk: &[u8],
    model: &[u8],
    out: &mut [u8],
    filled: &mut usize,
) -> u8
    ensures { WroteDeskNotice desk.now model.now out.old out.new (record { refusal = result; length = filled.new }) }
{
    let written = board_notice(desk, model, out);
    *filled = written.length;
    written.refusal
}
