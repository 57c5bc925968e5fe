// The desk: what its lines mean, and what it prints for an input that arrives in pieces: the board opened, each report answered, the rows shown.

#![tactic(auto)]

ghost use Rattle.std.specs.Prelude.{◌≡◌, drop, MatchResult};
ghost use Rattle.text.specs.Put.{Put};
ghost use Rattle.desktext.specs.Line.{shown_text, read_owned, read_runways, list_found, opening_line, read_sender, report_line};
ghost use Rattle.board.specs.Board.{answer};
ghost use Rattle.board.specs.Report.{report};
ghost use Rattle.desktext.specs.Code.Held.{HeldSpace, HeldOwned};
ghost use Rattle.desktext.specs.Desk.{answer_line, shown_rows, refused_text, desk_text, desk_board};
ghost use Rattle.desktext.specs.Pieces.{opened_standing, opened_line, board_of, after_line, line_answer, end_answer};
ghost use Rattle.desktext.specs.Pieces.{start_state, begun, kept_byte, without_return, fed_state, fed_text, last_standing, last_text, finish_text};
ghost use Rattle.text.specs.Names.{is_space, read_count};
ghost use Rattle.text.specs.Read.{whole};
ghost use Rattle.text.specs.Refusals.{number};
ghost use Rattle.text.specs.Code.Held.{Held};

use board::{
    Answer, BLANK_RUNWAY, Board, MOST_RUNWAYS, Runway, Sent, blank_board, open, refused_opening,
    updated,
};
use fill::{in_rest, put, put_number, told_behind};
use frontlines::read_aerodrome;
use row::{Row, valid_row};
use rowtext::{find_row, put_any_row};
use runway::read_runway;
use scan::{digits, word};
use text::refusal::Refusal;
use text::{Found, LONGEST, place};

// ---- The desk's lines

// Runways and their owners in their arrays, zeros past the count.
// stays: C interface
#[repr(C)]
#[derive(Clone, Copy)]
pub struct RunwayList {
    pub count: u8,
    pub runways: [Runway; 8],
    pub owners: [u8; 8],
}

// A runway, its owner, and the place behind them.
#[derive(Clone, Copy)]
struct OwnedFound {
    runway: Runway,
    owner: u8,
    next: usize,
}

// The place behind one space at `i`.
fn past_space(s: &[u8], i: usize) -> Option<usize>
    ensures { HeldSpace s.now (read_count is_space 1 (drop i s.now)) result }
{
    if i < s.len() && s[i] == b' ' {
        Some(i + 1)
    } else {
        None
    }
}

// One space, a runway, and its owner behind a slash at `i`.
fn owned_runway(s: &[u8], i: usize) -> Option<OwnedFound>
    ensures { HeldOwned s.now (read_owned (drop i s.now)) result }
{
    let at = past_space(s, i)?;
    let w = read_runway(s, at)?;
    let slash = word(s, w.next, b"/", 0)?;
    let owner = digits(s, slash.next, 1)?;
    Some(OwnedFound {
        runway: Runway {
            number: w.number,
            side: w.side,
        },
        owner: owner.value as u8,
        next: owner.next,
    })
}

// The runways with their owners up to the end of the line, each read at its place.
fn runway_list(s: &[u8]) -> Option<RunwayList>
    ensures { result ≡ list_found (whole (read_runways s.now)) }
{
    let mut list = RunwayList {
        count: 0,
        runways: [BLANK_RUNWAY; 8],
        owners: [0; 8],
    };
    let mut at = 0;
    // stays: no plainer: a step is as long as what it reads
    while at < s.len() {
        if list.count == MOST_RUNWAYS {
            return None;
        }
        let found = owned_runway(s, at)?;
        list.runways[list.count as usize] = found.runway;
        list.owners[list.count as usize] = found.owner;
        list.count += 1;
        at = found.next;
    }
    Some(list)
}

const AERODROME_SIZE: usize = 4;

// The board that a line with the aerodrome and the owned runways, parted by one space, opens; 17 and the blank board for any other line.
fn open_line(line: &[u8]) -> Answer
    ensures { result ≡ opening_line line.now }
{
    if line.len() < AERODROME_SIZE {
        return refused_opening();
    }
    let Some(aerodrome) = read_aerodrome(&line[..AERODROME_SIZE]) else {
        return refused_opening();
    };
    let Some(list) = runway_list(&line[AERODROME_SIZE..]) else {
        return refused_opening();
    };
    open(aerodrome, list.count, list.runways, list.owners)
}

// The desk that a row line starts with: one digit, and exactly one space.
#[tactic(auto, unfolding(crate::specs::Line::read_sender))]
fn sender(line: &[u8]) -> Option<Found>
    ensures { Held line.now (read_sender line.now) result }
{
    let desk = digits(line, 0, 1)?;
    let next = past_space(line, desk.next)?;
    Some(Found {
        value: desk.value,
        next,
    })
}

// The report that a line tells, or why it tells none: it does not start with a desk or is over 4,096 bytes, or what stands behind is no row.
fn read_report(line: &[u8]) -> Result<Sent, Refusal>
    ensures { MatchResult result
        (λ x. (b : Board) → report_line b line.now ≡ report b x.desk x.row)
        (λ e. (b : Board) → report_line b line.now ≡ answer (number e) b) }
{
    if LONGEST < line.len() {
        return Err(Refusal::NoRow);
    }
    let Some(start) = sender(line) else {
        return Err(Refusal::NoRow);
    };
    match find_row(&line[start.next..]) {
        Ok(row) => Ok(Sent {
            desk: start.value,
            row,
        }),
        Err(fault) => Err(fault.refusal),
    }
}

// The report that a line is, taken or refused; a line that is none leaves the board as it was.
fn report_line(b: Board, line: &[u8]) -> Answer
    ensures { result ≡ report_line b line.now }
{
    match read_report(line) {
        Ok(x) => updated(b, x),
        Err(refusal) => Answer {
            refusal: refusal.number(),
            board: b,
        },
    }
}

// The row's canonical line; nothing for a row that is not valid, so for zeros.
#[tactic(auto, using(crate::proofs::Lines::no_line))]
fn put_line(rest: &mut [u8], r: Row) -> usize
    ensures { Put 0 (shown_text r) rest.old rest.new result }
{
    if !valid_row(r) {
        return put(rest, 0, b"");
    }
    let at = put_any_row(rest, r);
    put(rest, at, b"\n")
}

// ---- What the desk prints

// The answer to a report: its refusal number, or 0, on a line of its own.
fn put_answer(out: &mut [u8], at: usize, n: u8) -> usize
    ensures { Put at (answer_line n) out.old out.new result }
{
    let at = put_number(out, at, n);
    put(out, at, b"\n")
}

// The line of a row shown, in the rest of the buffer from `at` on.
fn shown_at(out: &mut [u8], at: usize, r: Row) -> usize
    ensures { Put at (shown_text r) out.old out.new result }
{
    in_rest(out, at, |rest| put_line(rest, r))
}

// The rows shown, in board order.
fn put_rows(out: &mut [u8], at: usize, b: Board) -> usize
    ensures { Put at (shown_rows 8 b) out.old out.new result }
{
    let mut behind = told_behind(out, at, 0);
    for &r in &b.rows {
        behind = shown_at(out, behind, r);
    }
    behind
}

fn put_refused(out: &mut [u8], at: usize) -> usize
    ensures { Put at refused_text out.old out.new result }
{
    put(out, at, b"REFUSED 17\n")
}

// ---- Line by line

// Where the desk stands between two lines: it waits for its first one, keeps a board, or is over, since its opening was refused.
#[derive(Clone, Copy)]
pub enum Standing {
    Waiting,
    Keeping(Board),
    Over,
}

impl Standing {
    // The board that the desk keeps; blank where none is opened.
    fn board(self) -> Board
        ensures { result ≡ board_of self }
    {
        match self {
            Standing::Keeping(b) => b,
            Standing::Waiting | Standing::Over => blank_board(),
        }
    }
}

// The desk after a line, and the place behind what was put.
#[derive(Clone, Copy)]
struct Turn {
    standing: Standing,
    behind: usize,
}

// The first line: it opens the board, or the desk is over.
fn take_opening(line: &[u8], out: &mut [u8], at: usize) -> Turn
    ensures standing_value { result.standing ≡ opened_standing (opening_line line.now) }
    ensures put { Put at (opened_line (opening_line line.now)) out.old out.new result.behind }
{
    let a = open_line(line);
    if a.refusal != 0 {
        return Turn {
            standing: Standing::Over,
            behind: put_refused(out, at),
        };
    }
    Turn {
        standing: Standing::Keeping(a.board),
        behind: put(out, at, b"OPEN\n"),
    }
}

// A further line: a report.
fn take_report_line(b: Board, line: &[u8], out: &mut [u8], at: usize) -> Turn
    ensures standing_value { result.standing ≡ Standing.Keeping (report_line b line.now).board }
    ensures put { Put at (answer_line (report_line b line.now).refusal) out.old out.new result.behind }
{
    let a = report_line(b, line);
    Turn {
        standing: Standing::Keeping(a.board),
        behind: put_answer(out, at, a.refusal),
    }
}

// One line, and what is printed for it.
#[tactic(auto, using(text::specs::Laws::Put::nothing_put), unfolding(crate::specs::Pieces::after_line, crate::specs::Pieces::line_answer))]
fn take_line(d: Standing, line: &[u8], out: &mut [u8], at: usize) -> Turn
    ensures standing_value { result.standing ≡ after_line d line.now }
    ensures put { Put at (line_answer d line.now) out.old out.new result.behind }
{
    match d {
        Standing::Waiting => take_opening(line, out, at),
        Standing::Keeping(b) => take_report_line(b, line, out, at),
        Standing::Over => Turn {
            standing: d,
            behind: told_behind(out, at, 0),
        },
    }
}

// What is printed at the end of the input.
#[tactic(auto, using(text::specs::Laws::Put::nothing_put), unfolding(crate::specs::Pieces::end_answer))]
fn put_end(out: &mut [u8], at: usize, d: Standing) -> usize
    ensures { Put at (end_answer d) out.old out.new result }
{
    match d {
        Standing::Waiting => put_refused(out, at),
        Standing::Keeping(b) => put_rows(out, at, b),
        Standing::Over => told_behind(out, at, 0),
    }
}

// ---- Piece by piece

const LF: u8 = 10;

const CR: u8 = 13;

// Of a line are kept 4,096 bytes, the CR that may end it, and one more, which tells it to be over-long.
const MOST_KEPT: usize = 4098;

// Where the desk stands, and the bytes of the line that has not ended yet: the first `count` of those held.
#[derive(Clone, Copy)]
pub struct State {
    pub standing: Standing,
    // stays: no heap, so that the bytes stand in fixed memory
    pub held: [u8; 4098],
    pub count: usize,
}

// The state after a piece, and the place behind what was put.
#[derive(Clone, Copy)]
pub struct Fed {
    pub state: State,
    pub behind: usize,
}

// Before the first piece.
pub fn start() -> State
    ensures { result ≡ start_state }
{
    State {
        standing: Standing::Waiting,
        held: [0; 4098],
        count: 0,
    }
}

impl State {
    // The bytes of the line that has not ended.
    fn begun(&self) -> &[u8]
        ensures { result.now ≡ begun self.now }
    {
        let n = place(&self.held, self.count);
        &self.held[..n]
    }

    // One byte more of it, as far as it is kept.
    fn keep(&mut self, b: u8)
        ensures { self.new ≡ kept_byte self.old b }
    {
        if self.count < MOST_KEPT {
            self.held[self.count] = b;
            self.count += 1;
        }
    }
}

// A line without the CR that is part of its end.
#[tactic(auto, using(std::proofs::lemmas::Grind::common_steps, crate::proofs::Steps::return_cut, crate::proofs::Steps::return_kept))]
fn without_return(line: &[u8]) -> &[u8]
    ensures { result.now ≡ without_return line.now }
{
    if line.last() == Some(&CR) {
        &line[..line.len() - 1]
    } else {
        line
    }
}

// One piece more of the input: puts the answers to the lines that end in it, from `at` on and as far as the buffer goes, and answers what is kept.
pub fn feed(s: State, piece: &[u8], out: &mut [u8], at: usize) -> Fed
    ensures state_value { result.state ≡ fed_state s piece.now }
    ensures put { Put at (fed_text s piece.now) out.old out.new result.behind }
{
    let mut state = s;
    let mut behind = at;
    for &b in piece {
        if b == LF {
            let turn = take_line(state.standing, without_return(state.begun()), out, behind);
            state.standing = turn.standing;
            state.count = 0;
            behind = turn.behind;
        } else {
            state.keep(b);
        }
    }
    Fed {
        state,
        behind: told_behind(out, behind, 0),
    }
}

// A last line that lacks its end.
#[tactic(auto, using(text::specs::Laws::Put::nothing_put), unfolding(crate::specs::Pieces::last_standing, crate::specs::Pieces::last_text))]
fn take_last(s: &State, out: &mut [u8], at: usize) -> Turn
    ensures standing_value { result.standing ≡ last_standing s.now }
    ensures put { Put at (last_text s.now) out.old out.new result.behind }
{
    if s.count == 0 {
        return Turn {
            standing: s.standing,
            behind: told_behind(out, at, 0),
        };
    }
    take_line(s.standing, s.begun(), out, at)
}

// The end of the input: puts the answer to a last line that lacks its end, and the rows shown; answers the place behind them.
pub fn finish(s: State, out: &mut [u8], at: usize) -> usize
    ensures { Put at (finish_text s) out.old out.new result }
{
    let turn = take_last(&s, out, at);
    put_end(out, turn.behind, turn.standing)
}

// What the desk prints for a whole input, put as far as the buffer goes; answers how many bytes it has, told up to 65,536 past the buffer's end.
pub fn desk(input: &[u8], out: &mut [u8]) -> usize
    ensures { Put 0 (desk_text input.now) out.old out.new result }
{
    let fed = feed(start(), input, out, 0);
    finish(fed.state, out, fed.behind)
}

// The board that the desk keeps after a whole input; blank where none is opened.
pub fn desk_board(input: &[u8]) -> Board
    ensures { result ≡ desk_board input.now }
{
    // what is printed meanwhile is not wanted
    let mut out = [0; 1];
    let fed = feed(start(), input, &mut out, 0);
    take_last(&fed.state, &mut out, 0).standing.board()
}
