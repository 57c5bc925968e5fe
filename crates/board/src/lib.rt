// The board: the rows last observed on the runways of one aerodrome. Its rules, opening and reports.
// The definitions that the promises cite stand in specs/; demand 3 is proofs/Theorems.

#![tactic(auto)]

ghost use Rattle.std.specs.Prelude.{◌≡◌, ◌<◌, ◌≤◌, length, take, MatchOption, MatchResult};
ghost use Rattle.std.specs.List.{list_all, zip};
ghost use Rattle.text.specs.Choice.{all};
ghost use Rattle.text.specs.Refusals.{number};
ghost use Rattle.board.specs.Board.{is_aerodrome, blank_runway, is_blank_runway, rises, rising, names, fits_place, fit_places, latest_shown, is_desk, valid_opening, valid_board, blank_board, answer, opening, refused_opening};
ghost use Rattle.board.specs.Report.{place_of, place_for, is_news, refusal, newest, report};
ghost use Rattle.board.specs.Laws.Latest.{Goods};

use body::later_of;
use frontlines::read_aerodrome;
use row::{HIGHEST_RUNWAY, Row, blank_row, is_blank_row, valid_row};
use runway::{is_later, valid_runway};
use scan::zeros_from;
use text::refusal::Refusal;

// Runways rise by number, and then by side.
// stays: C interface
#[repr(C)]
#[derive(Clone, Copy, PartialEq, Eq, PartialOrd, Ord)]
pub struct Runway {
    pub number: u8,
    // 0 none, 1 L, 2 C, 3 R
    pub side: u8,
}

// Zeros in every place that is unused or unreported.
// stays: C interface
#[repr(C)]
#[derive(Clone, Copy)]
pub struct Board {
    pub aerodrome: [u8; 4],
    pub count: u8,
    pub runways: [Runway; 8],
    // the desk of each runway, 1 or 2
    pub owners: [u8; 8],
    // the latest time of the rows shown, 0 where none is
    pub latest: u32,
    pub rows: [Row; 8],
}

// A report: a row, and the desk that sends it.
#[derive(Clone, Copy)]
pub struct Sent {
    pub desk: u32,
    pub row: Row,
}

// A refusal number, 0 for taken, and the board afterwards.
// stays: C interface
#[repr(C)]
#[derive(Clone, Copy)]
pub struct Answer {
    // stays: C interface: 0, or the number of a refusal
    pub refusal: u8,
    pub board: Board,
}

pub const PLACES: usize = 8;

pub const MOST_RUNWAYS: u8 = 8;

pub const BLANK_RUNWAY: Runway = Runway { number: 0, side: 0 };

// ---- The rules

fn is_aerodrome(a: [u8; 4]) -> bool
    ensures { result ≡ is_aerodrome a }
{
    read_aerodrome(&a).is_some()
}

#[tactic(auto, using(text::specs::Laws::Tests::and_is), unfolding(crate::specs::Board::is_blank_runway))]
fn is_blank_runway(w: Runway) -> bool
    ensures { result ≡ is_blank_runway w }
{
    w == BLANK_RUNWAY
}

// A runway that may stand behind `v` in a list.
#[tactic(auto, using(text::specs::Laws::Tests::and_is), unfolding(crate::specs::Board::rises, crate::specs::Board::comes_before))]
fn rises(v: Runway, w: Runway) -> bool
    ensures { result ≡ rises v w }
{
    valid_runway(HIGHEST_RUNWAY, w.number, w.side) && v < w
}

#[tactic(auto, using(crate::proofs::Places::rise_end, crate::proofs::Places::rise_on, crate::proofs::Places::rise_off))]
fn all_rise(runways: &[Runway]) -> bool
    ensures { result ≡ rising blank_runway runways.now }
{
    let mut last = BLANK_RUNWAY;
    for &w in runways {
        if !rises(last, w) {
            return false;
        }
        last = w;
    }
    true
}

fn all_blank(runways: &[Runway]) -> bool
    ensures { result ≡ all is_blank_runway runways.now }
{
    runways.iter().all(|&w| is_blank_runway(w))
}

#[tactic(auto, unfolding(crate::specs::Board::is_desk))]
fn is_desk(desk: u32) -> bool
    ensures { result ≡ is_desk desk }
{
    matches!(desk, 1 | 2)
}

fn all_desks(owners: &[u8]) -> bool
    ensures { result ≡ all is_desk owners.now }
{
    owners.iter().all(|&owner| is_desk(u32::from(owner)))
}

// What opening takes: an aerodrome, 1 to 8 runways that rise, and a desk for each, with zeros behind them.
#[tactic(auto, using(text::specs::Laws::Tests::and_is, crate::proofs::Places::rest_all), unfolding(crate::specs::Board::valid_list, crate::specs::Board::valid_owners, crate::specs::Board::valid_opening))]
fn valid_opening(aerodrome: [u8; 4], count: u8, runways: [Runway; 8], owners: [u8; 8]) -> bool
    ensures { result ≡ valid_opening aerodrome count runways owners }
{
    let n = usize::from(count);
    is_aerodrome(aerodrome)
        && 1 <= n
        && n <= PLACES
        && all_rise(&runways[..n])
        && all_blank(&runways[n..])
        && all_desks(&owners[..n])
        && zeros_from(&owners, n)
}

#[tactic(auto, using(text::specs::Laws::Tests::and_is), unfolding(crate::specs::Board::names))]
fn names(r: Row, w: Runway) -> bool
    ensures { result ≡ names r w }
{
    r.number == w.number && r.side == w.side
}

// A shown row is valid and stands in its own runway's place.
#[tactic(auto, using(text::specs::Laws::Tests::and_is), unfolding(crate::specs::Board::fits_place))]
fn fits_place(w: Runway, r: Row) -> bool
    ensures { result ≡ fits_place w r }
{
    is_blank_row(r) || (valid_row(r) && names(r, w))
}

// Each row stands in its own runway's place.
fn all_fit(runways: &[Runway], rows: &[Row]) -> bool
    ensures { result ≡ list_all (λ p. fits_place p.0 p.1) (zip runways.now rows.now) }
{
    runways.iter().zip(rows).all(|(&w, &r)| fits_place(w, r))
}

// Each row shown stands in its own runway's place, and zeros in every place past the runways.
#[tactic(auto, using(text::specs::Laws::Tests::and_is, crate::proofs::Places::fit_split, crate::proofs::Places::rest_all))]
fn fit_places(runways: &[Runway], rows: &[Row]) -> bool
    requires { length runways.now ≤ length rows.now }
    ensures { result ≡ fit_places runways.now rows.now }
{
    all_fit(runways, rows) && body::all_blank(&rows[runways.len()..])
}

// Of a stored time and a row's the later; where none is stored, the row's.
#[tactic(auto, unfolding(crate::specs::Report::newest))]
fn newest(latest: u32, time: u32) -> u32
    ensures { result ≡ newest latest time }
{
    if latest == 0 {
        time
    } else {
        later_of(latest, time)
    }
}

// The latest time of the rows shown, 0 where none is: only to judge a board that is handed in.
fn latest_shown(rows: [Row; 8]) -> u32
    requires { Goods rows }
    ensures { result ≡ latest_shown rows }
{
    let mut latest = 0;
    for &r in &rows {
        if !is_blank_row(r) {
            latest = newest(latest, r.time);
        }
    }
    latest
}

impl Board {
    // The runways that the board has.
    fn used(&self) -> &[Runway]
        requires { self.now.count ≤ 8 }
        ensures { result.now ≡ take self.now.count self.now.runways }
    {
        &self.runways[..usize::from(self.count)]
    }
}

// Whether a board that is handed in keeps its rules.
#[tactic(auto, using(text::specs::Laws::Tests::and_is), unfolding(crate::specs::Board::valid_places, crate::specs::Board::valid_board))]
pub fn valid_board(b: Board) -> bool
    ensures { result ≡ valid_board b }
{
    valid_opening(b.aerodrome, b.count, b.runways, b.owners)
        && fit_places(b.used(), &b.rows)
        && b.latest == latest_shown(b.rows)
}

// ---- Opening

pub fn blank_board() -> Board
    ensures { result ≡ blank_board }
{
    Board {
        aerodrome: [0; 4],
        count: 0,
        runways: [BLANK_RUNWAY; 8],
        owners: [0; 8],
        latest: 0,
        rows: [blank_row(); 8],
    }
}

pub fn refused_opening() -> Answer
    ensures { result ≡ refused_opening }
{
    Answer {
        refusal: Refusal::WrongBoard.number(),
        board: blank_board(),
    }
}

// A board of an aerodrome and 1 to 8 rising runways with their owners, nothing reported; 17 and the blank board where they are none.
// stays: C interface
#[tactic(auto, unfolding(crate::specs::Board::opening))]
pub fn open(aerodrome: [u8; 4], count: u8, runways: [Runway; 8], owners: [u8; 8]) -> Answer
    ensures { result ≡ opening aerodrome count runways owners }
{
    if !valid_opening(aerodrome, count, runways, owners) {
        return refused_opening();
    }
    Answer {
        refusal: 0,
        board: Board {
            aerodrome,
            count,
            runways,
            owners,
            latest: 0,
            rows: [blank_row(); 8],
        },
    }
}

// ---- Reports

// The place of the row's runway.
fn place_of(r: Row, runways: &[Runway]) -> Option<usize>
    ensures { MatchOption result (place_of r runways.now ≡ length runways.now) (λ i. (i ≡ place_of r runways.now) × (i < length runways.now)) }
{
    runways.iter().position(|&w| names(r, w))
}

// Observed later than the row shown, if there is one.
#[tactic(auto, unfolding(crate::specs::Report::is_news))]
fn is_news(r: Row, shown: Row) -> bool
    ensures { result ≡ is_news r shown }
{
    is_blank_row(shown) || is_later(r.time, shown.time)
}

// The place that a report is stored in, or the first thing that is wrong with it: 17, 23, 19, 18, 22, 20.
#[tactic(auto, unfolding(crate::specs::Report::refusal))]
fn place_taken(b: &Board, x: Sent) -> Result<usize, Refusal>
    ensures { MatchResult result
        (λ i. (refusal b.now x.desk x.row ≡ 0) × (i ≡ place_for b.now x.row))
        (λ e. refusal b.now x.desk x.row ≡ number e) }
{
    if !valid_board(*b) {
        return Err(Refusal::WrongBoard);
    }
    if !is_desk(x.desk) {
        return Err(Refusal::NoDesk);
    }
    if !valid_row(x.row) {
        return Err(Refusal::InvalidRow);
    }
    let Some(i) = place_of(x.row, b.used()) else {
        return Err(Refusal::NotOnBoard);
    };
    if x.desk != u32::from(b.owners[i]) {
        return Err(Refusal::OthersRunway);
    }
    if !is_news(x.row, b.rows[i]) {
        return Err(Refusal::NotLater);
    }
    Ok(i)
}

// The board with the report stored.
#[tactic(auto, unfolding(crate::specs::Report::report))]
fn after_report(b: Board, x: Sent) -> Result<Board, Refusal>
    ensures { MatchResult result (λ c. report b x.desk x.row ≡ answer 0 c) (λ e. report b x.desk x.row ≡ answer (number e) b) }
{
    let i = place_taken(&b, x)?;
    let mut next = b;
    next.latest = newest(b.latest, x.row.time);
    next.rows[i] = x.row;
    Ok(next)
}

// A report is taken only from the desk that owns its runway, and only if observed later than the row shown; refused, the board stays as it was.
pub fn report(b: Board, x: Sent) -> Answer
    ensures { result ≡ report b x.desk x.row }
{
    match after_report(b, x) {
        Ok(board) => Answer { refusal: 0, board },
        Err(refusal) => Answer {
            refusal: refusal.number(),
            board: b,
        },
    }
}

// The desk's step: the board is updated in its place, and the refusal number answered.
// stays: document 01 names the thin function over `&mut Board`
pub fn take_report(board: &mut Board, x: Sent) -> u8
    ensures { (board.new ≡ (report board.old x.desk x.row).board) × (result ≡ (report board.old x.desk x.row).refusal) }
{
    let a = report(*board, x);
    *board = a.board;
    a.refusal
}

// The same step for a caller that keeps the board by value: it is lent for the call.
pub fn updated(b: Board, x: Sent) -> Answer
    ensures { result ≡ report b x.desk x.row }
{
    let mut board = b;
    let refusal = take_report(&mut board, x);
    Answer { refusal, board }
}
