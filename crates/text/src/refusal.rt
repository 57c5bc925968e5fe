// Why something is refused, with its number: document 01, "Refusal numbers".
ghost use Rattle.std.specs.Prelude.{◌≡◌};
ghost use Rattle.text.specs.Refusals.{number};

#[derive(Clone, Copy, PartialEq, Eq)]
pub enum Refusal {
    // The message is longer than 4,096 bytes.
    TooLong = 1,
    // Line 1 (priority and addresses) or line 2 (filing time and originator) is missing or wrong.
    Line1Or2 = 2,
    // Line 3 (the heading) is missing or wrong.
    Line3 = 3,
    // Line 4 or 5 is wrong, there is no row, a line or the closing `)` is missing, or something follows the end.
    Outline = 4,
    // The time of a runway row; at the desk, a line that has no desk before its row, or no row.
    NoRow = 5,
    // A ninth line that is not empty stands where only eight rows may.
    NinthRow = 6,
    // The same runway is reported twice.
    RunwayTwice = 7,
    // The awareness line: an item is wrong, out of order, repeated, one too many, or the line is empty before the closing `)`.
    WrongItems = 8,
    // The plain language is wrong.
    WrongLanguage = 9,
    // The two serials differ.
    SerialsDiffer = 10,
    // The two aerodromes differ.
    AerodromesDiffer = 11,
    // The heading's time is not that of the latest row.
    NotLatestTime = 12,
    // The record to be written is not valid.
    InvalidRecord = 13,
    // The buffer is shorter than the text.
    BufferTooShort = 14,
    // An observation is out of range.
    OutOfRange = 15,
    // An observation contradicts itself.
    Contradiction = 16,
    // The aerodrome, the list of runways or an owner is wrong, or a board handed in breaks its rules.
    WrongBoard = 17,
    // The runway is not on the board.
    NotOnBoard = 18,
    // The row is not valid.
    InvalidRow = 19,
    // The report is not later than the row shown.
    NotLater = 20,
    // The board holds no report.
    NoReport = 21,
    // The runway belongs to the other desk.
    OthersRunway = 22,
    // There is no such desk.
    NoDesk = 23,
    // The runway of a row.
    WrongRunway = 24,
    // Its codes.
    WrongCodes = 25,
    // Its coverages or depths: no such number, one that its description forbids, or a short row that is not allowed.
    WrongCoverageOrDepth = 26,
    // Its descriptions.
    WrongDescriptions = 27,
    // Its width, or what follows.
    WrongWidth = 28,
    // Two rows are compared that are of different runways.
    RunwaysDiffer = 29,
    // A radio record ends before its last number does.
    RecordCutShort = 30,
    // A number of a radio record is not in its own groups.
    NumberForm = 31,
    // A value or row of a radio record that is not valid, no row or over eight, a runway twice, or bytes left over.
    RadioValue = 32,
}

impl Refusal {
    pub fn number(self) -> u8
        ensures { result ≡ number self }
    {
        self as u8
    }

    // This refusal, told at a place.
    pub fn at(self, place: usize) -> Fault
        ensures { result ≡ record { refusal = self; place = place } }
    {
        Fault {
            refusal: self,
            place,
        }
    }
}

// What refuses a text, and where.
#[derive(Clone, Copy)]
pub struct Fault {
    pub refusal: Refusal,
    pub place: usize,
}
