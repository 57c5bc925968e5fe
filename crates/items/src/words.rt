// The words of the items: the reader compares each at its place in the line, and the writer copies it.

pub const RWY: [u8; 3] = *b"RWY";

pub const DRIFTING_SNOW: [u8; 13] = *b"DRIFTING SNOW";

pub const TWY: [u8; 3] = *b"TWY";

pub const ALL_TWY_POOR: [u8; 12] = *b"ALL TWY POOR";

pub const APRON: [u8; 5] = *b"APRON";

pub const ALL_APRON_POOR: [u8; 14] = *b"ALL APRON POOR";

// What is said of a runway, of taxiways or of an apron, behind a space.
pub const REDUCED_TO: [u8; 10] = *b"REDUCED TO";

pub const LOOSE_SAND: [u8; 10] = *b"LOOSE SAND";

pub const CHEMICALLY_TREATED: [u8; 18] = *b"CHEMICALLY TREATED";

pub const SNOWBANK: [u8; 8] = *b"SNOWBANK";

pub const ADJ_SNOWBANK: [u8; 12] = *b"ADJ SNOWBANK";

pub const POOR: [u8; 4] = *b"POOR";

// The edges that a snowbank stands at, and what is said behind their distance.
pub const L: [u8; 1] = *b"L";

pub const R: [u8; 1] = *b"R";

pub const LR: [u8; 2] = *b"LR";

pub const FM_CL: [u8; 6] = *b" FM CL";

// What ends an item.
pub const FULL_STOP: [u8; 1] = *b".";
