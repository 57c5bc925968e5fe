// The descriptions by number: document 01's fifteen in its order, and NR.
// stays: C interface: a third holds its description as a number.
pub const NR: u8 = 0;

pub const COMPACTED_SNOW: u8 = 1;

pub const DRY_SNOW: u8 = 2;

pub const DRY_SNOW_ON_COMPACTED_SNOW: u8 = 3;

pub const DRY_SNOW_ON_ICE: u8 = 4;

pub const FROST: u8 = 5;

pub const ICE: u8 = 6;

pub const SLUSH: u8 = 7;

pub const STANDING_WATER: u8 = 8;

pub const WATER_ON_COMPACTED_SNOW: u8 = 9;

pub const WET: u8 = 10;

pub const WET_ICE: u8 = 11;

pub const WET_SNOW: u8 = 12;

pub const WET_SNOW_ON_COMPACTED_SNOW: u8 = 13;

pub const WET_SNOW_ON_ICE: u8 = 14;

pub const DRY: u8 = 15;
