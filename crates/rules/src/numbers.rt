// The refusal numbers of document 01, under the names that its table gives them.
pub const BAD: u32 = 1;

pub const NO_VOLUME: u32 = 2;

pub const NOT_OWNER: u32 = 3;

pub const NO_TOKEN: u32 = 4;

pub const WINDOW: u32 = 5;

pub const MODE: u32 = 6;

pub const PREFIX: u32 = 7;

pub const STATE: u32 = 8;

pub const CONFLICT: u32 = 9;

pub const QUOTA: u32 = 10;

pub const SIZE: u32 = 11;

pub const ROOM: u32 = 12;

pub const RENT: u32 = 13;

pub const NO_PLACE: u32 = 14;

pub const NO_ENTRY: u32 = 15;

pub const CLOCK: u32 = 16;

pub const WIDENS: u32 = 17;

pub const DEEP: u32 = 18;

pub const SESSION: u32 = 19;

pub const TOO_MUCH: u32 = 20;

pub const SPENT: u32 = 21;

pub const NAME_TAKEN: u32 = 25;

pub const NO_RELAY: u32 = 26;
