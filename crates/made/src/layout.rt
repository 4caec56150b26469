// Where each part of a made-up run stands, as in specs/Layout.antt.
pub const RESOURCES: usize = 0;

pub const PERIPHERALS: usize = RESOURCES + 1;

pub const BELONGS: usize = PERIPHERALS + 1;

pub const EVENTS: usize = BELONGS + 64;

pub const OUTCOMES: usize = EVENTS + 1;

pub const ACTIVITIES: usize = OUTCOMES + 16;

pub const SIZES: usize = ACTIVITIES + 1;

pub const NODES: usize = SIZES + 32;

pub const STATES: usize = NODES + 2048 * 16;

pub const INITIAL: usize = STATES + 1;

pub const FINALS: usize = INITIAL + 1;

pub const COUNT: usize = FINALS + 8;

pub const MOVES: usize = COUNT + 2;

pub const PSI: usize = MOVES + 256 * 7;

pub const SLACK: usize = PSI + 8;

pub const AVAILABLE: usize = SLACK + 8;

pub const LATEST: usize = AVAILABLE + 16 * 8;

pub const LENGTHS: usize = LATEST + 16 * 8;

pub const PENDING: usize = LENGTHS + 16;

pub const POSITION: usize = PENDING + 128 * 15;

pub const STATE: usize = POSITION + 4;

pub const WINDOW: usize = STATE + 1;

pub const LAST: usize = WINDOW + run_window::WINDOW * 23;

pub const HALT: usize = LAST + 8;
