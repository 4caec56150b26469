// Specified times: one transition at a time, as document 01's section "Specified times" describes it.
#![tactic(auto)]

use time::Specified;

pub mod engine; // one transition
pub mod queues; // the pending instances
pub mod starts; // the nodes of one activity

// The largest position that a path may have.
pub const LAST_POSITION: u32 = 1_000_000_000;

// What was reported of an emitted instance of an event. No Option: the C interface lists these two cases by name (host/layout.txt).
#[derive(Clone, Copy)]
pub enum Told {
    Nothing,
    Outcome(u8),
}

// An emitted, unprocessed instance of an event: its node, by position and number, and its completion.
#[derive(Clone, Copy)]
pub struct Instance {
    pub end: Specified,
    pub position: u32,
    pub node: u8,
    pub told: Told,
}

// Where a behaviour stands after some transitions. Arrays with their lengths beside: the engine has fixed memory (document 01).
#[derive(Clone, Copy)]
pub struct Progress {
    // of each resource
    pub available: [Specified; 16],
    // the last completion of each event, 0 before the first
    pub latest: [Specified; 16],
    // how many instances of each event are pending
    pub lengths: [u8; 16],
    // instance i of event e, oldest first, stands at 8 * e + i
    pub pending: [Instance; 128],
    // of the next transition
    pub position: u32,
    pub state: u8,
}

// The times of the nodes of one activity, by number, and how many are done: fixed memory.
#[derive(Clone, Copy)]
pub struct Schedule {
    pub start: [Specified; 64],
    pub end: [Specified; 64],
    pub done: [bool; 64],
    // the nodes that are done, in the order in which they were worked out
    pub order: [u8; 64],
    pub count: u8,
}

// One transition: the times of its nodes and where the behaviour stands after it. The flag stands beside them, since `advance_of`
// gives them past a limit too, and theorems name them there (`next_position` and `end_on` of demands_run/Laws/Taken).
#[derive(Clone, Copy)]
pub struct Advanced {
    // a completion or an availability above 10^15, or a position above 1,000,000,000 (number 44)
    pub beyond: bool,
    pub schedule: Schedule,
    pub progress: Progress,
}
