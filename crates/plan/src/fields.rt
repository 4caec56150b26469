// What reading a part of the plan file answers: the part and the offset past it, or what is wrong and its place.
use crate::{FaultAt, NODES, Node};

pub type Read<T> = Result<(T, usize), FaultAt>;

// How many resources, peripherals and events the plan has: what the numbers of a node may name.
#[derive(Clone, Copy)]
pub struct Named {
    pub resources: u8,
    pub peripherals: u8,
    pub events: u8,
}

// Which kind of node a map byte asks for.
#[derive(Clone, Copy)]
pub enum Asks {
    Action,
    Claim,
    Release,
    Event,
}

// The predecessors of a node.
#[derive(Clone, Copy)]
pub struct Preds {
    pub count: u8,
    pub preds: [u8; 8],
}

#[derive(Clone, Copy)]
pub struct Peripherals {
    pub count: u8,
    // the resource of each peripheral
    pub belongs: [u8; 64],
}

#[derive(Clone, Copy)]
pub struct Events {
    pub count: u8,
    // how many outcomes each event has
    pub outcomes: [u8; 16],
}

#[derive(Clone, Copy)]
pub struct Activities {
    pub count: u8,
    // how many nodes each activity has
    pub sizes: [u8; 32],
    // node n of activity a stands at 64 * a + n
    pub nodes: [Node; NODES],
}
