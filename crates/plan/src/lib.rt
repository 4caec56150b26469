// The plan of a behaviour, as document 01's section "The plan file" describes it: its types.
// Slots past a count are spare room: zeros where the engine makes them, and never read. Arrays with a count beside them, and a node's
// place by the number of its activity, since the engine has fixed memory and no heap.
#![tactic(auto)]

ghost use Rattle.std.specs.Prelude.{◌≡◌, ◌<◌};
ghost use Rattle.plan.specs.Plan.{final_bit};

pub mod fields;
pub mod numbers; // the number of each fault

// the most nodes of a plan: 64 of each of 32 activities
pub const NODES: usize = 2048;

// Which of the four kinds a node is, with the numbers that it names.
#[derive(Clone, Copy)]
pub enum Kind {
    // action number, peripheral
    Action(u8, u8),
    // resource
    Claim(u8),
    // resource
    Release(u8),
    // event number
    Event(u8),
}

// A node of an activity.
#[derive(Clone, Copy)]
pub struct Node {
    // whole microseconds; 0 without a duration field
    pub duration: u32,
    pub kind: Kind,
    // how many predecessors it has, 0 to 8
    pub count: u8,
    pub preds: [u8; 8],
}

impl Node {
    // what stands in spare room
    pub const ZERO: Node = Node {
        duration: 0,
        kind: Kind::Action(0, 0),
        count: 0,
        preds: [0; 8],
    };
}

// One activity, copied out of a plan.
#[derive(Clone, Copy)]
pub struct Activity {
    pub count: u8,
    pub nodes: [Node; 64],
}

// What a transition processes. No Option: `Some((e, o))` would not say that the numbers are of an event and its outcome.
#[derive(Clone, Copy)]
pub enum Input {
    Nothing,
    // event, outcome
    Outcome(u8, u8),
}

// What a transition emits: the empty activity, or an activity of the plan. No Option: the empty activity is emitted too.
#[derive(Clone, Copy)]
pub enum Output {
    Empty,
    Activity(u8),
}

#[derive(Clone, Copy)]
pub struct Transition {
    pub from: u8,
    pub to: u8,
    pub input: Input,
    pub output: Output,
}

impl Transition {
    // what stands in spare room
    pub const ZERO: Transition = Transition {
        from: 0,
        to: 0,
        input: Input::Nothing,
        output: Output::Empty,
    };
}

// The automaton that picks the next activity.
#[derive(Clone, Copy)]
pub struct Automaton {
    pub states: u8,
    pub initial: u8,
    // bit s: state s is final
    pub finals: u64,
    // how many transitions there are, in file order
    pub count: u16,
    pub moves: [Transition; 256],
}

// Whether state s is final, by an automaton's final-state bits.
pub fn is_final(finals: u64, s: usize) -> bool
    requires { s < 64 }
    ensures { result ≡ final_bit finals s }
{
    (finals >> s) % 2 == 1
}

#[derive(Clone, Copy)]
pub struct Plan {
    pub resources: u8,
    pub peripherals: u8,
    // the resource of each peripheral
    pub belongs: [u8; 64],
    pub events: u8,
    // how many outcomes each event has
    pub outcomes: [u8; 16],
    pub activities: u8,
    // how many nodes each activity has
    pub sizes: [u8; 32],
    // node n of activity a stands at 64 * a + n
    pub nodes: [Node; NODES],
    pub automaton: Automaton,
}

// What the plan's author can get wrong. Document 01's number for each case is `number_of` in specs/Fault.antt.
#[derive(Clone, Copy)]
pub enum Fault {
    // while reading
    Ends,
    Map,
    NoAutomaton,
    Count,
    Names,
    Duration,
    NotRising,
    LeftOver,
    // an activity
    Cycle,
    ActionsUnordered,
    NamedTwice,
    ActionUnheld,
    ClaimUnpaired,
    ArrowPastEnd,
    EventFirst,
    EventsUnordered,
    // the automaton
    WayOutOfFinal,
    ForbiddenBranch,
    OutcomeMissing,
    NoWayToFinal,
    Unbalanced,
    TooManyPending,
}

// A fault and its place.
#[derive(Clone, Copy)]
pub struct FaultAt {
    pub fault: Fault,
    pub place: usize,
}

impl Fault {
    pub fn at(self, place: usize) -> FaultAt
        ensures { result ≡ record { fault = self; place = place } }
    {
        FaultAt { fault: self, place }
    }
}

// The verdict on a plan: accepted, or the first fault and its place.
pub type Verdict = Result<(), FaultAt>;

// What is handed on of a plan file: the verdict, and the plan, all zeros where it is refused (demands' StatementRefusedPlan speaks of it).
#[derive(Clone, Copy)]
pub struct PlanRead {
    pub verdict: Verdict,
    pub plan: Plan,
}
