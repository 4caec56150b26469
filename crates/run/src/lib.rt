// A run of a plan against the host's clock. Document 01, sections "A run" and "Who can cause which number".
#![tactic(auto)]

ghost use Rattle.std.specs.Prelude.{◌≡◌};
ghost use Rattle.run.specs.Calls.{ask_of, completion_of, outcome_of, call_of};
ghost use Rattle.run.specs.Opening.{open_of};

mod bounds;
mod calls;
mod checks;
pub mod effects;
pub mod learning;
mod openings;

use plan::{Fault, FaultAt, Kind, Plan};
use run_checks::Objection;
pub use run_checks::{Refusal, Stop};
use run_window::{Entry, Found};
use time::Clock;
use times::Progress;

#[derive(Clone, Copy)]
pub struct Run {
    pub plan: Plan,
    pub psi: Clock,
    pub slack: u64,
    pub progress: Progress,
    pub window: [Entry; Run::WINDOW],
    // the last reading, 0 at opening
    pub last: Clock,
    // the stop that the run keeps
    pub halt: Option<Stop>,
}

impl Run {
    // the most nodes that the window holds
    pub const WINDOW: usize = run_window::WINDOW;
    // the largest time that an opening or a path may have
    pub const HORIZON: u64 = time::HORIZON;
    // the least and the largest slack
    pub const SLACK_LEAST: u64 = run_checks::bounds::SLACK_LEAST;

    pub const SLACK_MOST: u64 = run_checks::bounds::SLACK_MOST;
    // the largest position
    pub const LAST_POSITION: u32 = times::LAST_POSITION;
}

#[derive(Clone, Copy)]
pub enum Reply {
    // position, activity, node
    Start(u32, u8, u8),
    Wait,
    Done,
    Taken,
    Refused(Refusal),
    Stopped(Stop),
}

// The answer to a call: the reply, and the run after it.
#[derive(Clone, Copy)]
pub struct Answer {
    pub reply: Reply,
    pub run: Run,
}

// A call: reading; position and node; outcome.
#[derive(Clone, Copy)]
pub enum Call {
    Ask(Clock),
    Completion(Clock, u32, u8),
    Outcome(Clock, u32, u8, u8),
}

// What the checks say at a call; of the node that they found, its kind and how many outcomes it has.
#[derive(Clone, Copy)]
pub struct Checked {
    pub check: Result<Option<Found>, Objection>,
    pub kind: Kind,
    pub most: u8,
}

// What a call does to the run.
#[derive(Clone, Copy)]
pub enum Effect {
    // nothing: it was refused, or the run keeps a stop
    Stays(Reply),
    // the run keeps this stop from now on
    Stops(Stop),
    // nothing is due: done, or wait
    Rests,
    // place, what stands there then, reply
    Stores(usize, Entry, Reply),
    // place and entry of the reported node, event, outcome
    Learns(usize, Entry, u8, u8),
}

// Why an opening is refused.
#[derive(Clone, Copy)]
pub enum Unopened {
    // what is wrong with the plan, and its place
    Plan(Fault, usize),
    // wrong number of availabilities
    Availabilities,
    // Ψ or an availability above 10^15
    Time,
    Slack,
    // the lowest activity with an action or event whose duration is not above the slack
    Short(usize),
    Beyond,
    Full,
}

#[derive(Clone, Copy)]
pub enum Opening {
    Opened,
    Refused(Unopened),
}

// The answer to an opening; a refused one hands back a run of zeros (demands' StatementRefusedOpening speaks of it, so it is no Result).
#[derive(Clone, Copy)]
pub struct Opened {
    pub opening: Opening,
    pub run: Run,
}

impl Run {
    // "The plan comes as bytes and is judged first; the run keeps it."
    pub fn open(bytes: &[u8], psi: Clock, slack: u64, availabilities: &[u64]) -> Opened
        ensures { result ≡ open_of bytes.now psi slack availabilities.now }
    {
        let judged = judge::judge(bytes);
        let verdict = judged.verdict;
        match verdict {
            Err(FaultAt { fault, place }) => {
                return openings::unopened(Unopened::Plan(fault, place));
            }
            Ok(()) => {
                let plan = judged.plan;
                return openings::open_plan(plan, psi, slack, availabilities);
            }
        }
    }

    // "Ask starts the due, unstarted node with the earliest specified start"
    pub fn ask(mut self, t: Clock) -> Answer
        ensures { result ≡ ask_of self t }
    {
        self.call(Call::Ask(t))
    }

    // The completion of an action.
    pub fn completion(mut self, t: Clock, position: u32, node: u8) -> Answer
        ensures { result ≡ completion_of self t position node }
    {
        self.call(Call::Completion(t, position, node))
    }

    // The outcome of an event, "which completes it".
    pub fn outcome(mut self, t: Clock, position: u32, node: u8, o: u8) -> Answer
        ensures { result ≡ outcome_of self t position node o }
    {
        self.call(Call::Outcome(t, position, node, o))
    }

    // "Calls carry a clock reading: ask, completion of an action, outcome of an event". The run is changed here alone, in place:
    // each function that takes it and hands it back copies it twice.
    pub fn call(mut self, c: Call) -> Answer
        ensures { result ≡ call_of self c }
    {
        let t = effects::reading_of(c);
        let effect = checks::effect_at(self, t, c);
        match effect {
            Effect::Stays(reply) => return Answer { reply, run: self },
            Effect::Stops(s) => return calls::stops(self, t, s),
            Effect::Rests => {
                let finals = self.plan.automaton.finals;
                let reply = calls::at_rest(finals, self.progress.state, self.window);
                self.last = t;
                return Answer { reply, run: self };
            }
            Effect::Stores(i, e, reply) => {
                self.window[i] = e;
                self.last = t;
                return Answer { reply, run: self };
            }
            Effect::Learns(i, x, e, o) => {
                let loading = learning::load_after(self, i, x, e, o);
                let window = loading.window;
                self.progress = loading.progress;
                self.window = window;
                self.last = t;
                let Some(s) = learning::halt_after(loading.failure) else {
                    let reply = Reply::Taken;
                    return Answer { reply, run: self };
                };
                return calls::stops(self, t, s);
            }
        }
    }
}
