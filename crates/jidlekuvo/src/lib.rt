// What a host in C or Rust links: a run that it keeps between two calls. The run crosses as numbers (crate held), and so do the
// replies; the header is host/include/jidlekuvo.h, and C has numbers for cases.
#![tactic(auto)]

ghost use Rattle.std.specs.Prelude.{◌≡◌};
ghost use Rattle.judge.specs.Judge.{judge_of};
ghost use Rattle.numbers.specs.Codes.{code_of};
ghost use Rattle.run.specs.Calls.{reading_of, call_of, ask_of, completion_of, outcome_of};
ghost use Rattle.run.specs.Inner.Effects.{sought_by, checked_of, effect_of};
ghost use Rattle.run.specs.Opening.{open_of};
ghost use Rattle.held.specs.Held.{run_of};
ghost use Rattle.jidlekuvo.specs.Host.{abi, clock, opened_as, Answers};
ghost use Rattle.jidlekuvo.specs.Inner.Steps.{stepped_to, Plain, ask_step, completion_step, outcome_step};

use held::{Held, HeldRest};
use run::{Call, Effect, Run};
use time::Clock;
use times::Progress;

pub mod replies; // what is answered, as numbers
mod steps; // what a call does, and its answer

// What is answered: its kind; the number of a refusal or stop; the place of a refused opening; position, activity and node of a
// start; position and node of a stop that names one. What a kind does not use is 0.
#[repr(C)]
#[derive(Clone, Copy)]
pub struct HostReply {
    pub place: u64,
    pub position: u32,
    pub kind: u8,
    pub number: u8,
    pub activity: u8,
    pub node: u8,
}

// The answer to an opening; a refused one hands back a run of zeros.
#[repr(C)]
#[derive(Clone, Copy)]
pub struct HeldOpened {
    pub run: Held,
    pub reply: HostReply,
}

// The answer to a call, and all of the run but its plan after it.
#[derive(Clone, Copy)]
pub struct Stepped {
    pub rest: HeldRest,
    pub reply: HostReply,
}

// ---- a call

// `Run::call` of an ask or a completion, from the numbers of a run.
fn step(h: Held, c: Call) -> Stepped
    requires { Plain c }
    ensures { result ≡ stepped_to h (call_of (run_of h) c) }
{
    let plan = h.plan;
    let rest = h.rest;
    let limits = held_checks::all_but_nodes(plan, rest);
    let check = steps::check_on(limits, plan, rest, c);
    let effect = steps::effect_on(plan, c, check);
    steps::carried(plan.finals, rest, c, effect)
}

fn ask(h: Held, t: u64) -> Stepped
    ensures { result ≡ ask_step h t }
{
    step(h, Call::Ask(Clock(t)))
}

fn completion(h: Held, t: u64, position: u32, node: u8) -> Stepped
    ensures { result ≡ completion_step h t position node }
{
    step(h, Call::Completion(Clock(t), position, node))
}

// What an outcome does. It is apart from `outcome`, so that what it has of the run has left the stack when a path is loaded.
fn outcome_effect(h: Held, c: Call) -> Effect
    ensures { result ≡ effect_of c (checked_of (run_of h) (reading_of c) (sought_by (run_of h).psi c)) }
{
    let plan = h.plan;
    let rest = h.rest;
    let limits = held_checks::all_but_nodes(plan, rest);
    let check = steps::check_on(limits, plan, rest, c);
    steps::effect_on(plan, c, check)
}

fn outcome(h: Held, t: u64, position: u32, node: u8, o: u8) -> Stepped
    ensures { result ≡ outcome_step h t position node o }
{
    let c = Call::Outcome(Clock(t), position, node, o);
    let effect = outcome_effect(h, c);
    let Effect::Learns(i, x, e, told) = effect else {
        let rest = h.rest;
        return steps::carried(h.plan.finals, rest, c, effect);
    };
    let plan = h.plan;
    let rest = h.rest;
    let m = held_checks::moment_of(rest, c);
    let held_progress = rest.progress;
    let progress = Progress::from(held_progress);
    steps::learns(m, plan, rest, progress, i, x, e, told)
}

// ---- what the host calls

// Raised with each change of an offset, a size, a field or the number of a case: a host built for another number must not call.
#[unsafe(no_mangle)]
pub extern "C" fn jidlekuvo_abi() -> u32
    ensures { result ≡ abi }
{
    1
}

// The whole verdict: 0 if the plan is accepted, otherwise number and place.
#[unsafe(no_mangle)]
pub extern "C" fn jidlekuvo_judge(bytes: &[u8]) -> u64
    ensures { result ≡ code_of (judge_of bytes.now).verdict }
{
    numbers::codes::code(judge::verdict(bytes))
}

#[unsafe(no_mangle)]
pub extern "C" fn jidlekuvo_open(plan: &[u8], psi: u64, slack: u64, available: &[u64]) -> HeldOpened
    ensures { result ≡ opened_as (open_of plan.now (clock psi) slack available.now) }
{
    let opened = Run::open(plan, Clock(psi), slack, available);
    let opening = opened.opening;
    let reply = replies::told_opening(opening);
    let made = opened.run;
    let run = Held::from(made);
    HeldOpened { run, reply }
}

// A call writes all of the run but its plan.
#[unsafe(no_mangle)]
pub extern "C" fn jidlekuvo_ask(run: &mut Held, t: u64) -> HostReply
    ensures { Answers run.old (ask_of (run_of run.old) (clock t)) result run.new }
{
    let s = ask(*run, t);
    run.rest = s.rest;
    s.reply
}

#[unsafe(no_mangle)]
pub extern "C" fn jidlekuvo_completion(run: &mut Held, t: u64, position: u32, node: u8) -> HostReply
    ensures { Answers run.old (completion_of (run_of run.old) (clock t) position node) result run.new }
{
    let s = completion(*run, t, position, node);
    run.rest = s.rest;
    s.reply
}

#[unsafe(no_mangle)]
pub extern "C" fn jidlekuvo_outcome(
    run: &mut Held,
    t: u64,
    position: u32,
    node: u8,
    o: u8,
) -> HostReply
    ensures { Answers run.old (outcome_of (run_of run.old) (clock t) position node o) result run.new }
{
    let s = outcome(*run, t, position, node, o);
    run.rest = s.rest;
    s.reply
}
