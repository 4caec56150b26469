// One turn of the table: the rows of one position, or the text that closes it.
ghost use Rattle.std.specs.Prelude.{◌≡◌, cond, ◌+◌, ◌-◌, ◌≤◌, ◌<◌};
ghost use Rattle.wire.specs.Puts.{Puts};
ghost use Rattle.plan.specs.Plan.{nodes_of};
ghost use Rattle.run_path.specs.Path.{entries_from};
ghost use Rattle.timetable_lines.specs.Lines.{rows};
ghost use Rattle.timetable_turns.specs.Inner.Turn.{closes, turn_of, Open};
ghost use Rattle.timetable_turns.specs.Inner.Answers.{Drafts, Turns, Turnable, Steppable};
ghost use Rattle.timetable_turns.specs.Inner.Stepped.{closing, stepped, closed_at};

use crate::{Drafted, Turned};
use plan::{Activity, Plan};
use run_path::{activity_number, emitted, entry_of, is_work};
use times::engine::advance;
use times::{Progress, Schedule};
use timetable_lines::{put_ended, put_refused, put_row, put_waiting};
use timetable_steps::{Step, output_of, step_of};
use timetable_text::lent::lend;

// The rows of one transition.
fn put_rows(
    out: &mut [u8],
    at: usize,
    position: u32,
    number: u8,
    times: Schedule,
    activity: Activity,
) -> usize
    requires { (at ≤ 61_440) × (activity.count ≤ 64) }
    ensures { Puts out.old at (rows (entries_from position number times 0 (nodes_of activity))) out.new result }
{
    let mut next = at;
    for node in 0..usize::from(activity.count) {
        let x = activity.nodes[node];
        let kind = x.kind;
        if is_work(kind) {
            let start = times.start[node];
            let end = times.end[node];
            let entry = entry_of(position, number, node as u8, start, end);
            next = put_row(out, next, entry);
        }
    }
    next
}

// The text closes the table.
fn closed(next: usize, progress: Progress) -> Drafted
    ensures { result ≡ closed_at next progress }
{
    Drafted {
        next,
        closed: true,
        heard: false,
        progress,
    }
}

// A turn that takes no transition; "55 for an outcome the event lacks, place = its index".
fn close(
    out: &mut [u8],
    at: usize,
    resources: u8,
    progress: Progress,
    read: u32,
    step: Step,
) -> Drafted
    requires { (at ≤ 61_440) × (resources ≤ 16) }
    ensures { Drafts out.old at (closes progress (closing resources progress read step)) out.new result }
{
    match step {
        Step::Ends => {
            let next = put_ended(out, at, resources, progress);
            return closed(next, progress);
        }
        Step::Waits(e) => {
            let next = put_waiting(out, at, resources, progress, e);
            return closed(next, progress);
        }
        Step::Lacks => {
            let next = put_refused(out, at, 55, u64::from(read));
            return closed(next, progress);
        }
        Step::Takes(_, _) => {
            return closed(at, progress);
        }
    }
}

// One turn, by what it does, with the activity that is emitted; "44, place = the position, whose rows are left out".
pub fn put_step(
    out: &mut [u8],
    at: usize,
    resources: u8,
    activity: Activity,
    progress: Progress,
    read: u32,
    step: Step,
) -> Drafted
    requires { Steppable resources activity progress at step }
    ensures { Drafts out.old at (stepped resources (nodes_of activity) progress read step) out.new result }
{
    match step {
        Step::Ends => {
            return close(out, at, resources, progress, read, step);
        }
        Step::Waits(_) => {
            return close(out, at, resources, progress, read, step);
        }
        Step::Lacks => {
            return close(out, at, resources, progress, read, step);
        }
        Step::Takes(m, heard) => {
            let input = m.input;
            let advanced = advance(resources, activity, input, m.to, progress);
            if advanced.beyond {
                let next = put_refused(out, at, 44, u64::from(progress.position));
                return closed(next, progress);
            }
            let after = advanced.progress;
            let times = advanced.schedule;
            let output = m.output;
            let number = activity_number(output);
            let next = put_rows(out, at, progress.position, number, times, activity);
            return Drafted {
                next,
                closed: false,
                heard,
                progress: after,
            };
        }
    }
}

// One turn of a plan.
pub fn turn_by(
    out: &mut [u8],
    at: usize,
    plan: Plan,
    progress: Progress,
    read: u32,
    heard: Option<u8>,
) -> Drafted
    requires { Turnable plan progress at }
    ensures { Drafts out.old at (turn_of plan progress read heard) out.new result }
{
    let automaton = plan.automaton;
    let outcomes = plan.outcomes;
    let step = step_of(automaton, outcomes, progress.state, heard);
    let output = output_of(step);
    let activity = emitted(plan, output);
    put_step(out, at, plan.resources, activity, progress, read, step)
}

// How many outcome bytes were taken after a turn.
pub fn counted(taken: u32, heard: bool) -> u32
    requires { taken ≤ 1_000_000_002 }
    ensures { result ≡ cond heard (taken + 1) taken }
{
    if heard {
        return taken + 1;
    }
    taken
}

// How many turns are left after one; none where it was the last.
pub fn left_after(left: u32, last: bool) -> u32
    requires { 0 < left }
    ensures { result ≡ cond last 0 (left - 1) }
{
    if last {
        return 0;
    }
    left - 1
}

// One turn, with its text from `at` on: the outcome byte is taken only where one is asked for.
pub fn turn(
    out: &mut [u8],
    at: usize,
    plan: Plan,
    progress: Progress,
    read: u32,
    heard: Option<u8>,
) -> Turned
    requires { Open plan progress }
    ensures { Turns plan out.old at (turn_of plan progress read heard) out.new result }
{
    let mut text = [0u8; 4096];
    let drafted = turn_by(&mut text, 0, plan, progress, read, heard);
    let put = lend(out, at, &text, drafted.next);
    let after = drafted.progress;
    Turned {
        put,
        closed: drafted.closed,
        heard: drafted.heard,
        progress: after,
    }
}
