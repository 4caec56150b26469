// "The program timetable reads the plan's length (two bytes), the plan and outcome bytes", and prints.
#![tactic(auto)]

ghost use Rattle.std.specs.Prelude.{◌≡◌, false, length};
ghost use Rattle.std.specs.Io.KnownBytes.{Appends};
ghost use Rattle.plan.specs.Fault.{number_of};
ghost use Rattle.plan.specs.Limits.{InLimits};
ghost use Rattle.plan.specs.declared.Fault.{Fault};
ghost use Rattle.timetable_lines.specs.Lines.{refused};
ghost use Rattle.timetable_turns.specs.Timetable.{text_of_plan, timetable_of};
ghost use Rattle.timetable_streams.specs.Inner.Asking.{Held};
ghost use Rattle.timetable_output.specs.Inner.Between.{Stands, Ends, Printed, Delivers};

use plan::Plan;
use std::io::{BufRead, Write};
use times::Progress;
use timetable_steps::{activities_of, index_of, output_of, place_of, steps_of};
use timetable_streams::{
    Outcomes, Output, ask, give_back, hand_on, hand_on_rest, keep, read_full, untaken,
};
use timetable_text::lent::past;
use timetable_text::plan_length;
use timetable_turns::turns::{counted, put_step};

// Between two turns of the table.
#[derive(Clone, Copy)]
pub struct Between {
    pub output: Output,
    // outcome bytes that were taken
    pub taken: u32,
    // turns that are left, 0 once the table is closed or output failed
    pub left: u32,
    pub progress: Progress,
}

// The output and the outcome bytes after the last turn.
#[derive(Clone, Copy)]
pub struct Last {
    pub output: Output,
    pub outcomes: Outcomes,
}

// Turn after turn, until the table is closed or output failed; before a read, which may wait, the text is handed on.
fn all_turns<B: BufRead, W: Write>(
    from: &mut B,
    to: &mut W,
    out: &mut [u8],
    plan: Plan,
    first: Between,
    unread: Outcomes,
) -> Last
    requires out_len { length out.old ≡ 65_536 }
    requires in_limits { InLimits plan × Stands plan first × Held unread }
    ensures ends { Ends plan first out.old (B.remaining from.old) (B.remaining from.new) (W.contents to.old) (W.contents to.new) result.output }
    ensures held { Held result.outcomes }
{
    let steps = steps_of(plan);
    let activities = activities_of(plan);
    let mut output = first.output;
    let mut outcomes = unread;
    let mut progress = first.progress;
    let mut taken = first.taken;
    let mut left = first.left;
    // `left` falls to 0 where the table is closed or output failed, so that no range counts it.
    while 0 < left {
        let i = index_of(progress.state, None);
        let unheard = steps[i];
        let asked = ask(from, to, out, output, outcomes, unheard);
        output = asked.output;
        outcomes = asked.outcomes;
        if output.lost {
            return Last { output, outcomes };
        }
        let heard = asked.heard;
        let j = index_of(progress.state, heard);
        let step = steps[j];
        let k = place_of(output_of(step));
        let activity = activities[k];
        let at = output.gathered;
        let drafted = put_step(out, at, plan.resources, activity, progress, taken, step);
        let kept = keep(to, out, output, drafted.next, drafted.closed, left);
        output = kept.output;
        left = kept.left;
        taken = counted(taken, drafted.heard);
        progress = drafted.progress;
    }
    output = hand_on_rest(to, out, output);
    Last { output, outcomes }
}

// The table of a plan that is there whole.
pub fn print_table<B: BufRead, W: Write>(from: &mut B, to: &mut W, bytes: &[u8]) -> Output
    ensures printed { Printed bytes.now result }
    ensures delivers { Delivers (text_of_plan bytes.now) (B.remaining from.old) (B.remaining from.new) (W.contents to.old) (W.contents to.new) result }
{
    let mut out = [0u8; 65536];
    let begun = timetable_turns::begin(&mut out, bytes);
    let put = begun.put;
    let gathered = past(0, put);
    let output = Output {
        handed: 0,
        gathered,
        lost: false,
    };
    if begun.closed {
        return hand_on(to, &out, output);
    }
    let plan = begun.plan;
    let progress = begun.progress;
    let first = Between {
        output,
        taken: 0,
        left: 1000000002,
        progress,
    };
    let unread = untaken();
    let last = all_turns(from, to, &mut out, plan, first, unread);
    let outcomes = last.outcomes;
    give_back(outcomes);
    let printed = last.output;
    printed
}

// "input that ends inside the length or the plan"
pub fn print_cut<W: Write>(to: &mut W, present: usize) -> Output
    ensures handed { result.handed ≡ length (refused (number_of Fault.Ends) present) }
    ensures went { result.lost ≡ false → Appends (W.contents to.old) (W.contents to.new) (refused (number_of Fault.Ends) present) }
{
    let mut out = [0u8; 65536];
    let put = timetable_turns::cut(&mut out, present as u64);
    let gathered = past(0, put);
    let output = Output {
        handed: 0,
        gathered,
        lost: false,
    };
    hand_on(to, &out, output)
}

// The program: the bytes that it reads, and the text that is printed for them.
pub fn print_timetable<B: BufRead, W: Write>(from: &mut B, to: &mut W) -> Output
    ensures { Delivers timetable_of (B.remaining from.old) (B.remaining from.new) (W.contents to.old) (W.contents to.new) result }
{
    let mut size = [0u8; 2];
    let given = read_full(from, &mut size);
    if given < 2 {
        return print_cut(to, 0);
    }
    let n = plan_length(size[0], size[1]);
    let mut file = [0u8; 65536];
    let present = read_full(from, &mut file[..n]);
    if present < n {
        return print_cut(to, present);
    }
    print_table(from, to, &file[..n])
}
