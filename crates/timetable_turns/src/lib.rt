// The timetable, one turn at a time.
#![tactic(auto)]

ghost use Rattle.plan.specs.Fault.{number_of};
ghost use Rattle.plan.specs.declared.Fault.{Fault};
ghost use Rattle.timetable_lines.specs.Lines.{header, refused};
ghost use Rattle.timetable_turns.specs.Inner.Turn.{first_text};
ghost use Rattle.timetable_text.specs.Lent.{Lends};
ghost use Rattle.timetable_turns.specs.Inner.Answers.{Begins};

use plan::{FaultAt, Plan, Verdict};
use time::Specified;
use times::Progress;
use timetable_lines::{put_header, put_refused};
use timetable_text::lent::lend;

pub mod turns; // one turn
mod whole; // the timetable of a whole input

pub use timetable_text::NotPut;
pub use whole::timetable;

// The table before its first turn.
#[derive(Clone, Copy)]
pub struct Begun {
    pub put: Result<usize, NotPut>,
    // the text is the whole table; plan and progress are promised then too (`Begins`), so they are no Option
    pub closed: bool,
    pub plan: Plan,
    pub progress: Progress,
}

// One turn of the table.
#[derive(Clone, Copy)]
pub struct Turned {
    pub put: Result<usize, NotPut>,
    // the text closes the table; the progress is promised then too (`Turns`), so it is no Option
    pub closed: bool,
    // the outcome byte was taken
    pub heard: bool,
    // where the behaviour stands then
    pub progress: Progress,
}

// The same before its text is lent.
#[derive(Clone, Copy)]
pub struct Drafted {
    // the offset past the text
    pub next: usize,
    pub closed: bool,
    pub heard: bool,
    pub progress: Progress,
}

// Between two turns of the whole table.
#[derive(Clone, Copy)]
pub struct Place {
    // the offset past the text
    pub at: usize,
    // outcome bytes that were taken
    pub read: u32,
    // turns that are left, 0 once the table is closed
    pub left: u32,
    pub progress: Progress,
}

fn header_line(out: &mut [u8]) -> Result<usize, NotPut>
    ensures { Lends out.old 0 header out.new result }
{
    let mut text = [0u8; 64];
    let next = put_header(&mut text, 0);
    lend(out, 0, &text, next)
}

fn refused_line(out: &mut [u8], number: u8, place: u64) -> Result<usize, NotPut>
    ensures { Lends out.old 0 (refused number place) out.new result }
{
    let mut text = [0u8; 64];
    let next = put_refused(&mut text, 0, number, place);
    lend(out, 0, &text, next)
}

// "A refused plan prints only refused, number, place"; an accepted one, the header.
fn first_line(out: &mut [u8], verdict: Verdict) -> Result<usize, NotPut>
    ensures { Lends out.old 0 (first_text verdict) out.new result }
{
    match verdict {
        Ok(()) => {
            return header_line(out);
        }
        Err(FaultAt { fault, place }) => {
            let number = plan::numbers::number_of(fault);
            return refused_line(out, number, place as u64);
        }
    }
}

// The first line of a plan's table, and where the behaviour stands before its first turn.
pub fn begin(out: &mut [u8], bytes: &[u8]) -> Begun
    ensures { Begins bytes.now out.old out.new result }
{
    let judged = judge::judge(bytes);
    let plan = judged.plan;
    let initial = plan.automaton.initial;
    let progress = run_opening::at_first([Specified(0); 16], initial);
    let verdict = judged.verdict;
    let closed = verdict.is_err();
    let put = first_line(out, verdict);
    Begun {
        put,
        closed,
        plan,
        progress,
    }
}

// "input that ends inside the length or the plan gives 1, place = the plan bytes present"
pub fn cut(out: &mut [u8], present: u64) -> Result<usize, NotPut>
    ensures { Lends out.old 0 (refused (number_of Fault.Ends) present) out.new result }
{
    refused_line(out, 1, present)
}
