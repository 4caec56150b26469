// The outcome of an event: "An accepted report is taken; if loading after it fails the answer is stopped".
ghost use Rattle.std.specs.Prelude.{◌≡◌, ◌<◌, set};
ghost use Rattle.plan.specs.Plan.{outcomes_of};
ghost use Rattle.run_window.specs.Window.{vacant};
ghost use Rattle.run_outcomes.specs.Told.{told_of};
ghost use Rattle.run_loading.specs.Loading.{further, most_pending};
ghost use Rattle.run_loading.specs.Inner.Loading.{Loads};
ghost use Rattle.run.specs.Inner.Calls.{halt_after, reply_after};

use crate::{Reply, Run, Stop};
use plan::Plan;
use run_loading::{Failure, Loading};
use run_window::Entry;
use times::Progress;

// Whether the run keeps a stop after loading.
pub fn halt_after(failure: Option<Failure>) -> Option<Stop>
    ensures { result ≡ halt_after failure }
{
    match failure {
        None => None,
        Some(Failure::Full) => Some(Stop::Full),
        Some(Failure::Beyond) => Some(Stop::Beyond),
    }
}

// What an outcome is answered: it is taken, or loading after it stops the run.
pub fn reply_after(failure: Option<Failure>) -> Reply
    ensures { result ≡ reply_after failure }
{
    match failure {
        None => Reply::Taken,
        Some(Failure::Full) => Reply::Stopped(Stop::Full),
        Some(Failure::Beyond) => Reply::Stopped(Stop::Beyond),
    }
}

// The outcome o of event e is known, and the next paths are loaded into the window, which the reported node has left: "the report and
// any path loaded before still count".
pub fn load(
    plan: Plan,
    before: Progress,
    window: [Entry; Run::WINDOW],
    x: Entry,
    e: u8,
    o: u8,
) -> Loading
    requires { Loads plan before × (e < plan.events) × (o < outcomes_of plan e) }
    ensures { result ≡ further plan most_pending (told_of before e x o) window }
{
    let told = run_outcomes::told_of(before, e, x, o);
    run_loading::further(plan, told, window)
}

// The same of a run, whose node at place i was reported. The place is cleared here, where the window is taken out of the run: a function
// that changes what it is handed copies it.
pub fn load_after(run: Run, i: usize, x: Entry, e: u8, o: u8) -> Loading
    requires { Loads run.plan run.progress × (i < 512) × (e < run.plan.events) × (o < outcomes_of run.plan e) }
    ensures { result ≡ further run.plan most_pending (told_of run.progress e x o) (set run.window i vacant) }
{
    let plan = run.plan;
    let progress = run.progress;
    let free = run_window::vacant();
    let mut window = run.window;
    window[i] = free;
    load(plan, progress, window, x, e, o)
}
