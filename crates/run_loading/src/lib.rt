// "Paths are loaded up to a waiting or final state; the next is loaded in the call that reports the awaited outcome, and further
// ones while their outcomes are already reported."
#![tactic(auto)]

ghost use Rattle.std.specs.Prelude.{◌≡◌, replicate};
ghost use Rattle.automaton.specs.Next.{next_of};
ghost use Rattle.run_window.specs.Window.{vacant};
ghost use Rattle.run_loading.specs.Loading.{loading, load, further, most_pending};
ghost use Rattle.run_loading.specs.Inner.Loading.{Loads, failure_by};

use automaton::{Next, next_of};
use plan::Plan;
use run_outcomes::way_on;
use run_path::path;
use run_window::{Entry, WINDOW, is_free, vacancies, vacant};
use times::Progress;

// Why loading failed.
#[derive(Clone, Copy)]
pub enum Failure {
    Full,
    Beyond,
}

// Where the behaviour stands and what the window holds after loading; after a failure, as before the failing path, so both stand
// beside it: `further` gives them then too.
#[derive(Clone, Copy)]
pub struct Loading {
    pub failure: Option<Failure>,
    pub progress: Progress,
    pub window: [Entry; WINDOW],
}

// "44 ..; then 43 the window would pass 512": how loading a path with so many entries ends where so many places are free.
fn failure_of(beyond: bool, count: usize, free: usize) -> Option<Failure>
    ensures { result ≡ failure_by beyond count free }
{
    if beyond {
        return Some(Failure::Beyond);
    }
    if free < count {
        return Some(Failure::Full);
    }
    None
}

// What loading answers.
fn ended(failure: Option<Failure>, progress: Progress, window: [Entry; WINDOW]) -> Loading
    ensures { result ≡ loading failure progress window }
{
    Loading {
        failure,
        progress,
        window,
    }
}

// The first path, from the initial state into an empty window: its entries are the window, from place 0 on.
pub fn first(plan: Plan, progress: Progress) -> Loading
    requires { Loads plan progress }
    ensures { result ≡ load plan (next_of plan.automaton plan.automaton.initial) progress (replicate 512 vacant) }
{
    let automaton = plan.automaton;
    let next = next_of(automaton, automaton.initial);
    let found = path(plan, next, progress);
    let failure = failure_of(found.beyond, found.count, WINDOW);
    if failure.is_some() {
        return ended(failure, progress, [vacant(); WINDOW]);
    }
    ended(failure, found.progress, found.entries)
}

// The next paths, each of which processes a reported instance: at most 128 are pending. "the failing path adds nothing". The
// entries are stored here, where the window is: a function that is handed the window copies it, and so does one that hands it back.
pub fn further(plan: Plan, mut progress: Progress, mut window: [Entry; WINDOW]) -> Loading
    requires { Loads plan progress }
    ensures { result ≡ further plan most_pending progress window }
{
    let automaton = plan.automaton;
    for _ in 0..128usize {
        let way = way_on(automaton, progress);
        let Next::Goes(_) = way else {
            return ended(None, progress, window);
        };
        let found = path(plan, way, progress);
        let failure = failure_of(found.beyond, found.count, vacancies(window));
        if failure.is_some() {
            return ended(failure, progress, window);
        }
        let mut next = 0;
        for at in 0..WINDOW {
            if next == found.count {
                break;
            }
            if is_free(window[at]) {
                window[at] = found.entries[next];
                next += 1;
            }
        }
        progress = found.progress;
    }
    ended(None, progress, window)
}
