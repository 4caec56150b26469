// The limits of the window of a run.
ghost use Rattle.std.specs.Prelude.{◌≡◌};
ghost use Rattle.run_limits.specs.Window.{names_node, entry_in_limits, window_in_limits};

use run_window::{Entry, WINDOW};
use time::HORIZON;
use times::LAST_POSITION;

// Node n of activity a is one of the plan's.
fn names_node(activities: u8, sizes: [u8; 32], a: u8, n: u8) -> bool
    ensures { result ≡ names_node activities sizes a n }
{
    if a >= activities {
        return false;
    }
    if a >= 32 {
        return false;
    }
    n < sizes[usize::from(a)]
}

// A place that is held names a node of the plan, and its times are at most 10^15.
#[tactic(auto, unfolding(crate::specs::Window::entry_in_limits))]
pub fn entry_in_limits(activities: u8, sizes: [u8; 32], e: Entry) -> bool
    ensures { result ≡ entry_in_limits activities sizes e }
{
    if run_window::is_free(e) {
        return true;
    }
    if e.position > LAST_POSITION {
        return false;
    }
    if !names_node(activities, sizes, e.activity, e.node) {
        return false;
    }
    if e.start.0 > HORIZON {
        return false;
    }
    e.end.0 <= HORIZON
}

// Every place of the window.
pub fn window_in_limits(activities: u8, sizes: [u8; 32], window: [Entry; WINDOW]) -> bool
    ensures { result ≡ window_in_limits activities sizes window }
{
    window
        .iter()
        .all(|&e| entry_in_limits(activities, sizes, e))
}
