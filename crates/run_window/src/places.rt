// The whole window: whether it is empty, how many places are free, and where a node stands.
ghost use Rattle.std.specs.Prelude.{◌≡◌};
ghost use Rattle.run_window.specs.Window.{is_empty, vacancies};
ghost use Rattle.run_window.specs.Where.{place_of};

use crate::{Entry, WINDOW, is_free, is_node};

pub fn is_empty(window: [Entry; WINDOW]) -> bool
    ensures { result ≡ is_empty window }
{
    window.iter().all(|e| is_free(*e))
}

// How many places are free.
pub fn vacancies(window: [Entry; WINDOW]) -> usize
    ensures { result ≡ vacancies window }
{
    window.iter().filter(|e| is_free(**e)).count()
}

// The lowest place that holds the node, or the number of places where none does.
pub fn place_of(window: [Entry; WINDOW], position: u32, node: u8) -> usize
    ensures { result ≡ place_of position node window }
{
    for lowest in 0..WINDOW {
        if is_node(position, node, window[lowest]) {
            return lowest;
        }
    }
    WINDOW
}
