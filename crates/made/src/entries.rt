// The window of a made-up run.
ghost use Rattle.std.specs.Prelude.{◌≡◌, ◌≤◌};
ghost use Rattle.made.specs.Values.{phase_of, entry_at};
ghost use Rattle.made.specs.Parts.{window_of};

use crate::layout::WINDOW;
use crate::numbers::{byte, four, time};
use run_window::{Entry, Phase};

fn phase_of(tag: u8) -> Phase
    ensures { result ≡ phase_of tag }
{
    match tag % 3 {
        0 => Phase::Free,
        1 => Phase::Loaded,
        _ => Phase::Started,
    }
}

fn entry_at(bytes: &[u8], at: usize) -> Entry
    requires { at ≤ 65500 }
    ensures { result ≡ entry_at bytes.now at }
{
    let phase = phase_of(byte(bytes, at));
    let start = time(bytes, at + 7);
    let end = time(bytes, at + 15);
    Entry {
        phase,
        position: four(bytes, at + 1),
        activity: byte(bytes, at + 5),
        node: byte(bytes, at + 6),
        start,
        end,
    }
}

pub fn window_of(bytes: &[u8]) -> [Entry; run_window::WINDOW]
    ensures { result ≡ window_of bytes.now }
{
    let first = entry_at(bytes, WINDOW);
    let mut window = [first; run_window::WINDOW];
    for (i, x) in window.iter_mut().enumerate() {
        *x = entry_at(bytes, WINDOW + 23 * i);
    }
    window
}
