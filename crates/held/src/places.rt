// The places of the window, 24 bytes each.
ghost use Rattle.std.specs.Prelude.{map, ◌≡◌};
ghost use Rattle.held.specs.Held.{phase_of, entry_of, phase_number, held_entry};

use crate::{HeldEntry, HeldRest};
use run_window::{Entry, Phase, WINDOW};

// C reads the phase as a number; a `From` of numbers would have to stand with `Phase`, in run_window.
fn phase_of(phase: u8) -> Phase
    ensures { result ≡ phase_of phase }
{
    if phase == 1 {
        return Phase::Loaded;
    }
    if phase == 2 {
        return Phase::Started;
    }
    Phase::Free
}

impl From<HeldEntry> for Entry {
    ghost from_gives = { λ h r. r ≡ entry_of h };

    fn from(h: HeldEntry) -> Entry {
        let phase = phase_of(h.phase);
        let start = h.start;
        let end = h.end;
        Entry {
            start,
            end,
            position: h.position,
            activity: h.activity,
            node: h.node,
            phase,
        }
    }
}

fn phase_number(phase: Phase) -> u8
    ensures { result ≡ phase_number phase }
{
    match phase {
        Phase::Free => 0,
        Phase::Loaded => 1,
        Phase::Started => 2,
    }
}

impl From<Entry> for HeldEntry {
    ghost from_gives = { λ e r. r ≡ held_entry e };

    fn from(e: Entry) -> HeldEntry {
        let phase = e.phase;
        let start = e.start;
        let end = e.end;
        HeldEntry {
            start,
            end,
            position: e.position,
            activity: e.activity,
            node: e.node,
            phase: phase_number(phase),
            spare: 0,
        }
    }
}

pub fn window_of(held: [HeldEntry; WINDOW]) -> [Entry; WINDOW]
    ensures { result ≡ map entry_of held }
{
    let free = run_window::vacant();
    let mut window = [free; WINDOW];
    for i in 0..WINDOW {
        window[i] = Entry::from(held[i]);
    }
    window
}

pub fn hold_window(window: [Entry; WINDOW]) -> [HeldEntry; WINDOW]
    ensures { result ≡ map held_entry window }
{
    let zero = HeldEntry::from(run_window::vacant());
    let mut held = [zero; WINDOW];
    for i in 0..WINDOW {
        held[i] = HeldEntry::from(window[i]);
    }
    held
}

// The window with nothing in it that no case uses: as it is written.
pub fn fresh(rest: HeldRest) -> [HeldEntry; WINDOW]
    ensures { result ≡ map held_entry (map entry_of rest.window) }
{
    let mut window = rest.window;
    for i in 0..WINDOW {
        window[i] = HeldEntry::from(Entry::from(window[i]));
    }
    window
}
