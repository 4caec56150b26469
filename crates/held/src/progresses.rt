// Where a behaviour stands; its pending instances, 16 bytes each.
ghost use Rattle.std.specs.Prelude.{map, ◌≡◌};
ghost use Rattle.held.specs.Held.{told_by, instance_of, progress_of, held_instance, held_progress};

use crate::{HeldInstance, HeldProgress};
use times::{Instance, Progress, Told};

// C reads what is told as a number; a `From` of numbers would have to stand with `Told`, in times.
fn told_by(told: u8, outcome: u8) -> Told
    ensures { result ≡ told_by told outcome }
{
    if told == 1 {
        return Told::Outcome(outcome);
    }
    Told::Nothing
}

impl From<HeldInstance> for Instance {
    ghost from_gives = { λ h r. r ≡ instance_of h };

    fn from(h: HeldInstance) -> Instance {
        let told = told_by(h.told, h.outcome);
        let end = h.end;
        Instance {
            end,
            position: h.position,
            node: h.node,
            told,
        }
    }
}

impl From<Instance> for HeldInstance {
    ghost from_gives = { λ x r. r ≡ held_instance x };

    fn from(x: Instance) -> HeldInstance {
        let told = x.told;
        let end = x.end;
        match told {
            Told::Nothing => HeldInstance {
                end,
                position: x.position,
                node: x.node,
                told: 0,
                outcome: 0,
                spare: 0,
            },
            Told::Outcome(o) => HeldInstance {
                end,
                position: x.position,
                node: x.node,
                told: 1,
                outcome: o,
                spare: 0,
            },
        }
    }
}

fn pending_of(held: [HeldInstance; 128]) -> [Instance; 128]
    ensures { result ≡ map instance_of held }
{
    let mut pending = [Instance::from(held[0]); 128];
    for i in 0..128usize {
        pending[i] = Instance::from(held[i]);
    }
    pending
}

fn hold_pending(pending: [Instance; 128]) -> [HeldInstance; 128]
    ensures { result ≡ map held_instance pending }
{
    let mut held = [HeldInstance::from(pending[0]); 128];
    for i in 0..128usize {
        held[i] = HeldInstance::from(pending[i]);
    }
    held
}

impl From<HeldProgress> for Progress {
    ghost from_gives = { λ h r. r ≡ progress_of h };

    fn from(h: HeldProgress) -> Progress {
        let held_pending = h.pending;
        let pending = pending_of(held_pending);
        let available = h.available;
        let latest = h.latest;
        let lengths = h.lengths;
        Progress {
            available,
            latest,
            lengths,
            pending,
            position: h.position,
            state: h.state,
        }
    }
}

impl From<Progress> for HeldProgress {
    ghost from_gives = { λ g r. r ≡ held_progress g };

    fn from(g: Progress) -> HeldProgress {
        let instances = g.pending;
        let pending = hold_pending(instances);
        let available = g.available;
        let latest = g.latest;
        let lengths = g.lengths;
        let spare = [0u8; 3];
        HeldProgress {
            available,
            latest,
            pending,
            position: g.position,
            lengths,
            state: g.state,
            spare,
        }
    }
}
