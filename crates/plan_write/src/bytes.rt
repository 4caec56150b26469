// The bytes of a plan, put into a lent buffer: each function answers the offset past what it puts.
ghost use Rattle.std.specs.Prelude.{◌≡◌, true, [], ◌∷◌, ◌++◌, ◌+◌, ◌*◌, ◌≤◌, ◌<◌};
ghost use Rattle.wire.specs.Number.{present, optional_bytes, number_bytes};
ghost use Rattle.wire.specs.Map.{map_of};
ghost use Rattle.wire.specs.Puts.{Puts};
ghost use Rattle.format.specs.Format.{print};
ghost use Rattle.format.specs.Inner.Flat.{flat};
ghost use Rattle.plan.specs.Plan.{moves_of};
ghost use Rattle.plan.specs.Limits.{InLimits};
ghost use Rattle.plan_file.specs.PlanFile.{node_map, input_bit, output_bit, move_map, plan_file};
ghost use Rattle.plan_write.specs.Inner.Bytes.{kind_bytes, node_bytes, input_bytes, output_bytes, move_bytes, automaton_bytes, named_bytes, section_bytes, activity_bytes};
ghost use Rattle.plan_write.specs.Inner.Bits.{digit, kind_bit};

use basis::u8_to_u32;
use plan::{Automaton, Input, Kind, Node, Output, Plan, Transition};

// The bit of a number that is absent where it is 0. A number of one byte comes by `u8_to_u32` and not by `u32::from`, so that
// must-fail/one_more.edit of basis tries what is run.
fn bit_of(x: u32) -> u8
    ensures { (result ≡ digit (present x)) × (result ≤ 1) }
{
    u8::from(x != 0)
}

fn kind_bit(kind: Kind) -> u8
    ensures { (result ≡ kind_bit kind) × (result ≤ 8) }
{
    match kind {
        Kind::Action(_, _) => 1,
        Kind::Claim(_) => 2,
        Kind::Release(_) => 4,
        Kind::Event(_) => 8,
    }
}

fn node_map(n: Node) -> u8
    ensures { result ≡ node_map n }
{
    let kind = n.kind;
    let k = kind_bit(kind);
    let d = bit_of(n.duration);
    let c = bit_of(u8_to_u32(n.count));
    k + (16 * d + 32 * c)
}

fn put_kind(out: &mut [u8], at: usize, kind: Kind) -> usize
    requires { at < 131000 }
    ensures { Puts out.old at (kind_bytes kind) out.new result }
{
    match kind {
        Kind::Action(a, x) => {
            let next = wire::puts::put_byte(out, at, a);
            wire::puts::put_byte(out, next, x)
        }
        Kind::Claim(r) => wire::puts::put_byte(out, at, r),
        Kind::Release(r) => wire::puts::put_byte(out, at, r),
        Kind::Event(e) => wire::puts::put_byte(out, at, e),
    }
}

// The count of the predecessors, and the predecessors.
fn put_preds(out: &mut [u8], at: usize, preds: [u8; 8], k: u8) -> usize
    requires { (at < 131000) × (k ≤ 8) }
    ensures { Puts out.old at (optional_bytes 1 k ++ number_bytes preds 0 k) out.new result }
{
    let next = wire::puts::put_optional(out, at, u64::from(k), 1);
    wire::puts::put_list(out, next, &preds, k)
}

fn put_node(out: &mut [u8], at: usize, n: Node) -> usize
    requires { (at < 130000) × (n.count ≤ 8) }
    ensures { Puts out.old at (node_bytes n) out.new result }
{
    let kind = n.kind;
    let preds = n.preds;
    let map = node_map(n);
    let a = wire::puts::put_byte(out, at, map);
    let b = put_kind(out, a, kind);
    let c = wire::puts::put_optional(out, b, u64::from(n.duration), 4);
    put_preds(out, c, preds, n.count)
}

// The activities, one after the other: the size of each, then its nodes.
fn put_activities(out: &mut [u8], at: usize, plan: Plan) -> usize
    requires { (at < 65536) × InLimits plan }
    ensures { (result ≤ at + 1025 * plan.activities) × Puts out.old at (activity_bytes plan 0 plan.activities) out.new result }
{
    let mut off = at;
    for a in 0..usize::from(plan.activities) {
        let size = plan.sizes[a];
        off = wire::puts::put_byte(out, off, size);
        for n in 0..usize::from(size) {
            let node = plan.nodes[64 * a + n];
            off = put_node(out, off, node);
        }
    }
    off
}

fn input_digit(input: Input) -> u8
    ensures { (result ≡ digit (input_bit input)) × (result ≤ 1) }
{
    match input {
        Input::Nothing => 0,
        Input::Outcome(_, _) => 1,
    }
}

fn output_digit(output: Output) -> u8
    ensures { (result ≡ digit (output_bit output)) × (result ≤ 1) }
{
    match output {
        Output::Empty => 0,
        Output::Activity(_) => 1,
    }
}

fn move_map(t: Transition) -> u8
    ensures { result ≡ move_map t }
{
    let input = t.input;
    let output = t.output;
    let i = input_digit(input);
    let o = output_digit(output);
    i + 2 * o
}

fn put_input(out: &mut [u8], at: usize, input: Input) -> usize
    requires { at < 131000 }
    ensures { Puts out.old at (input_bytes input) out.new result }
{
    match input {
        Input::Nothing => at,
        Input::Outcome(e, o) => {
            let next = wire::puts::put_byte(out, at, e);
            wire::puts::put_byte(out, next, o)
        }
    }
}

fn put_output(out: &mut [u8], at: usize, output: Output) -> usize
    requires { at < 131000 }
    ensures { Puts out.old at (output_bytes output) out.new result }
{
    match output {
        Output::Empty => at,
        Output::Activity(a) => wire::puts::put_byte(out, at, a),
    }
}

fn put_move(out: &mut [u8], at: usize, t: Transition) -> usize
    requires { at < 130000 }
    ensures { Puts out.old at (move_bytes t) out.new result }
{
    let input = t.input;
    let output = t.output;
    let map = move_map(t);
    let a = wire::puts::put_byte(out, at, map);
    let b = wire::puts::put_byte(out, a, t.from);
    let c = wire::puts::put_byte(out, b, t.to);
    let d = put_input(out, c, input);
    put_output(out, d, output)
}

fn put_moves(out: &mut [u8], at: usize, t: Automaton) -> usize
    requires { (at < 120000) × (t.count ≤ 256) }
    ensures { Puts out.old at (flat move_bytes (moves_of t)) out.new result }
{
    let mut off = at;
    for m in &t.moves[..usize::from(t.count)] {
        off = put_move(out, off, *m);
    }
    off
}

fn put_automaton(out: &mut [u8], at: usize, t: Automaton) -> usize
    requires { (at < 110000) × (t.count ≤ 256) }
    ensures { Puts out.old at (automaton_bytes t) out.new result }
{
    let a = wire::puts::put_byte(out, at, t.states);
    let b = wire::puts::put_byte(out, a, t.initial);
    let c = wire::puts::put_number(out, b, t.finals, 8);
    let d = wire::puts::put_number(out, c, u64::from(t.count), 2);
    put_moves(out, d, t)
}

fn section_map(resources: u8, peripherals: u8, events: u8, activities: u8) -> u8
    ensures { result ≡ map_of (present resources ∷ present peripherals ∷ present events ∷ present activities ∷ true ∷ []) }
{
    let r = bit_of(u8_to_u32(resources));
    let x = bit_of(u8_to_u32(peripherals));
    let e = bit_of(u8_to_u32(events));
    let a = bit_of(u8_to_u32(activities));
    r + (2 * x + (4 * e + (8 * a + 16)))
}

// The peripherals and the events.
fn put_named(
    out: &mut [u8],
    at: usize,
    peripherals: u8,
    belongs: [u8; 64],
    events: u8,
    outcomes: [u8; 16],
) -> usize
    requires { (at < 65536) × (peripherals ≤ 64) × (events ≤ 16) }
    ensures { (result ≤ at + 82) × Puts out.old at (named_bytes peripherals belongs events outcomes) out.new result }
{
    let a = wire::puts::put_optional(out, at, u64::from(peripherals), 1);
    let b = wire::puts::put_list(out, a, &belongs, peripherals);
    let c = wire::puts::put_optional(out, b, u64::from(events), 1);
    wire::puts::put_list(out, c, &outcomes, events)
}

// The sections after the resources and before the automaton, and the map and the resources before them.
fn put_sections(out: &mut [u8], plan: Plan) -> usize
    requires { InLimits plan }
    ensures { (result ≤ 85) × Puts out.old 0 (section_bytes plan) out.new result }
{
    let map = section_map(
        plan.resources,
        plan.peripherals,
        plan.events,
        plan.activities,
    );
    let a = wire::puts::put_byte(out, 0, map);
    let b = wire::puts::put_optional(out, a, u64::from(plan.resources), 1);
    let belongs = plan.belongs;
    let outcomes = plan.outcomes;
    let c = put_named(out, b, plan.peripherals, belongs, plan.events, outcomes);
    wire::puts::put_optional(out, c, u64::from(plan.activities), 1)
}

// The bytes of a plan within the limits, from the front of the buffer.
pub fn put_plan(out: &mut [u8], plan: Plan) -> usize
    requires { InLimits plan }
    ensures { Puts out.old 0 (print plan_file plan) out.new result }
{
    let a = put_sections(out, plan);
    let b = put_activities(out, a, plan);
    let t = plan.automaton;
    put_automaton(out, b, t)
}
