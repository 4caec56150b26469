// The nodes of a plan, 16 bytes each.
ghost use Rattle.std.specs.Prelude.{map, ◌≡◌};
ghost use Rattle.held.specs.Held.{kind_of, node_of, kind_number, number_in, peripheral_in, held_node};

use crate::HeldNode;
use plan::{Kind, NODES, Node};

// C reads the kind as a number; a `From` of numbers would have to stand with `Kind`, in plan.
fn kind_of(kind: u8, number: u8, peripheral: u8) -> Kind
    ensures { result ≡ kind_of kind number peripheral }
{
    if kind == 1 {
        return Kind::Claim(number);
    }
    if kind == 2 {
        return Kind::Release(number);
    }
    if kind == 3 {
        return Kind::Event(number);
    }
    Kind::Action(number, peripheral)
}

impl From<HeldNode> for Node {
    ghost from_gives = { λ h r. r ≡ node_of h };

    fn from(h: HeldNode) -> Node {
        let kind = kind_of(h.kind, h.number, h.peripheral);
        let preds = h.preds;
        Node {
            duration: h.duration,
            kind,
            count: h.count,
            preds,
        }
    }
}

fn kind_number(kind: Kind) -> u8
    ensures { result ≡ kind_number kind }
{
    match kind {
        Kind::Action(_, _) => 0,
        Kind::Claim(_) => 1,
        Kind::Release(_) => 2,
        Kind::Event(_) => 3,
    }
}

// The action, resource or event.
fn number_in(kind: Kind) -> u8
    ensures { result ≡ number_in kind }
{
    match kind {
        Kind::Action(a, _) => a,
        Kind::Claim(r) => r,
        Kind::Release(r) => r,
        Kind::Event(e) => e,
    }
}

fn peripheral_in(kind: Kind) -> u8
    ensures { result ≡ peripheral_in kind }
{
    match kind {
        Kind::Action(_, p) => p,
        Kind::Claim(_) => 0,
        Kind::Release(_) => 0,
        Kind::Event(_) => 0,
    }
}

impl From<Node> for HeldNode {
    ghost from_gives = { λ n r. r ≡ held_node n };

    fn from(n: Node) -> HeldNode {
        let kind = n.kind;
        let preds = n.preds;
        HeldNode {
            duration: n.duration,
            kind: kind_number(kind),
            number: number_in(kind),
            peripheral: peripheral_in(kind),
            count: n.count,
            preds,
        }
    }
}

pub fn hold_nodes(nodes: [Node; NODES]) -> [HeldNode; NODES]
    ensures { result ≡ map held_node nodes }
{
    let mut held = [HeldNode::from(nodes[0]); NODES];
    for i in 0..NODES {
        held[i] = HeldNode::from(nodes[i]);
    }
    held
}
