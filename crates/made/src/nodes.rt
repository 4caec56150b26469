// The nodes of a made-up plan.
ghost use Rattle.std.specs.Prelude.{◌≡◌, ◌≤◌};
ghost use Rattle.made.specs.Layout.{node_size, nodes_from};
ghost use Rattle.made.specs.Values.{byte_at, array_at, kind_of, node_at};

use crate::layout::NODES;
use crate::numbers::{byte, fill, four};
use plan::{Kind, Node};

fn kind_of(tag: u8, x: u8, y: u8) -> Kind
    ensures { result ≡ kind_of tag x y }
{
    match tag % 4 {
        0 => Kind::Action(x, y),
        1 => Kind::Claim(x),
        2 => Kind::Release(x),
        _ => Kind::Event(x),
    }
}

fn preds_at(bytes: &[u8], at: usize) -> [u8; 8]
    requires { at ≤ 65520 }
    ensures { result ≡ array_at byte_at 1 8 bytes.now at }
{
    let mut preds = [0u8; 8];
    fill(bytes, at, &mut preds);
    preds
}

fn node_at(bytes: &[u8], at: usize) -> Node
    requires { at ≤ 65500 }
    ensures { result ≡ node_at bytes.now at }
{
    let kind = kind_of(byte(bytes, at), byte(bytes, at + 1), byte(bytes, at + 2));
    let duration = four(bytes, at + 3);
    let count = byte(bytes, at + 7);
    let preds = preds_at(bytes, at + 8);
    Node {
        kind,
        duration,
        count,
        preds,
    }
}

pub fn nodes_of(bytes: &[u8]) -> [Node; 2048]
    ensures { result ≡ array_at node_at node_size 2048 bytes.now nodes_from }
{
    let first = node_at(bytes, NODES);
    let mut nodes = [first; 2048];
    for (i, x) in nodes.iter_mut().enumerate() {
        *x = node_at(bytes, NODES + 16 * i);
    }
    nodes
}
