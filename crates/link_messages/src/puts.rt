// The bytes of a message, put into a lent buffer.
ghost use Rattle.std.specs.Prelude.{cond, [], ◌+◌, ◌≤◌, ◌<◌};
ghost use Rattle.wire.specs.Number.{bytes_of};
ghost use Rattle.wire.specs.Puts.{Puts};
ghost use Rattle.link_messages.specs.Inner.Bytes.{message_bytes};

use crate::Message;
use crate::lengths::stands;

// A number of w bytes, if its bit stands: the offset past it.
fn put_if(out: &mut [u8], at: usize, stands: bool, x: u64, w: u8) -> usize
    requires { (at < 64) × (w ≤ 8) }
    ensures { (result ≤ at + 8) × Puts out.old at (cond stands (bytes_of w x) []) out.new result }
{
    if stands {
        return wire::puts::put_number(out, at, x, w);
    }
    at
}

// The whole message, at the front: the offset past it. What is past the end of the buffer is not put.
pub fn put_message(out: &mut [u8], m: Message) -> usize
    ensures { Puts out.old 0 (message_bytes m) out.new result }
{
    let map = m.map;
    let a = wire::puts::put_byte(out, 0, map);
    let b = put_if(out, a, stands(map, 1), m.reading, 8);
    let c = put_if(out, b, stands(map, 2), u64::from(m.position), 4);
    let d = put_if(out, c, stands(map, 4), u64::from(m.node), 1);
    let e = put_if(out, d, stands(map, 8), u64::from(m.outcome), 1);
    let f = put_if(out, e, stands(map, 16), u64::from(m.activity), 1);
    put_if(out, f, stands(map, 32), u64::from(m.number), 1)
}
