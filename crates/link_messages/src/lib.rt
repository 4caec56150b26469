// Messages of the host link: "A message is a map byte and the fields whose bits stand, in bit order, little-endian".
// The map stays a number: it is a byte of the link, and other maps than the listed ones are written and read (61, 62).
#![tactic(auto)]

mod lengths;
mod puts;

ghost use Rattle.std.specs.Prelude.{◌≡◌};
ghost use Rattle.link_messages.specs.Writing.{sent_by, buffer_by};
ghost use Rattle.link_messages.specs.Inner.Bytes.{message_bytes};

pub use lengths::{has_length, length_of};

// The fields of a message, by the bits of its map: a field whose bit does not stand is 0 when read and not looked at when written.
#[derive(Clone, Copy)]
pub struct Message {
    pub map: u8,
    pub reading: u64,
    pub position: u32,
    pub node: u8,
    pub outcome: u8,
    pub activity: u8,
    pub number: u8,
}

// Why a message is not written.
#[derive(Clone, Copy)]
pub enum NotSent {
    // a map not listed for the direction, or a number that no such answer has
    Unlisted,
    TooShort,
}

// Writes a message of any direction, where `good` says whether that direction has it: how many bytes were written.
pub fn write(m: Message, good: bool, out: &mut [u8]) -> Result<usize, NotSent>
    ensures { (result ≡ sent_by good (message_bytes m) out.old) × (out.new ≡ buffer_by good (message_bytes m) out.old) }
{
    if !good {
        return Err(NotSent::Unlisted);
    }
    if length_of(m.map) <= out.len() {
        return Ok(puts::put_message(out, m));
    }
    Err(NotSent::TooShort)
}
