// What is answered, as numbers: the kinds of jidlekuvo_drive's records (crate drive_records), the activity in a field of its own.
ghost use Rattle.std.specs.Prelude.{◌≡◌};
ghost use Rattle.jidlekuvo.specs.Replies.{host_reply, told_of, opening_told};

use crate::HostReply;
use drive_records::Record;
use run::{Opening, Reply};

// A record's second byte is the activity of a start, and a number otherwise.
fn host_reply(r: Record) -> HostReply
    ensures { result ≡ host_reply r }
{
    let (number, activity) = if r.answer == 1 {
        (0, r.number)
    } else {
        (r.number, 0)
    };
    HostReply {
        place: r.place,
        position: r.position,
        kind: r.answer,
        number,
        activity,
        node: r.node,
    }
}

pub fn told(reply: Reply) -> HostReply
    ensures { result ≡ told_of reply }
{
    host_reply(drive_records::reply_record(reply))
}

pub fn told_opening(opening: Opening) -> HostReply
    ensures { result ≡ opening_told opening }
{
    host_reply(drive_records::opening_record(opening))
}
