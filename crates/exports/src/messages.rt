// Messages of the host link, for callers in another language.
ghost use Rattle.std.specs.Prelude.{◌≡◌, length};
ghost use Rattle.link_calls.specs.Calls.{read_call};
ghost use Rattle.link_calls.specs.Replies.{read_answer};
ghost use Rattle.link_drive.specs.LinkDrive.{linked_of, link_buffer};
ghost use Rattle.exports.specs.Codes.{recorded_code};
ghost use Rattle.exports.specs.Messages.{sent_code, refused_code, call_code, call_buffer, answer_code, answer_buffer, message_code, message_buffer, fields_of, send_code, send_buffer};

use link_messages::{Message, NotSent};
use run::Refusal;

// ---- a list of messages

// Drives a list of messages through a run, and writes the opening's record and the answer to each: how many bytes it wrote, or
// 36 * 2^32 for a buffer that is too short, which stays as it was.
#[unsafe(no_mangle)]
pub extern "C" fn jidlekuvo_link(input: &[u8], out: &mut [u8]) -> usize
    ensures { (result ≡ recorded_code (linked_of input.now out.old)) × (out.new ≡ link_buffer input.now out.old) }
{
    crate::recorded_code(link_drive::drive(input, out))
}

// ---- one message

// A writer's answer as a number.
fn sent_code(s: Result<usize, NotSent>) -> u64
    ensures { result ≡ sent_code s }
{
    match s {
        Ok(n) => n as u64,
        Err(NotSent::Unlisted) => 261993005056,
        Err(NotSent::TooShort) => 154618822656,
    }
}

// A refusal in reading as a number.
fn refused_code(f: Refusal) -> u64
    ensures { result ≡ refused_code f }
{
    u64::from(numbers::refusal_number(f)) * 4294967296
}

fn call_back(input: &[u8], out: &mut [u8]) -> u64
    ensures { (result ≡ call_code (read_call input.now) out.old) × (out.new ≡ call_buffer (read_call input.now) out.old) }
{
    match link_calls::read_call(input) {
        Ok(c) => sent_code(link_calls::write_call(link_calls::of_call(c), out)),
        Err(f) => refused_code(f),
    }
}

fn answer_back(input: &[u8], out: &mut [u8]) -> u64
    ensures { (result ≡ answer_code (read_answer input.now) out.old) × (out.new ≡ answer_buffer (read_answer input.now) out.old) }
{
    match link_calls::read_answer(input) {
        Ok(r) => sent_code(link_calls::write_answer(link_calls::of_reply(r), out)),
        Err(f) => refused_code(f),
    }
}

// Reads a message, direction 0 to the board and any other to the host, and writes it back: how many bytes it wrote, or a refusal's
// number times 2^32: 62 and 61 in reading, 36 for a buffer that is too short, which stays as it was.
#[unsafe(no_mangle)]
pub extern "C" fn jidlekuvo_message(direction: u8, input: &[u8], out: &mut [u8]) -> u64
    ensures { (result ≡ message_code direction input.now out.old) × (out.new ≡ message_buffer direction input.now out.old) }
{
    if direction == 0 {
        return call_back(input, out);
    }
    answer_back(input, out)
}

// The message that has these fields.
fn message_of(fields: &[u8]) -> Message
    requires { length fields.now ≡ 17 }
    ensures { result ≡ fields_of fields.now }
{
    Message {
        map: fields[0],
        reading: wire::eight(fields, 1),
        position: wire::four(fields, 9),
        node: fields[13],
        outcome: fields[14],
        activity: fields[15],
        number: fields[16],
    }
}

// Writes a message of any fields: map (1 byte), reading (8), position (4), node, outcome, activity and number (1 each). How many
// bytes it wrote, or 61 or 36 times 2^32; 62 times 2^32 where the fields are not 17 bytes.
#[unsafe(no_mangle)]
pub extern "C" fn jidlekuvo_send(direction: u8, fields: &[u8], out: &mut [u8]) -> u64
    ensures { (result ≡ send_code direction fields.now out.old) × (out.new ≡ send_buffer direction fields.now out.old) }
{
    if fields.len() != 17 {
        return 266287972352;
    }
    let m = message_of(fields);
    if direction == 0 {
        return sent_code(link_calls::write_call(m, out));
    }
    sent_code(link_calls::write_answer(m, out))
}
