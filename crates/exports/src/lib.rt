// What Rust and C link: functions on numbers and byte slices.
#![tactic(auto)]

ghost use Rattle.std.specs.Prelude.{◌≡◌};
ghost use Rattle.plan.specs.Reading.{read_plan};
ghost use Rattle.plan.specs.Limits.{InLimits};
ghost use Rattle.activity.specs.Number.{activities_verdict};
ghost use Rattle.judge.specs.Judge.{judge_of};
ghost use Rattle.numbers.specs.Codes.{code_of};
ghost use Rattle.drive.specs.Drive.{recorded_of, buffer_of};
ghost use Rattle.made_up.specs.Answers.{made_code, made_buffer};
ghost use Rattle.exports.specs.Codes.{read_verdict, activities_code, written_code, back_code, back_buffer, recorded_code};

use drive::NotRecorded;
use numbers::codes::code;
use plan::Plan;
use plan_write::NotWritten;

pub mod messages; // messages of the host link
pub mod timetables; // the timetable

// Reading alone: 0 if the bytes read as a plan, otherwise number and place.
#[unsafe(no_mangle)]
pub extern "C" fn jidlekuvo_read(bytes: &[u8]) -> u64
    ensures { result ≡ code_of (read_verdict (read_plan bytes.now)) }
{
    match plan_read::read(bytes) {
        Err(fault) => code(Err(fault)),
        Ok(_) => code(Ok(())),
    }
}

// The activities of a plan that was read.
fn activities_of(plan: Plan) -> u64
    requires { InLimits plan }
    ensures { result ≡ code_of (activities_verdict plan) }
{
    code(activity::activities(plan))
}

// Reading, and the activities' rules: 0 if the bytes meet them, otherwise number and place.
#[unsafe(no_mangle)]
pub extern "C" fn jidlekuvo_activities(bytes: &[u8]) -> u64
    ensures { result ≡ activities_code (read_plan bytes.now) }
{
    match plan_read::read(bytes) {
        Err(fault) => code(Err(fault)),
        Ok(plan) => activities_of(plan),
    }
}

// The whole verdict: 0 if the plan is accepted, otherwise number and place.
#[unsafe(no_mangle)]
pub extern "C" fn jidlekuvo_judge(bytes: &[u8]) -> u64
    ensures { result ≡ code_of (judge_of bytes.now).verdict }
{
    code(judge::verdict(bytes))
}

// The writer's answer as a number.
fn written_code(w: Result<usize, NotWritten>) -> u64
    ensures { result ≡ written_code w }
{
    match w {
        Ok(n) => n as u64,
        Err(why) => match why {
            NotWritten::BreaksRule => 214748364800,
            NotWritten::TooShort => 154618822656,
        },
    }
}

// Reads a plan and writes it back: the number of bytes written, or a refusal's number and place.
#[unsafe(no_mangle)]
pub extern "C" fn jidlekuvo_write_back(bytes: &[u8], out: &mut [u8]) -> u64
    ensures { (result ≡ back_code (read_plan bytes.now) out.old) × (out.new ≡ back_buffer (read_plan bytes.now) out.old) }
{
    match plan_read::read(bytes) {
        Err(fault) => code(Err(fault)),
        Ok(plan) => written_code(plan_write::write(plan, out)),
    }
}

fn recorded_code(r: Result<usize, NotRecorded>) -> usize
    ensures { result ≡ recorded_code r }
{
    match r {
        Ok(n) => n,
        Err(NotRecorded::TooShort) => 154618822656,
    }
}

// Drives a list of calls, and of questions where a node stands, through a run, and writes a record for the opening and for
// each of them: how many bytes it wrote, or 36 * 2^32 for a buffer that is too short, which stays as it was.
#[unsafe(no_mangle)]
pub extern "C" fn jidlekuvo_drive(input: &[u8], out: &mut [u8]) -> usize
    ensures { (result ≡ recorded_code (recorded_of input.now out.old)) × (out.new ≡ buffer_of input.now out.old) }
{
    recorded_code(drive::drive(input, out))
}

// Two calls of a run that no opening made, all as bytes (any bytes are such a run), and a record for each: how many bytes
// it wrote, or 36 * 2^32 for a buffer too short.
#[unsafe(no_mangle)]
pub extern "C" fn jidlekuvo_made_up(bytes: &[u8], out: &mut [u8]) -> usize
    ensures { (result ≡ made_code out.old) × (out.new ≡ made_buffer bytes.now out.old) }
{
    made_up::answer(bytes, out)
}
