// Writing a plan into a lent buffer.
#![tactic(auto)]

mod bytes;

ghost use Rattle.std.specs.Prelude.{◌≡◌};
ghost use Rattle.plan_write.specs.Writing.{written_of, buffer_of};

use plan::Plan;

// Why a plan is not written.
#[derive(Clone, Copy)]
pub enum NotWritten {
    BreaksRule,
    TooShort,
}

// How many bytes were written, or why none were. Any plan and any buffer are taken. The plan's length is found by putting it into a
// buffer that holds nothing of it.
pub fn write(plan: Plan, out: &mut [u8]) -> Result<usize, NotWritten>
    ensures { (result ≡ written_of plan out.old) × (out.new ≡ buffer_of plan out.old) }
{
    if !plan_limits::file_rules(plan) {
        return Err(NotWritten::BreaksRule);
    }
    let mut none = [0u8; 1];
    let size = bytes::put_plan(&mut none, plan);
    if size > out.len() {
        return Err(NotWritten::TooShort);
    }
    Ok(bytes::put_plan(out, plan))
}
