// What a host in C or Rust links, libjidlekuvo.a: each function is that of the crate jidlekuvo, exported under its name, with the same
// clauses. A crate is a library or a static library and not both, and a function of a library is not exported. The header is
// host/include/jidlekuvo.h.
#![tactic(auto)]

ghost use Rattle.std.specs.Prelude.{◌≡◌};
ghost use Rattle.judge.specs.Judge.{judge_of};
ghost use Rattle.numbers.specs.Codes.{code_of};
ghost use Rattle.run.specs.Calls.{ask_of, completion_of, outcome_of};
ghost use Rattle.run.specs.Opening.{open_of};
ghost use Rattle.held.specs.Held.{run_of};
ghost use Rattle.jidlekuvo.specs.Host.{abi, clock, opened_as, Answers};

use held::Held;
use jidlekuvo::{HeldOpened, HostReply};

#[unsafe(no_mangle)]
pub extern "C" fn jidlekuvo_abi() -> u32
    ensures { result ≡ abi }
{
    jidlekuvo::jidlekuvo_abi()
}

#[unsafe(no_mangle)]
pub extern "C" fn jidlekuvo_judge(bytes: &[u8]) -> u64
    ensures { result ≡ code_of (judge_of bytes.now).verdict }
{
    jidlekuvo::jidlekuvo_judge(bytes)
}

#[unsafe(no_mangle)]
pub extern "C" fn jidlekuvo_open(plan: &[u8], psi: u64, slack: u64, available: &[u64]) -> HeldOpened
    ensures { result ≡ opened_as (open_of plan.now (clock psi) slack available.now) }
{
    jidlekuvo::jidlekuvo_open(plan, psi, slack, available)
}

#[unsafe(no_mangle)]
pub extern "C" fn jidlekuvo_ask(run: &mut Held, t: u64) -> HostReply
    ensures { Answers run.old (ask_of (run_of run.old) (clock t)) result run.new }
{
    jidlekuvo::jidlekuvo_ask(run, t)
}

#[unsafe(no_mangle)]
pub extern "C" fn jidlekuvo_completion(run: &mut Held, t: u64, position: u32, node: u8) -> HostReply
    ensures { Answers run.old (completion_of (run_of run.old) (clock t) position node) result run.new }
{
    jidlekuvo::jidlekuvo_completion(run, t, position, node)
}

#[unsafe(no_mangle)]
pub extern "C" fn jidlekuvo_outcome(
    run: &mut Held,
    t: u64,
    position: u32,
    node: u8,
    o: u8,
) -> HostReply
    ensures { Answers run.old (outcome_of (run_of run.old) (clock t) position node o) result run.new }
{
    jidlekuvo::jidlekuvo_outcome(run, t, position, node, o)
}
