// Calls and replies as messages of the host link.
#![tactic(auto)]

mod calls;
mod replies;

pub use calls::{of_call, read_call, write_call};
pub use replies::{of_reply, read_answer, write_answer};
