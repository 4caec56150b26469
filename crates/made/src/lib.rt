// The parts of a made-up run, read from bytes at fixed offsets: for tests with runs that no opening made. Any bytes are
// such a run. What stands where is in specs/Layout.antt.
#![tactic(auto)]

pub mod automata;
pub mod entries;
pub mod layout;
pub mod moments;
pub mod nodes;
pub mod numbers;
pub mod plans;

pub use entries::window_of;
pub use moments::progress_of;
pub use plans::plan_of;
