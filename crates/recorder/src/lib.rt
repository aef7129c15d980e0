// The recorder: a planner's text goes in, a register comes out. What a text means is told by rules_plan.
#![tactic(auto)]

mod checking;
mod filling;
mod parting;
mod recording;
mod saying;

pub use parting::after_mark;
pub use recording::record;

// Room for any register, and for the line of each of its rows.
pub type RegisterBytes = [u8; 65536];

pub type RowLines = [usize; 8190];
