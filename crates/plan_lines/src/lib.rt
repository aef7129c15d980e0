// What a line of a planner's text says. What it means is told by rules_plan.
#![tactic(auto)]

mod lines;
mod names;
mod numbers;
mod words;

pub use lines::line_in;
pub use words::before_line_feed;
