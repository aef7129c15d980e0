// Document 02, request 1: the aspect to the passenger screens. What is said of a station, the text
// that is sent, and what comes back.
#![tactic(auto)]

mod members;
mod message;
mod names;
mod numbers;
mod reading;
mod tracks;
mod writing;

pub use message::message_of;
pub use reading::read;
pub use writing::write;
