// RFC 8259: readers of a text in UTF-8. Those of blanks, names and values are given a place in the
// text and return the place past what they read there, if they read something; octet tells what
// stands at one, and behind_member what follows a member: another one, or the object's end. Nothing is
// asked of the place, and no tree is built.
// What there is to read is told by the crate rules_json.
#![tactic(auto)]

mod characters;
mod numbers;
mod octets;
mod strings;
mod values;

pub use octets::{Next, blanks, octet};
pub use strings::member_name;
pub use values::{After, behind_member, value};
