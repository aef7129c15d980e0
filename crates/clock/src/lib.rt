// The clock: what single ticks do to a station, any number of them at once.
#![tactic(auto)]

mod ageing;
mod holding;
mod ticking;
mod timing;
mod turning;

pub use ticking::{pass, ticks};
