// The islands of a track: their marks, and what a track shows of them. And what a station and its clock
// both ask: whether the settings are within limits, how many tracks there are, what the hold is set to.
#![tactic(auto)]

mod holding;
mod limits;
mod marks;
mod shown;

pub use holding::held_up;
pub use limits::{live_tracks, within_limits};
pub use marks::{FREE, detector_now, free_now, island_at, occupied_now, with_island};
pub use shown::{signs_of, some_failed, some_occupied};

// What is asked of a track: a fresh approaching island; an island that counts for the greatest
// risk; a fresh approaching warning or crossing island; a fresh approaching advance island; a held
// island.
#[derive(Clone, Copy)]
pub struct Signs {
    pub fresh: bool,
    pub present: bool,
    pub near: bool,
    pub ahead: bool,
    pub held: bool,
}
