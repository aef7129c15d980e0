// A station: how it is made, what it shows, and how one thing of it is changed.
#![tactic(auto)]

mod changing;
mod making;
mod showing;
mod surveying;

pub use changing::{
    island_of, track_at, track_of, with_condition, with_fault, with_hold, with_track,
};
pub use making::{least_station, make, settings_answer};
use rules::Aspect;
pub use showing::{aspect, heads, presence, settle, settle_in, shown, zones};
pub use surveying::{hold_set, is_obstructed, obstructed};

// What an accepted report leaves of the hold, and the aspect then.
#[derive(Clone, Copy)]
pub struct Settled {
    pub hold: u16,
    pub aspect: Aspect,
}
