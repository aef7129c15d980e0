// Document 01, "From islands to aspect": what a track shows.
ghost use Rattle.std.specs.Prelude.{◌≡◌};
ghost use Rattle.islands.specs.Signs.{seen_of, seen_together, signs_of};
ghost use Rattle.rules.specs.Station.{some_failed, some_occupied};

use crate::Signs;
use rules::{Island, Settings, Track};

// What islands add to their track's signs.
#[derive(Clone, Copy, Default)]
pub(crate) struct Seen {
    pub fresh: bool,
    pub held: bool,
    pub present: bool,
}

impl Seen {
    // What two islands, or groups of islands, add together.
    fn or(self, other: Self) -> Self
        ensures { result ≡ seen_together self other }
    {
        Self {
            fresh: self.fresh | other.fresh,
            held: self.held | other.held,
            present: self.present | other.present,
        }
    }
}

// Every sign of a track. Its islands are read once.
#[tactic(auto, using(crate::proofs::SeenIslands::signs_of_seen))]
pub fn signs_of(settings: Settings, track: Track) -> Signs
    ensures { result ≡ signs_of settings track }
{
    let [advance_1, warning_1, crossing, warning_2, advance_2] = track.islands;
    let warnings = see(settings.t2, true, warning_1).or(see(settings.t2, true, warning_2));
    let near = warnings.or(see(settings.t3, false, crossing));
    let ahead = see(settings.t1, false, advance_1).or(see(settings.t1, false, advance_2));
    let all = near.or(ahead);
    Signs {
        fresh: all.fresh,
        present: all.present,
        near: near.fresh,
        ahead: ahead.fresh,
        held: all.held,
    }
}

// Most islands are free, and add nothing.
fn see(timer: u16, warning: bool, island: Island) -> Seen
    ensures { result ≡ seen_of timer warning island }
{
    if !island.occupied {
        return Seen::default();
    }
    let held = timer <= island.age;
    Seen {
        fresh: !held & !island.leaving,
        held,
        present: !island.leaving | held | warning,
    }
}

// Whether any island of the track is occupied.
pub fn some_occupied(track: Track) -> bool
    ensures { result ≡ some_occupied track }
{
    track.islands.iter().any(|island| island.occupied)
}

// Whether any detector of the track has failed.
pub fn some_failed(track: Track) -> bool
    ensures { result ≡ some_failed track }
{
    track.islands.iter().any(|island| island.failed)
}
