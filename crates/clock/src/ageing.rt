// Document 01, "Reports": what single ticks do to islands.
ghost use Rattle.std.specs.Prelude.{◌≡◌, map};
ghost use Rattle.clock.specs.Ages.{later, later_track};

use rules::{Island, Track};

// The tracks n single ticks later.
#[tactic(auto, using(islands::proofs::Below::changed_next), unfolding(crate::specs::Ages::later_track))]
pub(crate) fn grow_older(tracks: &mut [Track], n: u16)
    ensures { tracks.new ≡ map (later_track n) tracks.old }
{
    for track in tracks.iter_mut() {
        islands_grow_older(&mut track.islands, n);
    }
}

// The islands n single ticks later: the age of every occupied one has grown by n, stopping at 65,535.
#[tactic(auto, using(crate::proofs::Ages::occupied_next, crate::proofs::Ages::free_next))]
fn islands_grow_older(islands: &mut [Island], n: u16)
    ensures { islands.new ≡ map (later n) islands.old }
{
    for island in islands.iter_mut() {
        if island.occupied {
            island.age = island.age.saturating_add(n);
        }
    }
}
