// Document 01, "Reports": what becomes of the island that a report names.
ghost use Rattle.std.specs.Prelude.{◌≡◌};
ghost use Rattle.rules.specs.Reports.{detector_now, free_now, leaving_mark, occupied_now, with_island};
ghost use Rattle.rules.specs.Station.{approaching, going_away, island_at};

use rules::{Island, Track};

// A free island, whose detector works.
pub const FREE: Island = Island {
    occupied: false,
    leaving: false,
    failed: false,
    age: 0,
};

// The island with this number; past the last one, a free island.
pub fn island_at(track: Track, number: u8) -> Island
    ensures { result ≡ island_at track number }
{
    let at = usize::from(number);
    track.islands.get(at).copied().unwrap_or(FREE)
}

fn approaching(island: Island) -> bool
    ensures { result ≡ approaching island }
{
    island.occupied && !island.leaving
}

fn going_away(island: Island) -> bool
    ensures { result ≡ going_away island }
{
    island.occupied && island.leaving
}

// The mark that an island gets at the moment it becomes occupied: whether it is leaving.
#[tactic(auto, unfolding(rules::specs::Reports::leaving_mark))]
fn leaving_mark(track: Track, number: u8) -> bool
    ensures { result ≡ leaving_mark track number }
{
    let [advance_1, warning_1, crossing, warning_2, advance_2] = track.islands;
    match number {
        0 => going_away(warning_1),
        1 => crossing.occupied && !approaching(advance_1),
        3 => crossing.occupied && !approaching(advance_2),
        4 => going_away(warning_2),
        _ => false,
    }
}

// The island as a report that it is occupied leaves it.
#[tactic(auto, unfolding(rules::specs::Reports::occupied_now))]
pub fn occupied_now(track: Track, number: u8) -> Island
    ensures { result ≡ occupied_now track number }
{
    Island {
        occupied: true,
        leaving: leaving_mark(track, number),
        age: 0,
        ..island_at(track, number)
    }
}

// The island as a report that it is free leaves it.
#[tactic(auto, unfolding(rules::specs::Reports::free_now))]
pub fn free_now(track: Track, number: u8) -> Island
    ensures { result ≡ free_now track number }
{
    Island {
        failed: island_at(track, number).failed,
        ..FREE
    }
}

// The island with its detector failed or restored.
#[tactic(auto, unfolding(rules::specs::Reports::detector_now))]
pub fn detector_now(failed: bool, track: Track, number: u8) -> Island
    ensures { result ≡ detector_now failed track number }
{
    Island {
        failed,
        ..island_at(track, number)
    }
}

// The track with another island at a number; past the last one, the track as it is.
#[tactic(auto, using(std::proofs::lemmas::List::set_past), unfolding(rules::specs::Reports::with_island))]
pub fn with_island(mut track: Track, number: u8, island: Island) -> Track
    ensures { result ≡ with_island track number island }
{
    let at = usize::from(number);
    if at < track.islands.len() {
        track.islands[at] = island;
    }
    track
}
