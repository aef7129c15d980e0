// A station with one thing changed.
ghost use Rattle.std.specs.Prelude.{◌≡◌};
ghost use Rattle.rules.specs.Station.{island_at, track_at, with_condition, with_fault, with_hold, with_track};

use crate::making::free_track;
use rules::{Island, Station, Track};

// The track with this number; past the last one, a free track.
pub fn track_at(station: Station, number: u8) -> Track
    ensures { result ≡ track_at station number }
{
    track_of(&station, number)
}

// The same of a station that is lent: one that is handed over is copied.
#[inline(always)]
#[tactic(auto, unfolding(rules::specs::Station::track_at))]
pub fn track_of(station: &Station, number: u8) -> Track
    ensures { result ≡ track_at station.now number }
{
    let at = usize::from(number);
    station.tracks.get(at).copied().unwrap_or(free_track())
}

// The island with this number on the track with that one; past the last ones, a free island.
#[inline(always)]
#[tactic(auto, using(crate::proofs::ShownLaws::free_there), unfolding(rules::specs::Station::track_at))]
pub fn island_of(station: &Station, track: u8, number: u8) -> Island
    ensures { result ≡ island_at (track_at station.now track) number }
{
    match station.tracks.get(usize::from(track)) {
        Some(found) => match found.islands.get(usize::from(number)) {
            Some(island) => *island,
            None => islands::FREE,
        },
        None => islands::FREE,
    }
}

// For the crates above alone: it trusts the track that it is handed. The station with it at a number;
// past the last one, the station as it is.
#[tactic(auto, unfolding(rules::specs::Station::with_track))]
pub fn with_track(mut station: Station, number: u8, track: Track) -> Station
    ensures { result ≡ with_track station number track }
{
    let at = usize::from(number);
    if at < station.tracks.len() {
        station.tracks[at] = track;
    }
    station
}

// For the crates above alone: it trusts the condition that it is handed. The station with it at a head;
// past the last one, the station as it is.
#[tactic(auto, unfolding(rules::specs::Station::with_condition))]
pub fn with_condition(mut station: Station, head: u8, condition: u16) -> Station
    ensures { result ≡ with_condition station head condition }
{
    let at = usize::from(head);
    if at < station.conditions.len() {
        station.conditions[at] = condition;
    }
    station
}

// For the crates above alone: it trusts the fault that it is handed.
pub fn with_fault(station: Station, fault: bool) -> Station
    ensures { result ≡ with_fault station fault }
{
    Station { fault, ..station }
}

// For the crates above alone: it trusts the hold that it is handed.
pub fn with_hold(station: Station, hold: u16) -> Station
    ensures { result ≡ with_hold station hold }
{
    Station { hold, ..station }
}
