// Document 01, "Reports": the clock.
//
// Between reports only ages change, so the signs of a track turn at ticks that can be told beforehand. A
// clock report looks at each island once to tell them, walks its ticks one by one with the hold alone,
// and then sets the ages.
ghost use Rattle.std.specs.Prelude.{◌≡◌};
ghost use Rattle.rules.specs.Reports.{ticks};

use crate::ageing::grow_older;
use crate::holding::hold_after;
use crate::timing::timetable_of;
use rules::{Station, Track};

// The station n single ticks later. Tracks beyond its number stay as they are.
pub fn ticks(mut station: Station, n: u16) -> Station
    ensures { result ≡ ticks n station }
{
    pass(&mut station, n);
    station
}

// The same where the station stands.
#[tactic(auto, using(crate::proofs::ByTimetable::ticks_made))]
pub fn pass(station: &mut Station, n: u16)
    ensures { station.new ≡ ticks n station.old }
{
    let settings = station.settings;
    let live = islands::live_tracks(settings.tracks);
    let tracks: &[Track] = &station.tracks;
    let table = timetable_of(settings, &tracks[..live]);
    grow_older(&mut station.tracks[..live], n);
    station.hold = hold_after(table, settings.t4, station.hold, n);
    station.fault = table.fault_after(station.fault, n);
}
