// What a station shows: its aspect, both heads, its zone digits and its tracks' presence.
ghost use Rattle.std.specs.Prelude.{◌≡◌, ◌&&◌, ◌||◌, ◌<◌, not, cond, [], ◌∷◌, map, ltb, get_or};
ghost use Rattle.rules.specs.Answered.{aspect_number};
ghost use Rattle.rules.specs.Aspect.{aspect_of, presence_of, present};
ghost use Rattle.rules.specs.Heads.{heads_of};
ghost use Rattle.rules.specs.Printer.{zones_of};
ghost use Rattle.rules.specs.Reports.{hold_set};
ghost use Rattle.rules.specs.Station.{island_at, track_at, within_limits};
ghost use Rattle.station.specs.Settled.{settled_in, settled_of};

use crate::Settled;
use crate::surveying::{live, look_over};
use rules::{Aspect, HeadOutputs, Island, Station, Track, TrackPresence, ZoneDigits};
use std::array;

// The aspect. A station whose settings are outside their limits is out of service.
pub fn aspect(station: Station) -> Aspect
    ensures { aspect_number result ≡ aspect_of station }
{
    shown(&station)
}

// The same of a station that is lent: one that is handed over is copied.
#[tactic(auto, using(chains::proofs::Chains::in_order), unfolding(rules::specs::Aspect::aspect_of, rules::specs::Aspect::greatest_risk, crate::specs::Survey::survey_of))]
pub fn shown(station: &Station) -> Aspect
    ensures { aspect_number result ≡ aspect_of station.now }
{
    if is_out_of_service(station) {
        return Aspect::OutOfService;
    }
    // told before the tracks are looked over
    if 0 < station.hold {
        return Aspect::GreatestRisk;
    }
    look_over(station).aspect(false)
}

// The hold of a station after an accepted report, and the aspect that it then shows. The tracks are
// looked over once for both.
#[tactic(auto, unfolding(crate::specs::Settled::settled_of))]
pub fn settle(mut station: Station) -> Settled
    ensures { settled_in result ≡ settled_of station }
{
    let aspect = settle_in(&mut station);
    Settled {
        hold: station.hold,
        aspect,
    }
}

// The same where the station stands: the hold is set there.
#[tactic(auto, using(chains::proofs::Chains::in_order), unfolding(rules::specs::Reports::hold_set, rules::specs::Aspect::aspect_of, rules::specs::Aspect::greatest_risk, crate::specs::Survey::survey_of))]
pub fn settle_in(station: &mut Station) -> Aspect
    ensures value { aspect_number result ≡ aspect_of (hold_set station.old) }
    ensures station_after { station.new ≡ hold_set station.old }
{
    let seen = look_over(station);
    let hold = islands::held_up(seen.greatest_risk(), station.settings.t4, station.hold);
    station.hold = hold;
    if is_out_of_service(station) {
        Aspect::OutOfService
    } else {
        seen.aspect(0 < hold)
    }
}

fn is_out_of_service(station: &Station) -> bool
    ensures { result ≡ (not (within_limits station.now.settings) || station.now.fault) }
{
    !islands::within_limits(station.settings) || station.fault
}

// What each head shows.
#[tactic(auto, unfolding(rules::specs::Heads::heads_of))]
pub fn heads(station: Station) -> HeadOutputs
    ensures { result ≡ heads_of station }
{
    let outputs = signal::outputs(shown(&station).into());
    station
        .conditions
        .map(|condition| signal::head(outputs, condition))
}

// The five zone digits in island order: 0 where any track occupies it, else 1.
pub fn zones(station: Station) -> ZoneDigits
    ensures { result ≡ zones_of station }
{
    zone_digits(&station)
}

// A station that is handed over is copied where this is not a call of its own.
#[inline(never)]
#[tactic(auto, using(crate::proofs::EachZone::one_zone_more), unfolding(rules::specs::Printer::zones_of))]
fn zone_digits(station: &Station) -> ZoneDigits
    ensures { result ≡ zones_of station.now }
{
    if !islands::within_limits(station.settings) {
        return [0; 5];
    }
    let mut digits = [1; 5];
    for track in live(station) {
        let next = with_zones(digits, *track);
        digits = next;
    }
    digits
}

// These digits, and those of one track more. Each track is looked at once.
fn with_zones(digits: ZoneDigits, track: Track) -> ZoneDigits
    ensures { result ≡ map (λ k. cond (island_at track k).occupied 0 (get_or digits k 1)) (0 ∷ 1 ∷ 2 ∷ 3 ∷ 4 ∷ []) }
{
    let [advance_1, warning_1, crossing, warning_2, advance_2] = track.islands;
    let [digit_1, digit_2, digit_3, digit_4, digit_5] = digits;
    [
        zone_digit(advance_1, digit_1),
        zone_digit(warning_1, digit_2),
        zone_digit(crossing, digit_3),
        zone_digit(warning_2, digit_4),
        zone_digit(advance_2, digit_5),
    ]
}

fn zone_digit(island: Island, digit: u8) -> u8
    ensures { result ≡ cond island.occupied 0 digit }
{
    if island.occupied { 0 } else { digit }
}

// Which tracks count for the greatest risk.
#[tactic(auto, unfolding(rules::specs::Aspect::presence_of))]
pub fn presence(station: Station) -> TrackPresence
    ensures { result ≡ presence_of station }
{
    if !islands::within_limits(station.settings) {
        return [true; 4];
    }
    array::from_fn(|at| is_present(&station, at))
}

#[tactic(auto, unfolding(islands::specs::Signs::signs_of, rules::specs::Station::track_at))]
fn is_present(station: &Station, at: usize) -> bool
    requires { at < 4 }
    ensures { result ≡ (ltb at station.now.settings.tracks && present station.now.settings (track_at station.now at)) }
{
    let signs = islands::signs_of(station.settings, station.tracks[at]);
    at < usize::from(station.settings.tracks) && signs.present
}
