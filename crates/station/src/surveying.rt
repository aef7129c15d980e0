// Document 01, "From islands to aspect": the signs of the tracks below the station's number.
ghost use Rattle.std.specs.Prelude.{◌≡◌, ◌+◌, ◌^◌, ◌<◌, ◌||◌};
ghost use Rattle.rules.specs.Answered.{aspect_number};
ghost use Rattle.rules.specs.Reports.{hold_set};
ghost use Rattle.rules.specs.Station.{live, obstructed};
ghost use Rattle.rules.specs.Words.{◌if◌then◌};
ghost use Rattle.station.specs.Survey.{risky, survey_of, with_signs};

use crate::showing::settle_in;
use islands::Signs;
use rules::{Aspect, Station, Track};

// The tracks' signs together, and how many tracks count for the greatest risk.
#[derive(Clone, Copy, Default)]
pub(crate) struct Survey {
    pub fresh: bool,
    pub present: usize,
    pub near: bool,
    pub ahead: bool,
    pub held: bool,
}

impl Survey {
    // With the signs of one track more. They are all there: `|`, which does not jump.
    fn with(self, signs: Signs) -> Self
        requires { self.present + 1 < 2 ^ 64 }
        ensures { result ≡ with_signs self signs }
    {
        Self {
            fresh: self.fresh | signs.fresh,
            present: self.present + usize::from(signs.present),
            near: self.near | signs.near,
            ahead: self.ahead | signs.ahead,
            held: self.held | signs.held,
        }
    }

    // The greatest-risk condition.
    pub(crate) fn greatest_risk(self) -> bool
        ensures { result ≡ risky self }
    {
        self.fresh && 2 <= self.present
    }

    // The lines of the rule after the first, in their order.
    #[tactic(auto, using(chains::proofs::Chains::in_order))]
    pub(crate) fn aspect(self, holding: bool) -> Aspect
        ensures { aspect_number result ≡ (3 if risky self || holding then 2 if self.near then 1 if self.ahead then 4 if self.held then 0) }
    {
        if self.greatest_risk() || holding {
            Aspect::GreatestRisk
        } else if self.near {
            Aspect::Forbidden
        } else if self.ahead {
            Aspect::Clearing
        } else if self.held {
            Aspect::Surroundings
        } else {
            Aspect::Permitted
        }
    }
}

// The tracks below the station's number.
pub(crate) fn live(station: &Station) -> &[Track]
    ensures { result.now ≡ live station.now }
{
    let tracks: &[Track] = &station.tracks;
    let number = usize::from(station.settings.tracks);
    tracks.get(..number).unwrap_or(tracks)
}

// Each of them is looked at once.
#[inline(always)]
#[tactic(auto, using(crate::proofs::Surveys::one_more), unfolding(crate::specs::Survey::survey_of))]
pub(crate) fn look_over(station: &Station) -> Survey
    ensures { result ≡ survey_of station.now.settings (live station.now) }
{
    let tracks = live(station);
    let mut seen = Survey::default();
    for track in tracks {
        seen = seen.with(islands::signs_of(station.settings, *track));
    }
    seen
}

// The station after a tick or an accepted report: with the hold set, if the greatest-risk condition
// is then true.
pub fn hold_set(mut station: Station) -> Station
    ensures { result ≡ hold_set station }
{
    settle_in(&mut station);
    station
}

// Whether any island is occupied or any detector has failed.
pub fn is_obstructed(station: Station) -> bool
    ensures { result ≡ obstructed station }
{
    obstructed(&station)
}

// The same of a station that is lent: one that is handed over is copied.
#[tactic(auto, unfolding(rules::specs::Station::obstructed))]
pub fn obstructed(station: &Station) -> bool
    ensures { result ≡ obstructed station.now }
{
    live(station).iter().any(|track| islands::some_occupied(*track) || islands::some_failed(*track))
}
