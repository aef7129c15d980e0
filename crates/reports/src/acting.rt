// Document 01, "Reports": what an accepted report does.
ghost use Rattle.std.specs.Prelude.{◌≡◌};
ghost use Rattle.reports.specs.Placed.{track_after};
ghost use Rattle.rules.specs.Kinds.{kind_of};
ghost use Rattle.rules.specs.Reports.{acted, named_track};
ghost use Rattle.rules.specs.Station.{with_condition, with_track};

use crate::known::Known;
use rules::{Kind, Station, Track};

impl Known {
    // The station becomes the one after the report, where that is accepted.
    #[tactic(auto, unfolding(rules::specs::Reports::acted, crate::specs::Placed::track_after))]
    pub(crate) fn act(self, station: &mut Station)
        ensures { station.new ≡ acted (kind_of self.report.kind) station.old self.report }
    {
        match self.kind {
            Kind::Clock => {
                clock::pass(station, self.report.value);
                return;
            }
            Kind::IslandOccupied | Kind::IslandFree | Kind::DetectorRestored => {
                self.put_named(station);
            }
            Kind::DetectorFailed => {
                self.put_named(station);
                station.fault = true;
            }
            Kind::HeadCondition => self.put_condition(station),
            Kind::Normalise => {
                station.fault = false;
                station.hold = 0;
            }
        }
        station::settle_in(station);
    }

    // The track that the report names becomes what it is after the report.
    #[tactic(auto, using(std::proofs::lemmas::List::set_past), unfolding(rules::specs::Station::with_track, rules::specs::Station::track_at))]
    fn put_named(self, station: &mut Station)
        ensures { station.new ≡ with_track station.old self.report.a (track_after (kind_of self.report.kind) (named_track station.old self.report) self.report) }
    {
        let at = usize::from(self.report.a);
        if let Some(&track) = station.tracks.get(at) {
            station.tracks[at] = self.track_after(track);
        }
    }

    // The head that the report names gets its condition.
    #[tactic(auto, unfolding(rules::specs::Station::with_condition))]
    fn put_condition(self, station: &mut Station)
        ensures { station.new ≡ with_condition station.old self.report.a self.report.value }
    {
        let at = usize::from(self.report.a);
        if at < station.conditions.len() {
            station.conditions[at] = self.report.value;
        }
    }

    // The track after the report; a report that names no island leaves it as it is.
    #[inline(always)]
    #[tactic(auto, unfolding(crate::specs::Placed::track_after))]
    pub(crate) fn track_after(self, track: Track) -> Track
        ensures { result ≡ track_after (kind_of self.report.kind) track self.report }
    {
        let number = self.report.b;
        let island = match self.kind {
            Kind::IslandOccupied => islands::occupied_now(track, number),
            Kind::IslandFree => islands::free_now(track, number),
            Kind::DetectorFailed => islands::detector_now(true, track, number),
            Kind::DetectorRestored => islands::detector_now(false, track, number),
            Kind::Clock | Kind::HeadCondition | Kind::Normalise => return track,
        };
        islands::with_island(track, number, island)
    }
}
