// When the signs of the tracks turn: the timetable by which a clock report's ticks are walked.
ghost use Rattle.std.specs.Prelude.{◌≡◌, ◌&&◌, ◌||◌, leb, ltb};
ghost use Rattle.clock.specs.Timetable.{Timed, risk_at, with_turns};

use crate::turning::{NEVER, Turns, turns_of};
use rules::{Settings, Track};

// In ticks from now: until when a track has a fresh approaching island, from when one track counts for
// the greatest risk, from when two do, and from when the fault latches.
#[derive(Clone, Copy)]
pub(crate) struct Timetable {
    pub fresh: u32,
    pub first: u32,
    pub second: u32,
    pub late: u32,
}

impl Timetable {
    // The timetable with one more track in it.
    fn with(self, turns: Turns) -> Self
        ensures { result ≡ with_turns self turns }
    {
        Self {
            fresh: self.fresh.max(turns.fresh),
            first: self.first.min(turns.present),
            second: self.second.min(self.first.max(turns.present)),
            late: self.late.min(turns.late),
        }
    }

    // The greatest-risk condition n ticks later.
    pub(crate) fn risk_at(self, n: u16) -> bool
        ensures { result ≡ risk_at self n }
    {
        let tick = u32::from(n);
        (tick < self.fresh) & (self.second <= tick)
    }

    // The fault n ticks later. No tick, no latch.
    pub(crate) fn fault_after(self, fault: bool, n: u16) -> bool
        ensures { result ≡ (fault || (ltb 0 n && leb self.late n)) }
    {
        fault || (0 < n && self.late <= u32::from(n))
    }
}

// The timetable of these tracks. One with no island occupied is passed over.
#[tactic(auto, using(crate::proofs::Timetables::timed_next, crate::proofs::Timetables::timed_skip))]
pub(crate) fn timetable_of(settings: Settings, tracks: &[Track]) -> Timetable
    ensures { Timed settings tracks.now result }
{
    let mut table = Timetable {
        fresh: 0,
        first: NEVER,
        second: NEVER,
        late: NEVER,
    };
    for track in tracks {
        if islands::some_occupied(*track) {
            table = table.with(turns_of(settings, *track));
        }
    }
    table
}
