// When a track's signs turn: the clock looks at a track's islands once for a report of any number of
// ticks.
ghost use Rattle.std.specs.Prelude.{◌≡◌};
ghost use Rattle.clock.specs.Turns.{together, turns_in, turns_of};

use rules::{Island, Settings, Track};

// Later than any clock report reaches: a number beyond all ticks. An enum of a tick and never would be
// ordered rightly too, but turns are joined by `min` and `max`, which of numbers take one comparison.
pub(crate) const NEVER: u32 = 65536;

// When signs turn, in ticks from now: of a track, it has a fresh approaching island until the first,
// counts for the greatest risk from the second on, and latches the fault from the third on.
#[derive(Clone, Copy)]
pub(crate) struct Turns {
    pub fresh: u32,
    pub present: u32,
    pub late: u32,
}

impl Turns {
    // The turns of a free island: none.
    const NONE: Self = Self {
        fresh: 0,
        present: NEVER,
        late: NEVER,
    };

    // The turns of two islands, or groups of islands, together.
    fn join(self, other: Self) -> Self
        ensures { result ≡ together self other }
    {
        Self {
            fresh: self.fresh.max(other.fresh),
            present: self.present.min(other.present),
            late: self.late.min(other.late),
        }
    }
}

// The turns of a track.
#[tactic(auto, using(crate::proofs::Turned::turns_of_seen))]
pub(crate) fn turns_of(settings: Settings, track: Track) -> Turns
    ensures { result ≡ turns_of settings track }
{
    let Settings { t1, t2, t3, t5, .. } = settings;
    let [advance_1, warning_1, crossing, warning_2, advance_2] = track.islands;
    turn(t1, t5, false, advance_1)
        .join(turn(t2, t5, true, warning_1))
        .join(turn(t3, t5, false, crossing))
        .join(turn(t2, t5, true, warning_2))
        .join(turn(t1, t5, false, advance_2))
}

// Most islands are free, and never turn.
fn turn(timer: u16, t5: u16, warning: bool, island: Island) -> Turns
    ensures { result ≡ turns_in timer t5 warning island }
{
    if !island.occupied {
        return Turns::NONE;
    }
    let held = u32::from(timer.saturating_sub(island.age));
    let late = u32::from(t5.saturating_sub(island.age));
    Turns {
        fresh: if island.leaving { 0 } else { held },
        present: if island.leaving & !warning { held } else { 0 },
        late: if warning { late } else { NEVER },
    }
}
