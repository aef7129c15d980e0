// The hold, tick by tick: the timetable tells beforehand when the condition is true.
ghost use Rattle.std.specs.Prelude.{◌≡◌};
ghost use Rattle.clock.specs.Hold.{hold_after, lowered};
ghost use Rattle.clock.specs.Timetable.{risk_at};

use crate::timing::Timetable;

// The hold n single ticks later.
#[tactic(auto, using(crate::proofs::ByTimetable::hold_more), unfolding(crate::specs::Hold::hold_after))]
pub(crate) fn hold_after(table: Timetable, t4: u16, hold: u16, n: u16) -> u16
    ensures { result ≡ hold_after (risk_at table) t4 hold n }
{
    let mut left = hold;
    let mut risk = table.risk_at(0);
    for i in 0..n {
        left = lowered(risk, left);
        risk = table.risk_at(i + 1);
        left = islands::held_up(risk, t4, left);
    }
    left
}

// If the condition is false and the hold is above 0, it falls by one.
fn lowered(risk: bool, hold: u16) -> u16
    ensures { result ≡ lowered risk hold }
{
    if risk { hold } else { hold.saturating_sub(1) }
}
