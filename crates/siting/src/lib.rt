// Document 01, "Siting", with request 5 of document 02: how far from the crossing the detectors stand.
#![tactic(auto)]

ghost use Rattle.std.specs.Prelude.{◌≡◌, ◌≤◌};
ghost use Rattle.rules.specs.Answered.{sited_in};
ghost use Rattle.rules.specs.Siting.{advance_sited, rounded_up, speed_good, warning_sited};

use rules::{Decimetres, Refusal, Seconds};

// The advance distance, for a speed in km/h and the time that the message takes.
#[tactic(auto, using(crate::proofs::Limits::limits), unfolding(rules::specs::Siting::advance_sited))]
pub fn advance(speed: u16, message: Seconds) -> Result<Decimetres, Refusal>
    ensures { sited_in result ≡ advance_sited speed message }
{
    let seconds = u16::from(message);
    if is_good_speed(speed) && seconds <= 60 {
        Ok(found(50 * u32::from(speed) * (30 + u32::from(seconds))))
    } else {
        Err(Refusal::OutsideLimits)
    }
}

// The warning distance, for a speed in km/h and the number of tracks to cross.
#[tactic(auto, using(crate::proofs::Limits::limits), unfolding(rules::specs::Siting::warning_sited))]
pub fn warning(speed: u16, tracks: u8) -> Result<Decimetres, Refusal>
    ensures { sited_in result ≡ warning_sited speed tracks }
{
    if is_good_speed(speed) && (1..=4).contains(&tracks) {
        Ok(found(50 * u32::from(speed) * 7 * u32::from(tracks)))
    } else {
        Err(Refusal::OutsideLimits)
    }
}

// In km/h.
fn is_good_speed(speed: u16) -> bool
    ensures { result ≡ speed_good speed }
{
    (1..=350).contains(&speed)
}

// A number of eighteenths of a decimetre, rounded up once. The greatest is 50 · 350 · 90, and the greatest distance
// 87,500 decimetres, which sixteen bits do not hold.
fn found(eighteenths: u32) -> Decimetres
    requires { eighteenths ≤ 1575000 }
    ensures { result ≡ record { 0 = rounded_up eighteenths 18 } }
{
    Decimetres::from(eighteenths.div_ceil(18))
}
