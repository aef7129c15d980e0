// Document 01, "Siting", with request 5 of document 02: how far from the crossing the detectors stand.
ghost use Rattle.std.specs.Prelude.{◌≡◌};
ghost use Rattle.rules.specs.Siting.{advance_sited, warning_sited};

use rules::{Seconds, Sited};

// The advance distance, for a speed in km/h and the time that the message takes.
#[unsafe(no_mangle)]
pub extern "C" fn degvuurel_advance(speed: u16, message: Seconds) -> Sited
    ensures { result ≡ advance_sited speed message }
{
    siting::advance(speed, message).into()
}

// The warning distance, for a speed in km/h and the number of tracks to cross.
#[unsafe(no_mangle)]
pub extern "C" fn degvuurel_warning(speed: u16, tracks: u8) -> Sited
    ensures { result ≡ warning_sited speed tracks }
{
    siting::warning(speed, tracks).into()
}
