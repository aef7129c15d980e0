// Document 01, "What the station is": the settings' limits.
ghost use Rattle.std.specs.Prelude.{◌≡◌, min};
ghost use Rattle.rules.specs.Station.{within_limits};

use rules::Settings;

// Whether every setting is within its limits. No u16 is above 65,535.
pub fn within_limits(settings: Settings) -> bool
    ensures { result ≡ within_limits settings }
{
    (1..=4).contains(&settings.tracks)
        & (1 <= settings.t1)
        & (1 <= settings.t2)
        & (1 <= settings.t3)
        & (1 <= settings.t5)
        & (settings.t2 < settings.t5)
}

// How many tracks there are to go through: a number above four names no more than four.
pub fn live_tracks(tracks: u8) -> usize
    ensures { result ≡ min tracks 4 }
{
    usize::from(tracks).min(4)
}
