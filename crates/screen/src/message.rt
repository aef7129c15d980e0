// What the information desk is told of a station.
ghost use Rattle.std.specs.Prelude.{true, map, ◌≡◌};
ghost use Rattle.rules.specs.Screen.{message_of, padded, track_digits};
ghost use Rattle.rules.specs.Station.{live, within_limits};
ghost use Rattle.rules_json.specs.Grammar.{joined};

use rules::{Aspect, Message, Station, Track, TrackDigits};

// The message of a station with this number. Of a station whose settings are outside their limits
// it is aspect 5 and four tracks of 0.
pub fn message_of(number: u16, station: Station) -> Message
    ensures { result ≡ message_of number station }
{
    if !islands::within_limits(station.settings) {
        return Message {
            station: number,
            aspect: Aspect::OutOfService.into(),
            tracks: 4,
            digits: [0; 20],
        };
    }
    Message {
        station: number,
        aspect: station::aspect(station).into(),
        tracks: station.settings.tracks,
        digits: digits_of(station),
    }
}

// Five digits for each track, and 0 for each track that is not there.
fn digits_of(station: Station) -> TrackDigits
    requires { within_limits station.settings ≡ true }
    ensures { result ≡ padded (joined (map track_digits (live station))) }
{
    let live = &station.tracks[..usize::from(station.settings.tracks)];
    let mut digits = [0; 20];
    for (n, track) in live.iter().enumerate() {
        digits[5 * n..5 * n + 5].copy_from_slice(&track_digits(*track));
    }
    digits
}

// 0 where the island is occupied, else 1, in island order.
fn track_digits(track: Track) -> [u8; 5]
    ensures { result ≡ track_digits track }
{
    track.islands.map(|island| u8::from(!island.occupied))
}
