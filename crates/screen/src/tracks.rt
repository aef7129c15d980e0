// A list of one to four lists of five digits.
ghost use Rattle.std.specs.Prelude.{◌≡◌, drop};
ghost use Rattle.rules.specs.Screen.{tracks_of};
ghost use Rattle.rules_json.specs.Reader.{value_said, value_size};
ghost use Rattle.screen.specs.Places.{five_at, shown_of};

use json_reader::{blanks, octet};
use rules::TrackDigits;

// How many tracks, and their digits.
#[derive(Clone, Copy)]
pub(crate) struct Shown {
    pub count: u8,
    pub digits: TrackDigits,
}

// The place past a track, and its digits.
#[derive(Clone, Copy)]
struct Five {
    past: usize,
    digits: [u8; 5],
}

// The tracks at a place of a text that has been taken.
pub(crate) fn tracks(text: &[u8], at: usize) -> Option<Shown>
    requires { value_size 7 (drop at text.now) ≡ 0 → ⊥ }
    ensures { result ≡ shown_of (tracks_of (value_said 7 (drop at text.now))) }
{
    if octet(text, at) != b'[' {
        return None;
    }
    let mut place = blanks(text, at + 1);
    if octet(text, place) == b']' {
        return None;
    }
    let mut digits = [0; 20];
    for count in 0..4 {
        let five = track(text, place)?;
        digits[5 * count..5 * count + 5].copy_from_slice(&five.digits);
        let behind = blanks(text, five.past);
        if octet(text, behind) != b',' {
            return Some(Shown {
                count: count as u8 + 1,
                digits,
            });
        }
        place = blanks(text, behind + 1);
    }
    None
}

// The track at a place.
fn track(text: &[u8], at: usize) -> Option<Five>
    requires { value_size 6 (drop at text.now) ≡ 0 → ⊥ }
    ensures { result ≡ five_at text.now at }
{
    if octet(text, at) != b'[' {
        return None;
    }
    let mut place = blanks(text, at + 1);
    if octet(text, place) == b']' {
        return None;
    }
    let mut digits = [0; 5];
    for count in 0..5 {
        let found = octet(text, place);
        if !matches!(found, b'0' | b'1') {
            return None;
        }
        digits[count] = found - b'0';
        // In a text that has been taken, a comma or a bracket stands behind a number: where another octet
        // stands behind one digit, the number goes on.
        let behind = blanks(text, place + 1);
        let next = octet(text, behind);
        if next == b']' && count == 4 {
            return Some(Five {
                past: behind + 1,
                digits,
            });
        }
        if next != b',' {
            return None;
        }
        place = blanks(text, behind + 1);
    }
    None
}
