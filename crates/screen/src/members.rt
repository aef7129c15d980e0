// One pass over the outermost object, which remembers where our values begin.
ghost use Rattle.std.specs.Prelude.{◌≡◌, drop};
ghost use Rattle.rules_json.specs.Reader.{at as octet_at, string_size, string_units};
ghost use Rattle.screen.specs.Places.{Outermost, with_member};

use crate::names::says;
use json_reader::{After, behind_member, blanks, member_name, octet, value};

// Where the first value of each of our names begins.
#[derive(Clone, Copy, Default)]
pub(crate) struct OurPlaces {
    pub station: Option<usize>,
    pub aspect: Option<usize>,
    pub tracks: Option<usize>,
}

// The place past the outermost value, and our members' places in it.
#[derive(Clone, Copy)]
pub(crate) struct Found {
    pub past: usize,
    pub ours: OurPlaces,
}

// "lists and objects stand at most 8 deep"
const DEEPEST: u8 = 8;

// Of the value at a place.
pub(crate) fn outermost(text: &[u8], at: usize) -> Option<Found>
    ensures { Outermost text.now at result }
{
    if octet(text, at) == b'{' {
        return members(text, at);
    }
    let past = value(text, at, DEEPEST)?;
    Some(Found {
        past,
        ours: OurPlaces::default(),
    })
}

// Of the object whose first octet is at a place.
fn members(text: &[u8], at: usize) -> Option<Found>
    requires { octet_at text.now at ≡ 0x7B }
    ensures { Outermost text.now at result }
{
    let mut ours = OurPlaces::default();
    let mut place = blanks(text, at + 1);
    if octet(text, place) == b'}' {
        return Some(Found {
            past: place + 1,
            ours,
        });
    }
    while place < text.len() {
        let inner = member_name(text, place)?;
        let past = value(text, inner, DEEPEST - 1)?;
        ours = with_member(ours, text, place, inner);
        match behind_member(text, past)? {
            After::Item(next) => place = next.place,
            After::End(end) => return Some(Found { past: end, ours }),
        }
    }
    None
}

// After one more member: the string at a place is its name, and its value begins at another.
#[tactic(auto, unfolding(crate::specs::Places::with_member))]
fn with_member(ours: OurPlaces, text: &[u8], at: usize, value: usize) -> OurPlaces
    requires { string_size (drop at text.now) ≡ 0 → ⊥ }
    ensures { result ≡ with_member ours (string_units (drop at text.now)) value }
{
    let OurPlaces {
        station,
        aspect,
        tracks,
    } = ours;
    OurPlaces {
        station: station.or_else(|| says(text, at, b"station").then_some(value)),
        aspect: aspect.or_else(|| says(text, at, b"aspect").then_some(value)),
        tracks: tracks.or_else(|| says(text, at, b"tracks").then_some(value)),
    }
}
