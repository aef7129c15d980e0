// What comes back from the information desk.
ghost use Rattle.std.specs.Prelude.{◌≡◌};
ghost use Rattle.rules.specs.Answered.{received_in};
ghost use Rattle.rules.specs.Screen.{ours, received};
ghost use Rattle.screen.specs.Places.{Places, message_given};

use crate::members::{OurPlaces, outermost};
use crate::numbers::number;
use crate::tracks::tracks;
use json_reader::blanks;
use rules::{Aspect, Message, Refusal};

// "at most 4,096 bytes"
const LONGEST: usize = 4096;

// The message that a text holds, with whatever members and blanks were added to it.
pub fn read(text: &[u8]) -> Result<Message, Refusal>
    ensures { received_in result ≡ received text.now }
{
    if LONGEST < text.len() {
        return Err(Refusal::NotJson);
    }
    let found = outermost(text, blanks(text, 0)).ok_or(Refusal::NotJson)?;
    if blanks(text, found.past) != text.len() {
        return Err(Refusal::NotJson);
    }
    gathered(text, found.ours).ok_or(Refusal::BadMember)
}

// The message of a text that has been taken, by the places of our members.
fn gathered(text: &[u8], places: OurPlaces) -> Option<Message>
    requires { Places text.now (ours text.now) places }
    ensures { result ≡ message_given (ours text.now) }
{
    let station = number(text, places.station?)?;
    let aspect = u8::try_from(number(text, places.aspect?)?).ok()?;
    let aspect = Aspect::try_from(aspect).ok()?;
    let shown = tracks(text, places.tracks?)?;
    Some(Message {
        station,
        aspect: aspect.into(),
        tracks: shown.count,
        digits: shown.digits,
    })
}
