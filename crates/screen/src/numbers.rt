// Our numbers bear no sign, fraction or exponent.
ghost use Rattle.std.specs.Prelude.{◌≡◌, drop};
ghost use Rattle.rules.specs.Answered.{given};
ghost use Rattle.screen.specs.Places.{goes_on_with, number_here};

// The number at a place.
#[tactic(auto, using(crate::proofs::Single::numbers))]
pub(crate) fn number(text: &[u8], place: usize) -> Option<u16>
    ensures { given result ≡ number_here (drop place text.now) }
{
    let first = json_reader::octet(text, place);
    if !first.is_ascii_digit() {
        return None;
    }
    // An aspect is one digit, and is read without another look at the text.
    if !goes_on_with(json_reader::octet(text, place + 1)) {
        return Some(u16::from(first - b'0'));
    }
    let past = json_reader::value(text, place, 0)?;
    digits::number_in(&text[place..past])
}

// Whether a number goes on with an octet behind its first digit.
fn goes_on_with(found: u8) -> bool
    ensures { result ≡ goes_on_with found }
{
    matches!(found, b'0'..=b'9' | b'.' | b'e' | b'E')
}
