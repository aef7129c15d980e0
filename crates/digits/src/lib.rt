// Numbers that are typed: words of decimal digits.
#![tactic(auto)]

ghost use Rattle.std.specs.Prelude.{◌≡◌};
ghost use Rattle.rules.specs.Answered.{given};
ghost use Rattle.rules.specs.Screen.{our_number};
ghost use Rattle.rules_json.specs.Grammar.{digit};

// The number of ours, 0 to 65,535, that a text of digits stands for.
#[tactic(auto, using(crate::proofs::Counted::readings))]
pub fn number_in(text: &[u8]) -> Option<u16>
    ensures { given result ≡ our_number 65535 text.now }
{
    if text.is_empty() {
        return None;
    }
    let mut number: u16 = 0;
    for &found in text {
        if !is_digit(found) {
            return None;
        }
        number = number
            .checked_mul(10)?
            .checked_add(u16::from(found - b'0'))?;
    }
    Some(number)
}

pub fn is_digit(found: u8) -> bool
    ensures { result ≡ digit found }
{
    found.is_ascii_digit()
}
