// Names of members, compared after escapes.
ghost use Rattle.std.specs.Prelude.{false, not, true, ◌≡◌, ◌≤◌, drop};
ghost use Rattle.rules.specs.Screen.{same};
ghost use Rattle.rules.specs.Words.{any};
ghost use Rattle.rules_json.specs.Reader.{at as octet_at, past, string_size, string_units};
ghost use Rattle.screen.specs.Letters.{is_letter, letter_size, stands_for};

use json_reader::octet;

// Whether the string at a place says a word of letters. It was read already, so that behind the word
// there is another character or the quotation mark that ends it.
pub(crate) fn says(text: &[u8], at: usize, word: &[u8]) -> bool
    requires string_value { string_size (drop at text.now) ≡ 0 → ⊥ }
    requires word_value { any (λ b. not (is_letter b)) word.now ≡ false }
    ensures { result ≡ same (string_units (drop at text.now)) word.now }
{
    let mut place = at + 1;
    for &letter in word {
        let Some(past) = past_letter(text, place, letter) else {
            return false;
        };
        place = past;
    }
    octet(text, place) == b'"'
}

// Past a letter at a place, as it stands or behind an escape.
#[tactic(auto, using(crate::proofs::Letters::letters))]
fn past_letter(text: &[u8], at: usize, letter: u8) -> Option<usize>
    requires { is_letter letter ≡ true }
    ensures { result ≡ past at (letter_size letter (drop at text.now)) }
{
    let found = octet(text, at);
    // Most letters stand for themselves.
    if found == letter {
        return Some(at + 1);
    }
    if found != b'\\' {
        return None;
    }
    past_escape(text, at, letter)
}

// The same where an escape begins: of all escapes only \u with four hexadecimal digits says a letter.
#[tactic(auto, using(crate::proofs::Letters::escapes))]
fn past_escape(text: &[u8], at: usize, letter: u8) -> Option<usize>
    requires letter_value { is_letter letter ≡ true }
    requires text_value { octet_at text.now at ≡ 0x5C }
    ensures { result ≡ past at (letter_size letter (drop at text.now)) }
{
    let says_letter = octet(text, at + 1) == b'u'
        && octet(text, at + 2) == b'0'
        && octet(text, at + 3) == b'0'
        && stands_for(octet(text, at + 4), letter / 16)
        && stands_for(octet(text, at + 5), letter % 16);
    says_letter.then_some(at + 6)
}

// Whether an octet is the hexadecimal digit of a number below 16.
fn stands_for(found: u8, number: u8) -> bool
    requires { number ≤ 15 }
    ensures { result ≡ stands_for found number }
{
    if number < 10 {
        return found == b'0' + number;
    }
    (found == b'A' + (number - 10)) | (found == b'a' + (number - 10))
}
