// Section 7: string = quotation-mark *char quotation-mark, and the name in front of a member's value.
ghost use Rattle.std.specs.Prelude.{◌≡◌, drop};
ghost use Rattle.rules_json.specs.Reader.{at as octet_at, name_size, past, string_size};

use crate::characters::character;
use crate::octets::{blanks, octet, past_blanks};

// Past the string at a place, which begins with its quotation mark.
#[tactic(auto, using(crate::proofs::Quoted::quotations))]
pub(crate) fn string(text: &[u8], at: usize) -> Option<usize>
    requires { octet_at text.now at ≡ 0x22 }
    ensures { result ≡ past at (string_size (drop at text.now)) }
{
    let mut place = at + 1;
    while place < text.len() {
        place = match text[place] {
            b'"' => return Some(place + 1),
            b'\\' | ..0x20 | 0x80.. => character(text, place)?,
            // Most characters are of ASCII and stand for themselves.
            _ => place + 1,
        };
    }
    None
}

// Past the name at a place, its separator and their blanks: there the member's value begins.
#[tactic(auto, using(crate::proofs::Named::names))]
pub fn member_name(text: &[u8], at: usize) -> Option<usize>
    ensures { result ≡ past at (name_size (drop at text.now)) }
{
    if octet(text, at) != b'"' {
        return None;
    }
    let separator = past_blanks(text, string(text, at)?);
    if separator.octet != b':' {
        return None;
    }
    Some(blanks(text, separator.place + 1))
}
