// Section 7: a character of a string, in UTF-8 or behind an escape.
ghost use Rattle.std.specs.Prelude.{not, ◌≡◌, ◌<◌, drop, eqb, length};
ghost use Rattle.rules_json.specs.Reader.{past};
ghost use Rattle.rules_json.specs.Grammar.{escaped, hexdig};
ghost use Rattle.rules_json.specs.Reader.{at as octet_at, char_size, escape_size, second as may_be_second, tail as is_tail, utf8_size};

use crate::octets::octet;

// Past the character at a place.
#[tactic(auto, using(crate::proofs::CharacterSizes::characters))]
pub(crate) fn character(text: &[u8], at: usize) -> Option<usize>
    requires { at < length text.now }
    ensures { result ≡ past at (char_size (drop at text.now)) }
{
    match text[at] {
        b'"' | ..0x20 => None,
        b'\\' => escape(text, at),
        first => encoded(text, at, first),
    }
}

// escape ( %x22 / %x5C / %x2F / %x62 / %x66 / %x6E / %x72 / %x74 / %x75 4HEXDIG )
#[tactic(auto, using(crate::proofs::CharacterSizes::escapes))]
fn escape(text: &[u8], at: usize) -> Option<usize>
    requires { at < length text.now }
    ensures { result ≡ past at (escape_size (drop at text.now)) }
{
    match octet(text, at + 1) {
        b'u' => {
            // So that the four octets below need no test of their own.
            if text.len() - at < 6 {
                return None;
            }
            let four = text[at + 2].is_ascii_hexdigit()
                & text[at + 3].is_ascii_hexdigit()
                & text[at + 4].is_ascii_hexdigit()
                & text[at + 5].is_ascii_hexdigit();
            four.then_some(at + 6)
        }
        letter => is_escaped(letter).then_some(at + 2),
    }
}

// Whether a letter stands for a character behind an escape.
fn is_escaped(letter: u8) -> bool
    ensures { result ≡ not (eqb (escaped letter) 0) }
{
    matches!(
        letter,
        b'"' | b'\\' | b'/' | b'b' | b'f' | b'n' | b'r' | b't'
    )
}

// The octets of a character by RFC 3629, section 4.
#[tactic(auto, using(crate::proofs::CharacterSizes::encodings))]
fn encoded(text: &[u8], at: usize, first: u8) -> Option<usize>
    requires at_in_bounds { at < length text.now }
    requires first_value { first ≡ octet_at text.now at }
    ensures { result ≡ past at (utf8_size (drop at text.now)) }
{
    match first {
        0x00..=0x7F => Some(at + 1),
        0xC2..=0xDF => tail(octet(text, at + 1)).then_some(at + 2),
        0xE0..=0xEF => {
            let good = second(first, octet(text, at + 1)) & tail(octet(text, at + 2));
            good.then_some(at + 3)
        }
        0xF0..=0xF4 => {
            let good = second(first, octet(text, at + 1))
                & tail(octet(text, at + 2))
                & tail(octet(text, at + 3));
            good.then_some(at + 4)
        }
        _ => None,
    }
}

// UTF8-tail = %x80-BF
fn tail(found: u8) -> bool
    ensures { result ≡ is_tail found }
{
    matches!(found, 0x80..=0xBF)
}

// The second octet of three or four: not every one is there behind E0, ED, F0 and F4.
fn second(first: u8, found: u8) -> bool
    ensures { result ≡ may_be_second first found }
{
    match first {
        0xE0 => matches!(found, 0xA0..=0xBF),
        0xED => matches!(found, 0x80..=0x9F),
        0xF0 => matches!(found, 0x90..=0xBF),
        0xF4 => matches!(found, 0x80..=0x8F),
        _ => tail(found),
    }
}
