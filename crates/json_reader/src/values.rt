// Sections 3 to 5: values. The readers of values, lists and objects call each other with the depth left
// and the octets left falling; that they end is shown by the depth alone.
ghost use Rattle.std.specs.Prelude.{true, ◌≡◌, ◌<◌, ◌≤◌, drop, length, ltb};
ghost use Rattle.std.specs.List.{list_all};
ghost use Rattle.json_reader.specs.Places.{behind as item_behind};
ghost use Rattle.rules_json.specs.Reader.{at as octet_at, past as past_read, scalar_size, value_size, word_size};

use crate::numbers::number;
use crate::octets::{Next, octet, past_blanks};
use crate::strings::{member_name, string};

// Past the value at a place, in which lists and objects stand at most so deep, each inside the other.
#[cycle(list_object_value_value_from)]
pub fn value(text: &[u8], at: usize, deep: u8) -> Option<usize>
    ensures { result ≡ past_read at (value_size deep (drop at text.now)) }
{
    let first = Next {
        place: at,
        octet: octet(text, at),
    };
    value_from(text, first, deep)
}

// The same, where the octet at the place is known.
#[cycle(list_object_value_value_from)]
fn value_from(text: &[u8], first: Next, deep: u8) -> Option<usize>
    requires { first.octet ≡ octet_at text.now first.place }
    ensures { result ≡ past_read first.place (value_size deep (drop first.place text.now)) }
{
    match first.octet {
        b'{' => object(text, first.place, deep),
        b'[' => list(text, first.place, deep),
        _ => scalar(text, first),
    }
}

// array = begin-array [ value *( value-separator value ) ] end-array
#[cycle(list_object_value_value_from)]
fn list(text: &[u8], at: usize, deep: u8) -> Option<usize>
    requires { octet_at text.now at ≡ 0x5B }
    ensures { result ≡ past_read at (value_size deep (drop at text.now)) }
{
    let inside = deep.checked_sub(1)?;
    let mut item = past_blanks(text, at + 1);
    if item.octet == b']' {
        return Some(item.place + 1);
    }
    while item.place < text.len() {
        let past = value_from(text, item, inside)?;
        match behind(text, past, b']')? {
            After::Item(next) => item = next,
            After::End(end) => return Some(end),
        }
    }
    None
}

// object = begin-object [ member *( value-separator member ) ] end-object
#[cycle(list_object_value_value_from)]
fn object(text: &[u8], at: usize, deep: u8) -> Option<usize>
    requires { octet_at text.now at ≡ 0x7B }
    ensures { result ≡ past_read at (value_size deep (drop at text.now)) }
{
    let inside = deep.checked_sub(1)?;
    let mut item = past_blanks(text, at + 1);
    if item.octet == b'}' {
        return Some(item.place + 1);
    }
    while item.place < text.len() {
        let inner = member_name(text, item.place)?;
        let past = value(text, inner, inside)?;
        match behind_member(text, past)? {
            After::Item(next) => item = next,
            After::End(end) => return Some(end),
        }
    }
    None
}

// What stands behind an item: a comma and another item, or the closing bracket, past which the list or
// object ends.
#[derive(Clone, Copy)]
pub enum After {
    Item(Next),
    End(usize),
}

// What stands behind an item that ends at a place, blanks in between.
#[tactic(auto, unfolding(crate::specs::Places::behind))]
fn behind(text: &[u8], past: usize, close: u8) -> Option<After>
    requires { 0 < close }
    ensures { result ≡ item_behind text.now past close }
{
    let next = past_blanks(text, past);
    if next.octet == close {
        return Some(After::End(next.place + 1));
    }
    if next.octet == b',' {
        return Some(After::Item(past_blanks(text, next.place + 1)));
    }
    None
}

// What stands behind a member that ends at a place.
pub fn behind_member(text: &[u8], past: usize) -> Option<After>
    ensures { result ≡ item_behind text.now past 0x7D }
{
    behind(text, past, b'}')
}

// Past a string, a literal or a number, by the octet at its place.
#[tactic(auto, using(crate::proofs::Scalars::scalars))]
fn scalar(text: &[u8], first: Next) -> Option<usize>
    requires { first.octet ≡ octet_at text.now first.place }
    ensures { result ≡ past_read first.place (scalar_size (drop first.place text.now)) }
{
    match first.octet {
        b'"' => string(text, first.place),
        b'f' => word(text, first.place, b"false"),
        b'n' => word(text, first.place, b"null"),
        b't' => word(text, first.place, b"true"),
        _ => number(text, first.place),
    }
}

// Past a word, where it stands at a place.
#[tactic(auto, using(crate::proofs::Spelt::word_past))]
fn word(text: &[u8], at: usize, spelt: &[u8]) -> Option<usize>
    requires at_in_bounds { at < length text.now }
    requires spelt_len { (1 ≤ length spelt.now) × (length spelt.now ≤ 5) }
    requires spelt_value { list_all (ltb 0) spelt.now ≡ true }
    ensures { result ≡ past_read at (word_size spelt.now (drop at text.now)) }
{
    text[at..].starts_with(spelt).then_some(at + spelt.len())
}
