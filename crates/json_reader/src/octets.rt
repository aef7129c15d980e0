// Octets one by one, and runs of them.
ghost use Rattle.std.specs.Prelude.{◌≡◌, ◌+◌, drop};
ghost use Rattle.json_reader.specs.Places.{next_from};
ghost use Rattle.rules_json.specs.Grammar.{blank};
ghost use Rattle.rules_json.specs.Reader.{at, blanks as blanks_at_head, digits as digits_at_head, past};

// An octet and its place.
#[derive(Clone, Copy)]
pub struct Next {
    pub place: usize,
    pub octet: u8,
}

// The octet at a place: past the end it is 0, which no rule takes.
pub fn octet(text: &[u8], place: usize) -> u8
    ensures { result ≡ at text.now place }
{
    text.get(place).copied().unwrap_or(0)
}

// Past the blanks at a place.
pub fn blanks(text: &[u8], place: usize) -> usize
    ensures { result ≡ place + blanks_at_head (drop place text.now) }
{
    past_blanks(text, place).place
}

// The same, with the octet that stands there: 0 at the end of the text.
pub(crate) fn past_blanks(text: &[u8], place: usize) -> Next
    ensures { result ≡ next_from text.now place }
{
    let mut past = place;
    while is_blank(octet(text, past)) {
        past += 1;
    }
    Next {
        place: past,
        octet: octet(text, past),
    }
}

// Space, horizontal tab, line feed, carriage return. (By |: the four are then one test of a bit.)
fn is_blank(octet: u8) -> bool
    ensures { result ≡ blank octet }
{
    (octet == b' ') | (octet == b'\t') | (octet == b'\n') | (octet == b'\r')
}

// Past the digits at a place. (By places: an iterator that skips to the place takes each step to it.)
pub(crate) fn digits(text: &[u8], place: usize) -> Option<usize>
    ensures { result ≡ past place (digits_at_head (drop place text.now)) }
{
    for end in place..text.len() {
        if !text[end].is_ascii_digit() {
            return (end != place).then_some(end);
        }
    }
    (place < text.len()).then_some(text.len())
}
