// The text of a message.
ghost use Rattle.std.specs.Prelude.{not, true, ◌≡◌, ◌≤◌, IfOk, IfSome, eqb, ltb, length};
ghost use Rattle.io.specs.Counts.{IsPrefixLen};
ghost use Rattle.rules.specs.Answered.{written_in};
ghost use Rattle.rules.specs.Printer.{length_where_it_fits, written as written_at_start, zero_or_one};
ghost use Rattle.rules.specs.Screen.{after_writing, message_fits, written, written_of};
ghost use Rattle.rules.specs.Words.{any};
ghost use Rattle.screen.specs.Texts.{track_text, track_texts};

use rules::{Message, Refusal, TrackDigits};
use text::{Decimal, in_a_row};

const GREATEST_ASPECT: u8 = 5;

// The octets of a track in the text: what stands before it, its brackets, five digits and four commas.
const TRACK: usize = 12;

// Writes the text at the start of the buffer, answers its length, and touches no byte past it. Where the
// message is outside its ranges or the text does not fit, nothing is written. (That the length counts bytes of
// the buffer follows from the rest; it is said so that a caller's &buffer[..length] needs no proof.)
pub fn write(message: Message, buffer: &mut [u8]) -> Result<usize, Refusal>
    ensures value { written_in result ≡ written_of message (length buffer.old) }
    ensures buffer_after { buffer.new ≡ after_writing message buffer.old }
    ensures prefix_len { IfOk result (λ n. IsPrefixLen n buffer.new) }
{
    if !fits(message) {
        return Err(Refusal::BadMember);
    }
    write_text(message, buffer).ok_or(Refusal::NoRoom)
}

// Whether every member is within its range. No u16 is above 65,535.
#[tactic(auto, using(std::proofs::lemmas::Bool::Decides::nat_tests), unfolding(rules::specs::Screen::message_fits))]
fn fits(message: Message) -> bool
    ensures { result ≡ message_fits message }
{
    if GREATEST_ASPECT < message.aspect || !(1..=4).contains(&message.tracks) {
        return false;
    }
    let digits = message.digits;
    let (shown, rest) = digits.split_at(5 * usize::from(message.tracks));
    !some_above(1, shown) && !some_above(0, rest)
}

// (By |, and each digit is looked at: an any asks again behind each of them whether it is done.)
fn some_above(most: u8, digits: &[u8]) -> bool
    ensures { result ≡ any (ltb most) digits.now }
{
    digits
        .iter()
        .fold(false, |found, digit| found | (most < *digit))
}

// Writes the text of a message that is within its ranges, and answers its length. Where it does not fit there
// is no answer, and nothing is written.
fn write_text(message: Message, buffer: &mut [u8]) -> Option<usize>
    requires { message_fits message ≡ true }
    ensures value { result ≡ length_where_it_fits (written message) buffer.old }
    ensures out_after { buffer.new ≡ written_at_start (written message) buffer.old }
    ensures prefix_len { IfSome result (λ n. IsPrefixLen n buffer.new) }
{
    let station = Decimal::of(message.station.into());
    let aspect = [b'0' + message.aspect];
    let tracks = track_texts(message.digits);
    let end = TRACK * usize::from(message.tracks);
    in_a_row(
        buffer,
        &[
            b"{\"station\":",
            station.as_slice(),
            b",\"aspect\":",
            &aspect,
            b",\"tracks\":",
            &tracks[..end],
            b"]}",
        ],
    )
}

// Four tracks, one after the other, whether there or not.
fn track_texts(digits: TrackDigits) -> [u8; 48]
    ensures { result ≡ track_texts digits }
{
    let first = track_text(b'[', &digits[..5]);
    let second = track_text(b',', &digits[5..10]);
    let third = track_text(b',', &digits[10..15]);
    let fourth = track_text(b',', &digits[15..]);
    let mut texts = [0; 48];
    in_a_row(&mut texts, &[&first, &second, &third, &fourth]);
    texts
}

// What stands before a track, and its list of digits.
fn track_text(before: u8, five: &[u8]) -> [u8; 12]
    requires { length five.now ≡ 5 }
    ensures { result ≡ track_text before five.now }
{
    [
        before,
        b'[',
        digit(five[0]),
        b',',
        digit(five[1]),
        b',',
        digit(five[2]),
        b',',
        digit(five[3]),
        b',',
        digit(five[4]),
        b']',
    ]
}

fn digit(number: u8) -> u8
    ensures { result ≡ zero_or_one (not (eqb number 0)) }
{
    b'0' + u8::from(number != 0)
}
