// Section 6: number = [ minus ] int [ frac ] [ exp ].
ghost use Rattle.std.specs.Prelude.{◌≡◌, ◌+◌, drop};
ghost use Rattle.rules_json.specs.Reader.{exp_size, frac_size, int_size, minus_size, number_size, past, sign_size};

use crate::octets::{digits, octet};

#[tactic(auto, using(crate::proofs::NumberSizes::no_number, crate::proofs::NumberSizes::some_number))]
pub(crate) fn number(text: &[u8], at: usize) -> Option<usize>
    ensures { result ≡ past at (number_size (drop at text.now)) }
{
    let whole = minus(text, at);
    let past_whole = int(text, whole)?;
    let past_frac = frac(text, past_whole).unwrap_or(past_whole);
    Some(exp(text, past_frac).unwrap_or(past_frac))
}

// Past the minus at a place, or there where none stands.
fn minus(text: &[u8], at: usize) -> usize
    ensures { result ≡ at + minus_size (drop at text.now) }
{
    if octet(text, at) == b'-' { at + 1 } else { at }
}

// int = zero / ( digit1-9 *DIGIT )
#[tactic(auto, using(crate::proofs::NumberSizes::int_zero, crate::proofs::NumberSizes::int_digits))]
fn int(text: &[u8], at: usize) -> Option<usize>
    ensures { result ≡ past at (int_size (drop at text.now)) }
{
    if octet(text, at) == b'0' {
        return Some(at + 1);
    }
    digits(text, at)
}

// frac = decimal-point 1*DIGIT
#[tactic(auto, using(crate::proofs::NumberSizes::no_frac, crate::proofs::NumberSizes::some_frac))]
fn frac(text: &[u8], at: usize) -> Option<usize>
    ensures { result ≡ past at (frac_size (drop at text.now)) }
{
    if octet(text, at) != b'.' {
        return None;
    }
    digits(text, at + 1)
}

// exp = e [ minus / plus ] 1*DIGIT
#[tactic(auto, using(crate::proofs::NumberSizes::no_exp, crate::proofs::NumberSizes::some_exp))]
fn exp(text: &[u8], at: usize) -> Option<usize>
    ensures { result ≡ past at (exp_size (drop at text.now)) }
{
    if !matches!(octet(text, at), b'e' | b'E') {
        return None;
    }
    digits(text, sign(text, at + 1))
}

// Past the sign at a place, or there where none stands.
fn sign(text: &[u8], at: usize) -> usize
    ensures { result ≡ at + sign_size (drop at text.now) }
{
    if matches!(octet(text, at), b'-' | b'+') {
        at + 1
    } else {
        at
    }
}
