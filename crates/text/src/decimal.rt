// A number in decimal digits.
ghost use Rattle.std.specs.Prelude.{◌≡◌, ℕ, ◌≤◌, List, take};
ghost use Rattle.rules.specs.Printer.{decimal};

use std::marker::Model;

// The digits, none in front that could be left out, at the start of as many bytes as the longest takes.
#[derive(Drop)]
pub struct Decimal {
    bytes: [u8; 20],
    length: usize,
}

impl Model for Decimal {
    ghost Value = { List ℕ };

    ghost view = { λ d. take d.length d.bytes };

    ghost invariant = { λ d. d.length ≤ 20 };
}

impl Decimal {
    // What io::decimal writes is the number as the definitions have it: proofs/Decimals.
    #[tactic(auto, using(crate::proofs::Decimals::decimal_is))]
    pub fn of(number: u64) -> Self
        ensures { result ≡ decimal number }
    {
        let mut bytes = [0; 20];
        let length = io::decimal(number, &mut bytes);
        Self { bytes, length }
    }

    pub fn as_slice(&self) -> &[u8]
        ensures { result.now ≡ self.now }
    {
        &self.bytes[..self.length]
    }
}
