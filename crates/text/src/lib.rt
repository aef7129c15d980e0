// Texts in buffers: several one after the other in one that the caller lends, and a number's digits in one of
// its own.
#![tactic(auto)]

mod decimal;

ghost use Rattle.std.specs.Prelude.{◌≡◌, IfSome};
ghost use Rattle.std.specs.List.{flat_map};
ghost use Rattle.io.specs.Counts.{IsPrefixLen};
ghost use Rattle.rules.specs.Printer.{length_where_it_fits, written};

pub use decimal::Decimal;

// Writes texts, one after the other, at the start of out, and answers how many bytes they are. Where they do
// not fit there is no answer, and nothing is written. Their lengths are taken off the room one by one: a sum of
// them could wrap. (That the length counts bytes of out follows from the rest; it is said so that a caller's
// &out[..length] needs no proof.)
#[tactic(auto, using(crate::proofs::Placing::fitting))]
pub fn in_a_row(out: &mut [u8], texts: &[&[u8]]) -> Option<usize>
    ensures value { result ≡ length_where_it_fits (flat_map (λ t. t.now) texts.now) out.old }
    ensures out_after { out.new ≡ written (flat_map (λ t. t.now) texts.now) out.old }
    ensures prefix_len { IfSome result (λ n. IsPrefixLen n out.new) }
{
    let mut room = out.len();
    for text in texts {
        room = room.checked_sub(text.len())?;
    }
    let mut at = 0;
    for text in texts {
        out[at..at + text.len()].copy_from_slice(text);
        at += text.len();
    }
    Some(at)
}
