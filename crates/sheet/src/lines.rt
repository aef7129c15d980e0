// The lines of document 01, "The matrix printer".
ghost use Rattle.std.specs.Prelude.{◌∷◌, ◌++◌, ◌≡◌, [], IfSome};
ghost use Rattle.io.specs.Counts.{IsPrefixLen};
ghost use Rattle.rules.specs.Printer.{length_where_it_fits, line_feed, output_text, refusal_line, row_line, space, title, written, zone_text};

use rules::{NI, NOT_REPLAYED, R_PLUS, RF, RowFields, S1, S2, S3, S4, VF, VI, ZoneDigits};
use text::{Decimal, in_a_row};

// Writes the title line at the start of out, and answers its length. Where it does not fit there is no
// answer, and nothing is written. (That the length counts bytes of out follows from the rest; it is said so
// that a caller's &out[..length] needs no proof.)
#[tactic(auto, unfolding(rules::specs::Printer::title))]
pub fn title_line(out: &mut [u8]) -> Option<usize>
    ensures value { result ≡ length_where_it_fits title out.old }
    ensures out_after { out.new ≡ written title out.old }
    ensures prefix_len { IfSome result (λ n. IsPrefixLen n out.new) }
{
    in_a_row(out, &[b"entry zones outputs answer\n"])
}

// Writes a row's line, as title_line does.
pub fn row_line(out: &mut [u8], fields: RowFields) -> Option<usize>
    ensures value { result ≡ length_where_it_fits (row_line fields) out.old }
    ensures out_after { out.new ≡ written (row_line fields) out.old }
    ensures prefix_len { IfSome result (λ n. IsPrefixLen n out.new) }
{
    let entry = Decimal::of(fields.entry);
    let zones = zone_column(fields.zones);
    let outputs = output_column(fields.outputs);
    let answer = Decimal::of(fields.answer.into());
    columns(out, entry.as_slice(), &zones, &outputs, answer.as_slice())
}

// Writes four columns and the line feed. (Texts that are parameters here lie apart from the buffer where the
// compiler puts this in its caller's place, so that each is copied at once.)
fn columns(
    out: &mut [u8],
    entry: &[u8],
    zones: &[u8],
    outputs: &[u8],
    answer: &[u8],
) -> Option<usize>
    ensures value { result ≡ length_where_it_fits (entry.now ++ (zones.now ++ (outputs.now ++ (answer.now ++ line_feed)))) out.old }
    ensures out_after { out.new ≡ written (entry.now ++ (zones.now ++ (outputs.now ++ (answer.now ++ line_feed)))) out.old }
    ensures prefix_len { IfSome result (λ n. IsPrefixLen n out.new) }
{
    in_a_row(out, &[entry, zones, outputs, answer, b"\n"])
}

// Writes the one line of a register that cannot be read, as title_line does. The entry is named
// where the answer is 13.
pub fn refusal_line(out: &mut [u8], answer: u8, entry: u64) -> Option<usize>
    ensures value { result ≡ length_where_it_fits (refusal_line answer entry) out.old }
    ensures out_after { out.new ≡ written (refusal_line answer entry) out.old }
    ensures prefix_len { IfSome result (λ n. IsPrefixLen n out.new) }
{
    let number = Decimal::of(answer.into());
    if answer != NOT_REPLAYED {
        return in_a_row(out, &[b"refused ", number.as_slice(), b"\n"]);
    }
    let named = Decimal::of(entry);
    naming(out, number.as_slice(), named.as_slice())
}

// Writes the line of a refusal that names an entry. (Apart, as columns is.)
fn naming(out: &mut [u8], number: &[u8], entry: &[u8]) -> Option<usize>
    ensures value { result ≡ length_where_it_fits ((114 ∷ 101 ∷ 102 ∷ 117 ∷ 115 ∷ 101 ∷ 100 ∷ 32 ∷ []) ++ (number.now ++ ((32 ∷ 97 ∷ 116 ∷ 32 ∷ []) ++ (entry.now ++ line_feed)))) out.old }
    ensures out_after { out.new ≡ written ((114 ∷ 101 ∷ 102 ∷ 117 ∷ 115 ∷ 101 ∷ 100 ∷ 32 ∷ []) ++ (number.now ++ ((32 ∷ 97 ∷ 116 ∷ 32 ∷ []) ++ (entry.now ++ line_feed)))) out.old }
    ensures prefix_len { IfSome result (λ n. IsPrefixLen n out.new) }
{
    in_a_row(out, &[b"refused ", number, b" at ", entry, b"\n"])
}

// The five zone digits, with the spaces on both sides.
pub fn zone_column(zones: ZoneDigits) -> [u8; 7]
    ensures { result ≡ space ++ zone_text zones ++ space }
{
    let [a1, i1, crossing, i2, a2] = zones.map(|zone| if zone != 0 { b'1' } else { b'0' });
    [b' ', a1, i1, crossing, i2, a2, b' ']
}

// The nine output digits from VF to S4, with the space after them.
pub fn output_column(outputs: u16) -> [u8; 10]
    ensures { result ≡ output_text outputs ++ space }
{
    let shown = [
        outputs & VF,
        outputs & VI,
        outputs & NI,
        outputs & RF,
        outputs & R_PLUS,
        outputs & S1,
        outputs & S2,
        outputs & S3,
        outputs & S4,
    ];
    let [vf, vi, ni, rf, r_plus, s1, s2, s3, s4] = shown.map(|bit| if bit != 0 {
        b'1'
    } else {
        b'0'
    });
    [vf, vi, ni, rf, r_plus, s1, s2, s3, s4, b' ']
}
