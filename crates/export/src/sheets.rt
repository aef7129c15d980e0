// Document 01, "The matrix printer", into bytes that the caller lends.
ghost use Rattle.std.specs.Prelude.{◌++◌, ◌≡◌, drop, length};
ghost use Rattle.io.specs.Counts.{IsPrefixLen};
ghost use Rattle.rules.specs.Printer.{length_written, printed, refusal_line, row_line, title, written};

use rules::RowFields;
use sheet::SheetText;

// Writes what is printed of an input at the start of text, which has room for any sheet, and answers
// its length.
#[unsafe(no_mangle)]
pub extern "C" fn degvuurel_print(input: &[u8], text: &mut SheetText) -> usize
    ensures value { result ≡ length (printed input.now) }
    ensures text_after { text.new ≡ printed input.now ++ drop (length (printed input.now)) text.old }
    ensures prefix_len { IsPrefixLen result text.new }
{
    sheet::print(input, text)
}

// Writes the title line at the start of out, and answers its length. Where it does not fit, nothing
// is written and the answer is 0.
#[tactic(auto, using(crate::proofs::Lines::line_length))]
#[unsafe(no_mangle)]
pub extern "C" fn degvuurel_title_line(out: &mut [u8]) -> usize
    ensures value { result ≡ length_written title out.old }
    ensures out_after { out.new ≡ written title out.old }
    ensures prefix_len { IsPrefixLen result out.new }
{
    sheet::title_line(out).unwrap_or(0)
}

// Writes a row's line, as degvuurel_title_line does.
#[tactic(auto, using(crate::proofs::Lines::line_length))]
#[unsafe(no_mangle)]
pub extern "C" fn degvuurel_row_line(out: &mut [u8], fields: RowFields) -> usize
    ensures value { result ≡ length_written (row_line fields) out.old }
    ensures out_after { out.new ≡ written (row_line fields) out.old }
    ensures prefix_len { IsPrefixLen result out.new }
{
    sheet::row_line(out, fields).unwrap_or(0)
}

// Writes the one line of a register that cannot be read, as degvuurel_title_line does. The entry is
// named where the answer is 13.
#[tactic(auto, using(crate::proofs::Lines::line_length))]
#[unsafe(no_mangle)]
pub extern "C" fn degvuurel_refusal_line(out: &mut [u8], answer: u8, entry: u64) -> usize
    ensures value { result ≡ length_written (refusal_line answer entry) out.old }
    ensures out_after { out.new ≡ written (refusal_line answer entry) out.old }
    ensures prefix_len { IsPrefixLen result out.new }
{
    sheet::refusal_line(out, answer, entry).unwrap_or(0)
}
