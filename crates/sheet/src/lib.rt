// The lines of a sheet, and the sheet of a register, as bytes in a buffer that the caller lends.
#![tactic(auto)]

mod counting;
mod lines;
mod printing;

pub use lines::{output_column, refusal_line, row_line, title_line, zone_column};
pub use printing::print;

// The most bytes that a register has.
pub const MOST_BYTES: usize = 65536;

// Room for any sheet: the title, 27 bytes, and 8,190 rows of at most 23.
pub type SheetText = [u8; 188397];
