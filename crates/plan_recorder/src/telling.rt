// What was entered: each report that was refused, with its line and its row, and how many there are.
use recorder::{RegisterBytes, RowLines};
use register::ANSWER;
use rules::{ENTRY, HEADER, Refusal};

pub(crate) fn told(rt: &impl Eprint, register: &RegisterBytes, rows: &RowLines, count: usize) {
    let mut refused: usize = 0;
    let entries = register[HEADER..].chunks_exact(ENTRY);
    for (place, (entry, &line)) in entries.zip(rows).enumerate().take(count) {
        // An answer that is no refusal's number is 0, done.
        if let Ok(refusal) = Refusal::try_from(entry[ANSWER]) {
            let number = u8::from(refusal);
            let row = place + 1;
            verb::tell(
                rt,
                format_args!("line {line}: refused {number}: {refusal}; entered as row {row}\n"),
            );
            refused = refused.saturating_add(1);
        }
    }
    let reports = if count == 1 { "report" } else { "reports" };
    verb::tell(
        rt,
        format_args!("{count} {reports} entered, {refused} of them refused\n"),
    );
}
