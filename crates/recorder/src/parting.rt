// A text in lines, one after the other.
ghost use Rattle.std.specs.Prelude.{◌≡◌, ◌≤◌, length};
ghost use Rattle.std.specs.Iterator.{YieldsFirstRef, item_count};
ghost use Rattle.rules_plan.specs.Words.{lines, mark_size, unmarked};

use plan_lines::before_line_feed;

// Where the first line begins: behind the byte order mark, if there is one.
#[tactic(auto, using(crate::proofs::LineByLine::mark_by))]
pub fn after_mark(text: &[u8]) -> usize
    ensures value { result ≡ mark_size text.now }
    ensures upper_bound { result ≤ length text.now }
{
    if text.starts_with(b"\xEF\xBB\xBF") {
        3
    } else {
        0
    }
}

// The lines of a text, without their line feeds.
#[derive(Clone, Copy)]
pub(crate) struct Lines<'a> {
    text: &'a [u8],
}

impl<'a> Lines<'a> {
    #[tactic(auto, unfolding(rules_plan::specs::Words::unmarked))]
    pub(crate) fn of(text: &'a [u8]) -> Self
        ensures { result.text.now ≡ unmarked text.now }
    {
        let (_, text) = text.split_at(after_mark(text));
        Self { text }
    }
}

impl<'a> Iterator for Lines<'a> {
    type Item = &'a [u8];

    ghost next_gives = { YieldsFirstRef (λ s. lines s.text.now) };

    ghost remaining = { item_count (λ s. lines s.text.now) };

    fn next(&mut self) -> Option<&'a [u8]> {
        if self.text.is_empty() {
            return None;
        }
        let (line, behind) = self.text.split_at(before_line_feed(self.text));
        // Behind a line is its line feed, or nothing.
        let (_feed, next) = behind.split_at(behind.len().min(1));
        self.text = next;
        Some(line)
    }
}
