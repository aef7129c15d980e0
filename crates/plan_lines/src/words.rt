// Lines and words: how far each goes.
ghost use Rattle.std.specs.Prelude.{◌≡◌, ◌≤◌, length};
ghost use Rattle.std.specs.Iterator.{YieldsFirstRef, item_count};
ghost use Rattle.std.specs.List.{prefix_len};
ghost use Rattle.plan_lines.specs.Leading.{not_line_feed};
ghost use Rattle.rules_plan.specs.Words.{blank, uncommented, words};

// How many bytes stand before the first line feed.
pub fn before_line_feed(text: &[u8]) -> usize
    ensures value { result ≡ prefix_len not_line_feed text.now }
    ensures upper_bound { result ≤ length text.now }
{
    text.iter().take_while(|&&found| found != b'\n').count()
}

// A line up to its comment.
pub(crate) fn uncommented(line: &[u8]) -> &[u8]
    ensures { result.now ≡ uncommented line.now }
{
    let count = line.iter().take_while(|&&found| found != b'#').count();
    &line[..count]
}

// The words of a line, one after the other.
#[derive(Clone, Copy)]
pub(crate) struct Words<'a> {
    pub(crate) line: &'a [u8],
}

impl<'a> Iterator for Words<'a> {
    type Item = &'a [u8];

    ghost next_gives = { YieldsFirstRef (λ s. words s.line.now) };

    ghost remaining = { item_count (λ s. words s.line.now) };

    fn next(&mut self) -> Option<&'a [u8]> {
        let blanks = self
            .line
            .iter()
            .take_while(|&&found| is_blank(found))
            .count();
        let (_, spoken) = self.line.split_at(blanks);
        let length = spoken.iter().take_while(|&&found| !is_blank(found)).count();
        let (word, behind) = spoken.split_at(length);
        self.line = behind;
        if word.is_empty() { None } else { Some(word) }
    }
}

fn is_blank(found: u8) -> bool
    ensures { result ≡ blank found }
{
    matches!(found, b' ' | b'\t' | b'\r')
}
