// The words of a line: what stands between blanks, before a comment.
ghost use Rattle.std.specs.Prelude.{length};
ghost use Rattle.std.specs.Iterator.{at_most};

// The words of a line that are still to come.
#[derive(Clone, Copy)]
pub struct Words<'a> {
    rest: &'a [u8],
}

impl<'a> Words<'a> {
    pub fn of(line: &'a [u8]) -> Words<'a> {
        Words { rest: line }
    }

    // The next word, empty at the line's end: whoever wants a word there tells an empty one as the line's end.
    pub fn word(&mut self) -> &'a [u8] {
        self.next().unwrap_or_default()
    }

    // The same, and it stays the next.
    pub fn ahead(&self) -> &'a [u8] {
        let mut ahead = *self;
        ahead.word()
    }
}

impl<'a> Iterator for Words<'a> {
    type Item = &'a [u8];

    ghost remaining = { λ s. at_most (length s.rest.now) };

    fn next(&mut self) -> Option<&'a [u8]> {
        let start = self.rest.iter().position(|b| !is_blank(*b))?;
        let from_word = &self.rest[start..];
        let (_, behind) = from_word.split_first()?;
        let more = behind
            .iter()
            .position(|b| is_blank(*b))
            .unwrap_or(behind.len());
        let (word, rest) = from_word.split_at(more + 1);
        self.rest = rest;
        Some(word)
    }
}

// The line up to its comment.
pub fn before_comment(line: &[u8]) -> &[u8] {
    line.split(|b| *b == b'#').next().unwrap_or_default()
}

// A space, a tab, or the CR of a line that ends in CR LF.
fn is_blank(b: u8) -> bool {
    matches!(b, b' ' | b'\t' | b'\r')
}
