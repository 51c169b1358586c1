// A target of a `tree` line: a chip and its processors, up to a comma or the line's end.
use super::complaints::{Wanted, Wrong};
use super::parts::Place;
use super::routes::processors;
use super::words::Words;

#[derive(Clone, Copy)]
pub struct Target {
    pub place: Place,
    // Its processors as bits 0 to 19: never an empty set.
    pub set: u32,
    // Whether it ends in a comma, and another is to follow.
    pub more: bool,
}

impl<'a> Words<'a> {
    // The next target.
    pub fn target(&mut self) -> Result<Target, Wrong<'a>> {
        let place = self.place_of_target()?;
        let mut set = 0;
        while let Some(w) = self.next() {
            let names = w.strip_suffix(b",").unwrap_or(w);
            set = with_word(set, names).ok_or(Wanted::Processor.at(w))?;
            if names.len() < w.len() {
                return Ok(Target {
                    place,
                    set,
                    more: true,
                });
            }
        }
        set = with_word(set, b"").ok_or(Wanted::Processor.at(b""))?;
        Ok(Target {
            place,
            set,
            more: false,
        })
    }

    // The chip: no comma stands before its processors.
    fn place_of_target(&mut self) -> Result<Place, Wrong<'a>> {
        let x = self.x_of_place()?;
        let found = self.ahead();
        if found.ends_with(b",") {
            return Err(Wanted::BeforeComma.at(found));
        }
        self.place_behind(x)
    }
}

// A set with the processors that a word names. A word without any is the end, or a comma, and stands behind some.
fn with_word(set: u32, names: &[u8]) -> Option<u32> {
    if names.is_empty() {
        return Some(set).filter(|set| *set != 0);
    }
    Some(set | (processors(names)? >> 6))
}
