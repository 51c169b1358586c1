// Setting aside what is in flight, as a round does first: a link's packets move to the places behind its own.
ghost use Rattle.std.specs.Prelude.{◌≡◌, ◌+◌, ◌*◌, ◌<◌, ◌≤◌, length, drop, slice_index};
ghost use Rattle.std.proofs.Math.Seq.{paste};
ghost use Rattle.buffer.specs.OnePass.{chip_words};
ghost use Rattle.buffer.specs.Held.{Few};
ghost use Rattle.buffer.specs.Aside.{aside_words, ChipAside, AsideUpto};
ghost use Rattle.links.specs.Offsets.{header_long, held_at, places_at, place_long, depth, aside_places_at, link_long, chip_long};

use links::offsets::{
    ASIDE, ASIDE_PLACES_AT, CHIP, HEADER, HELD, LINK, LINKS_AT, PLACE, PLACES_AT,
};

// All links of the first chips.
pub fn set_aside(mesh: &mut [u32], count: usize)
    requires { (header_long + count * chip_long ≤ length mesh.old) × ((c : _) → c < count → Few (chip_words c mesh.old)) }
    ensures { AsideUpto count count mesh.old mesh.new }
{
    for i in 0..count {
        let at = HEADER + i * CHIP;
        chip_aside(&mut mesh[at..at + CHIP]);
    }
}

fn chip_aside(chip: &mut [u32])
    requires { Few chip.old }
    ensures { ChipAside chip.old chip.new }
{
    for i in 0..6 {
        let at = LINKS_AT + i * LINK;
        link_aside(&mut chip[at..at + LINK]);
    }
}

fn link_aside(words: &mut [u32])
    requires { (length words.old ≡ link_long) × (slice_index words.old held_at ≤ 8) }
    ensures { words.new ≡ aside_words words.old }
{
    let held = words[HELD];
    copy_aside(words, (held as usize) * PLACE);
    words[ASIDE] = held;
    words[HELD] = 0;
}

// Copies the words of the packets that a link holds. Word by word: what the library moves within a slice, or from one part of it to another,
// goes by `memmove`, which the archive asks of nobody.
fn copy_aside(words: &mut [u32], count: usize)
    requires { (length words.old ≡ link_long) × (count ≤ depth * place_long) }
    ensures { words.new ≡ paste words.old aside_places_at (drop places_at words.old) count }
{
    for i in 0..count {
        words[ASIDE_PLACES_AT + i] = words[PLACES_AT + i];
    }
}
