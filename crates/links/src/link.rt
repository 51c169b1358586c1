// One directed link, as the words that hold it: its state, how many packets it holds, their places; how many are set
// aside, and places for those.
ghost use Rattle.std.specs.Prelude.{◌≡◌, length, get_or, drop, set, ◌+◌, ◌≤◌};
ghost use Rattle.links.specs.Offsets.{state_at, held_at, place_long, link_long};
ghost use Rattle.links.specs.Link.{is_ready};
ghost use Rattle.links.specs.Words.{packet_in, link_in};
ghost use Rattle.links.specs.LinkWords.{pushed, state_of};

use super::offsets::{HELD, PLACE, PLACES_AT, STATE};
use packet::Packet;
use packet::control::carries_of;

// Whether the link is ready: up, and at most 6 held.
pub fn is_ready(words: &[u32]) -> bool
    requires { length words.now ≡ link_long }
    ensures { result ≡ is_ready (link_in words.now) }
{
    (words[STATE] == 0) & (held(words) <= 6)
}

// The packet at a place, counted in words.
pub fn packet_at(words: &[u32], at: usize) -> Packet
    requires { at + place_long ≤ length words.now }
    ensures { result ≡ packet_in (drop at words.now) }
{
    let control = words[at];
    Packet {
        control,
        nine: carries_of(control),
        word: words[at + 1],
        payload: words[at + 2],
    }
}

// Takes the link up or down.
pub fn set_state(words: &mut [u32], up: bool)
    requires { length words.old ≡ link_long }
    ensures { words.new ≡ set words.old state_at (state_of up) }
{
    words[STATE] = u32::from(!up);
}

// Puts a packet behind those that the link holds.
pub fn push(words: &mut [u32], p: Packet)
    requires { (length words.old ≡ link_long) × (get_or words.old held_at 0 ≤ 7) }
    ensures { words.new ≡ pushed words.old p }
{
    let held = words[HELD];
    let at = PLACES_AT + (held as usize) * PLACE;
    words[at] = p.control;
    words[at + 1] = p.word;
    words[at + 2] = p.payload;
    words[HELD] = held + 1;
}

// How many packets the link holds, not counting those that are set aside.
fn held(words: &[u32]) -> u32
    requires { length words.now ≡ link_long }
    ensures { result ≡ get_or words.now held_at 0 }
{
    words[HELD]
}
