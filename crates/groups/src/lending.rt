// Whether the room that is lent is too short.
ghost use Rattle.std.specs.Prelude.{◌≡◌, length, ◌<◌};
ghost use Rattle.groups.specs.Room.{longest, room_short};

// For the longest table of the first chips, each from its start to the next.
pub fn room_short(room: usize, starts: &[u32], chips: usize) -> bool
    requires { chips < length starts.now }
    ensures { result ≡ room_short room (longest starts.now chips) }
{
    (room != 0) && short_for(room, longest(starts, chips) as usize)
}

// For a table of so many rows. No room is none too short.
pub fn short_for(room: usize, rows: usize) -> bool
    requires { rows < 4294967296 }
    ensures { result ≡ room_short room rows }
{
    (room != 0) & (room < 257 + 256 * rows)
}

// A chip has no row where the starts fall.
fn longest(starts: &[u32], chips: usize) -> u32
    requires { chips < length starts.now }
    ensures { result ≡ longest starts.now chips }
{
    let mut most: u32 = 0;
    for c in 0..chips {
        most = most.max(starts[c + 1].saturating_sub(starts[c]));
    }
    most
}
