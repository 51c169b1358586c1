// The top byte of keys and masks.
ghost use Rattle.std.specs.Prelude.{◌≡◌, length, get_or, ◌*◌, ◌+◌, ◌<◌};
ghost use Rattle.tables.specs.Rows.{rows_of, blank_entry};
ghost use Rattle.groups.specs.Groups.{top_of, fixes_top};

// The top byte of a key is the number of its group.
pub fn top_of(key: u32) -> usize
    ensures { (result ≡ top_of key) × (result < 256) }
{
    (key / 16777216) as usize
}

// Whether row i fixes the top byte: all eight bits of it.
pub fn fixes_top(rows: &[u32], i: usize) -> bool
    requires { i * 3 + 2 < length rows.now }
    ensures { result ≡ fixes_top (get_or (rows_of rows.now) i blank_entry) }
{
    top_of(rows[i * 3 + 1]) == 255
}
