// Which rows of a table decide nothing: those that match no key, and those that an earlier row covers.
#![tactic(auto)]

ghost use Rattle.std.specs.Prelude.{◌≡◌};
ghost use Rattle.tables.specs.Rows.{used};
ghost use Rattle.covered.specs.Covering.{covers};

// Whether a row covers a later one: specs/Covered.antt has what follows from it.
pub fn covers(key: u32, mask: u32, later_key: u32, later_mask: u32) -> bool
    ensures { result ≡ covers key mask later_key later_mask }
{
    used(later_key, later_mask) & ((mask & later_mask) == mask) & ((later_key & mask) == key)
}

// Whether a row matches any key at all.
pub fn used(key: u32, mask: u32) -> bool
    ensures { result ≡ used key mask }
{
    (key & mask) == key
}
