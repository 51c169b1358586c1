// The tables of a whole mesh, as a caller lends them.
use std::marker::Model;
use tables::lent::ChipTables;

// The rows of all chips, three numbers each, where each chip's start, the codes chip after chip, and each chip's fixed route.
#[derive(Drop)]
pub struct Tables<'a> {
    rows: &'a [u32],
    starts: &'a [u32],
    codes: &'a [u8],
    fixed: &'a [u32],
}

impl<'a> Model for Tables<'a> {
    ghost use Rattle.mesh.specs.Lending.{Tables, tables_of};

    ghost Value = { Tables };

    ghost view = { λ t. tables_of t.rows.now t.starts.now t.codes.now t.fixed.now 0 };
}

impl<'a> Tables<'a> {
    ghost use Rattle.std.specs.Prelude.{◌≡◌, ◌<◌, ◌≤◌};
    ghost use Rattle.mesh.specs.Lending.{tables_of, tables_at};
    ghost use Rattle.mesh.specs.Refusals.{Lent};

    pub fn new(rows: &'a [u32], starts: &'a [u32], codes: &'a [u8], fixed: &'a [u32]) -> Self
        ensures { result ≡ tables_of rows.now starts.now codes.now fixed.now 0 }
    {
        Tables {
            rows,
            starts,
            codes,
            fixed,
        }
    }

    pub fn rows(&self) -> &'a [u32]
        ensures { result.now ≡ self.now.rows }
    {
        self.rows
    }

    pub fn starts(&self) -> &'a [u32]
        ensures { result.now ≡ self.now.starts }
    {
        self.starts
    }

    pub fn codes(&self) -> &'a [u8]
        ensures { result.now ≡ self.now.codes }
    {
        self.codes
    }

    pub fn fixed(&self) -> &'a [u32]
        ensures { result.now ≡ self.now.fixed }
    {
        self.fixed
    }

    // What of them is one chip's, in a mesh of so many, for which they were accepted.
    pub fn chip(&self, chip: usize, chips: usize) -> ChipTables<'a>
        requires lent { Lent self.now chips }
        requires there { chip < chips }
        requires few { chips ≤ 144 }
        ensures { result ≡ tables_at self.now chips chip }
    {
        let first = (self.starts[chip] as usize) * 3;
        let next = (self.starts[chip + 1] as usize) * 3;
        let at = chip * chips;
        ChipTables::new(
            &self.rows[first..next],
            &self.codes[at..at + chips],
            self.fixed[chip],
        )
    }
}
