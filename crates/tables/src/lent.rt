// Tables as a caller lends them: of one chip, and of all.
use std::marker::Model;

// One chip's: its rows, three numbers each, its codes, and the route of its fixed-route packets.
#[derive(Drop)]
pub struct ChipTables<'a> {
    rows: &'a [u32],
    codes: &'a [u8],
    fixed: u32,
}

impl<'a> Model for ChipTables<'a> {
    ghost use Rattle.tables.specs.Tables.{ChipTables, chip_tables};

    ghost Value = { ChipTables };

    ghost view = { λ t. chip_tables t.rows.now t.codes.now t.fixed };
}

impl<'a> ChipTables<'a> {
    ghost use Rattle.std.specs.Prelude.{◌≡◌};
    ghost use Rattle.tables.specs.Tables.{chip_tables};

    pub fn new(rows: &'a [u32], codes: &'a [u8], fixed: u32) -> Self
        ensures { result ≡ chip_tables rows.now codes.now fixed }
    {
        ChipTables { rows, codes, fixed }
    }

    pub fn rows(&self) -> &'a [u32]
        ensures { result.now ≡ self.now.rows }
    {
        self.rows
    }

    pub fn codes(&self) -> &'a [u8]
        ensures { result.now ≡ self.now.codes }
    {
        self.codes
    }

    pub fn fixed(&self) -> u32
        ensures { result ≡ self.now.fixed }
    {
        self.fixed
    }
}
