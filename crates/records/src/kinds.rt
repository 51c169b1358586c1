// What a record keeps.
ghost use Rattle.std.specs.Prelude.{◌≡◌};
ghost use Rattle.records.specs.Kinds.{number_of, Decodes};

use packet::refused::Refused;

// Each by the number that stands in a record.
#[derive(Clone, Copy, Debug, PartialEq, Eq)]
pub enum Kind {
    Injection = 1,
    Round = 2,
    LinkChange = 3,
    Registers = 4,
}

impl TryFrom<u32> for Kind {
    type Error = Refused;

    ghost try_from_gives = { Decodes };

    fn try_from(number: u32) -> Result<Kind, Refused> {
        match number {
            1 => Ok(Kind::Injection),
            2 => Ok(Kind::Round),
            3 => Ok(Kind::LinkChange),
            4 => Ok(Kind::Registers),
            _ => Err(Refused::Record),
        }
    }
}

impl From<Kind> for u8 {
    ghost from_gives = { λ kind n. n ≡ number_of kind };

    fn from(kind: Kind) -> u8 {
        kind as u8
    }
}
