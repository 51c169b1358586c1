// The types of packets.
ghost use Rattle.std.specs.Prelude.{◌≡◌};
ghost use Rattle.packet.specs.Kinds.{number_of, Decodes};

use super::refused::Refused;

// By number as the top two bits of the control byte have them.
#[derive(Clone, Copy, Debug, PartialEq, Eq)]
pub enum Kind {
    Mc,
    P2p,
    Nn,
    Fixed,
}

impl From<Kind> for u32 {
    ghost from_gives = { λ k n. n ≡ number_of k };

    fn from(kind: Kind) -> u32 {
        kind as u32
    }
}

// A field above 3 is out of range.
impl TryFrom<u32> for Kind {
    type Error = Refused;

    ghost try_from_gives = { Decodes };

    fn try_from(number: u32) -> Result<Self, Refused> {
        match number {
            0 => Ok(Kind::Mc),
            1 => Ok(Kind::P2p),
            2 => Ok(Kind::Nn),
            3 => Ok(Kind::Fixed),
            _ => Err(Refused::OutOfRange),
        }
    }
}
