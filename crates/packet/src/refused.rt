// Why a call is refused.
ghost use Rattle.std.specs.Prelude.{◌≡◌};
ghost use Rattle.packet.specs.Refused.{number_of, told};

// Each reason by its number in the rules, which the C interface answers.
#[derive(Clone, Copy, Debug, PartialEq, Eq)]
pub enum Refused {
    // The source of a packet.
    Source = 1,
    // A packet's length is not 5 or 9.
    Length = 2,
    // An NN packet with T = 1.
    Direct = 4,
    // A field of a packet, or what is set of a router.
    OutOfRange = 6,
    // The size of a mesh, or what else it is opened with.
    Size = 7,
    // No mesh stands in the buffer, or it is too short for one.
    NoMesh = 8,
    // A chip, link or counter.
    NotThere = 9,
    LogRoom = 10,
    Codes = 11,
    CutShort = 12,
    Version = 13,
    Record = 14,
    Starts = 15,
    ManyRows = 16,
    RouteBits = 17,
    FixedRoutes = 18,
    // A chip of a tree that is off the mesh.
    OffMesh = 19,
    Targets = 20,
    KeyBits = 21,
    TreeRoom = 26,
    RecordRoom = 27,
    FewerRoom = 28,
    GroupsRoom = 29,
}

impl From<Refused> for u32 {
    ghost from_gives = { λ r n. n ≡ number_of r };

    fn from(r: Refused) -> u32 {
        r as u32
    }
}

// The number that a call tells: 0 where it is not refused.
pub fn told<T: Copy>(r: Result<T, Refused>) -> u32
    ensures { result ≡ told r }
{
    match r {
        Ok(_) => 0,
        Err(refused) => u32::from(refused),
    }
}
