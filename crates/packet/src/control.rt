// The control byte, the only place where it is shifted and masked: each field taken out, what a type has, mark and stamp put in.
ghost use Rattle.std.specs.Prelude.{◌≡◌, ◌+◌, ◌*◌, ◌^◌, ◌<◌};
ghost use Rattle.packet.specs.Control.{kind_of, mark_of, sequence_of, stamp_of, direct_of, route_of, carries_of, parity_of, mark_in, stamp_in, parity_in, is_direct};
ghost use Rattle.packet.specs.Types.{is_mc, is_fixed, is_marked, is_stamped};

use super::kind::Kind;

// The number of the type: that of a `Kind` where the control byte is below 256. What `fields_of`, `is_fixed` and others promise of larger
// numbers keeps it a number.
pub fn kind_of(control: u32) -> u32
    ensures { result ≡ kind_of control }
{
    control >> 6
}

pub fn is_mc(control: u32) -> bool
    ensures { result ≡ is_mc control }
{
    kind_of(control) == u32::from(Kind::Mc)
}

pub fn is_fixed(control: u32) -> bool
    ensures { result ≡ is_fixed control }
{
    kind_of(control) == u32::from(Kind::Fixed)
}

// Whether the type has a mark.
pub fn is_marked(control: u32) -> bool
    ensures { result ≡ is_marked control }
{
    is_mc(control) | is_fixed(control)
}

// Whether the type has a stamp.
pub fn is_stamped(control: u32) -> bool
    ensures { result ≡ is_stamped control }
{
    kind_of(control) != u32::from(Kind::Nn)
}

pub fn mark_of(control: u32) -> u32
    ensures { result ≡ mark_of control }
{
    (control >> 4) & 3
}

pub fn sequence_of(control: u32) -> u32
    ensures { result ≡ sequence_of control }
{
    mark_of(control)
}

pub fn stamp_of(control: u32) -> u32
    ensures { result ≡ stamp_of control }
{
    (control >> 2) & 3
}

pub fn direct_of(control: u32) -> u32
    ensures { result ≡ direct_of control }
{
    (control >> 5) & 1
}

pub fn route_of(control: u32) -> u32
    ensures { result ≡ route_of control }
{
    (control >> 2) & 7
}

pub fn carries_of(control: u32) -> u32
    ensures { result ≡ carries_of control }
{
    (control >> 1) & 1
}

pub fn parity_of(control: u32) -> u32
    ensures { result ≡ parity_of control }
{
    control & 1
}

// Whether the packet is NN with T = 1.
pub fn is_direct(control: u32) -> bool
    ensures { result ≡ is_direct control }
{
    (kind_of(control) == u32::from(Kind::Nn)) & (direct_of(control) == 1)
}

pub fn mark_in(control: u32, mark: u32) -> u32
    ensures { result ≡ mark_in control mark }
{
    (control >> 6 << 6) | ((mark & 3) << 4) | (control & 15)
}

pub fn stamp_in(control: u32, stamp: u32) -> u32
    ensures { result ≡ stamp_in control stamp }
{
    (control >> 4 << 4) | ((stamp & 3) << 2) | (control & 3)
}

pub fn parity_in(control: u32, bit: u32) -> u32
    ensures { result ≡ parity_in control bit }
{
    (control >> 1 << 1) | (bit & 1)
}

// A field put below what stands above it.
pub fn beside(above: u32, field: u32, width: u32) -> u32
    requires { (width < 32) × ((field < 2 ^ width) × (above * 2 ^ width + field < 2 ^ 32)) }
    ensures { result ≡ above * 2 ^ width + field }
{
    (above << width) | field
}

// The control byte of a type, the four bits below it, and bits 1 and 0.
pub fn control_byte(kind: u32, four: u32, carries: u32, parity: u32) -> u32
    requires { (kind < 4) × ((four < 16) × ((carries < 2) × (parity < 2))) }
    ensures { result ≡ kind * 64 + four * 4 + carries * 2 + parity }
{
    beside(beside(beside(kind, four, 4), carries, 1), parity, 1)
}
