// The phase.
ghost use Rattle.std.specs.Prelude.{◌≡◌};
ghost use Rattle.links.specs.Phase.{next_phase};

// "The phase code runs 00, 01, 11, 10 and round again."
pub fn next_phase(phase: u32) -> u32
    ensures { result ≡ next_phase phase }
{
    match phase {
        0 => 1,
        1 => 3,
        3 => 2,
        _ => 0,
    }
}
