// Which links send, carry a detour and are dropped for: sets of six links, worked on at once.
ghost use Rattle.std.specs.Prelude.{◌≡◌, ◌<◌};
ghost use Rattle.steps.specs.Detour.{carry_set, send_set, drop_set, plain_send_set, plain_drop_set};

// Link i carries when link i + 1 needs a detour and i is ready.
pub fn carry_set(wanted: u32, ready: u32) -> u32
    requires { (wanted < 64) × (ready < 64) }
    ensures { result ≡ carry_set wanted ready }
{
    let need = wanted ^ (wanted & ready);
    ((need >> 1) | ((need & 1) << 5)) & ready
}

pub fn send_set(wanted: u32, ready: u32) -> u32
    requires { (wanted < 64) × (ready < 64) }
    ensures { result ≡ send_set wanted ready }
{
    let need = wanted ^ (wanted & ready);
    (wanted | (need >> 1) | ((need & 1) << 5)) & ready
}

// Link i is dropped for when it needs a detour and link i - 1 is not ready.
pub fn drop_set(wanted: u32, ready: u32) -> u32
    requires { (wanted < 64) × (ready < 64) }
    ensures { result ≡ drop_set wanted ready }
{
    let need = wanted ^ (wanted & ready);
    need ^ (need & (((ready & 31) << 1) | (ready >> 5)))
}

pub fn plain_send_set(wanted: u32, ready: u32) -> u32
    requires { (wanted < 64) × (ready < 64) }
    ensures { result ≡ plain_send_set wanted ready }
{
    wanted & ready
}

pub fn plain_drop_set(wanted: u32, ready: u32) -> u32
    requires { (wanted < 64) × (ready < 64) }
    ensures { result ≡ plain_drop_set wanted ready }
{
    wanted ^ (wanted & ready)
}
