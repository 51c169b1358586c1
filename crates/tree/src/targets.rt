// The list of targets, two words each: which chips and processor sets it names.
ghost use Rattle.std.specs.Prelude.{◌≡◌, true, [], get_or};
ghost use Rattle.tree.specs.Growing.{targets_of};
ghost use Rattle.tree.specs.Call.{all_there, named_again, set_fine, sets_fine};

// Whether every chip is one of so many.
pub fn all_there(targets: &[u32], all: u32) -> bool
    ensures { result ≡ all_there all (targets_of targets.now) }
{
    for target in targets.chunks(2) {
        if all <= target[0] {
            return false;
        }
    }
    true
}

// Whether a chip is named that stands in the list before.
pub fn named_again(targets: &[u32]) -> bool
    requires { all_there 144 (targets_of targets.now) ≡ true }
    ensures { result ≡ named_again [] (targets_of targets.now) }
{
    let mut named = [false; 144];
    for target in targets.chunks(2) {
        let chip = target[0] as usize;
        if named[chip] {
            return true;
        }
        named[chip] = true;
    }
    false
}

// Whether every set names a processor and nothing else.
pub fn sets_fine(targets: &[u32]) -> bool
    ensures { result ≡ sets_fine (targets_of targets.now) }
{
    for target in targets.chunks(2) {
        if !set_fine(set_of(target)) {
            return false;
        }
    }
    true
}

// The processors of a target: none where a chip's number is the list's last word.
pub fn set_of(target: &[u32]) -> u32
    ensures { result ≡ get_or target.now 1 0 }
{
    if let Some(set) = target.get(1) {
        *set
    } else {
        0
    }
}

fn set_fine(set: u32) -> bool
    ensures { result ≡ set_fine set }
{
    (0 < set) & (set < 1048576)
}
