// The call: what it refuses, the tree, and its rows.
ghost use Rattle.std.specs.Prelude.{◌≡◌};
ghost use Rattle.packet.specs.Refusal.{first_of};
ghost use Rattle.packet.specs.Refused.{told};
ghost use Rattle.tree.specs.Call.{tree_refusals, tree_of, rows_after, starts_after};

use super::Tree;
use super::growing::Grown;
use super::places::Size;
use super::rows::write_rows;
use super::targets::{all_there, named_again, sets_fine};
use packet::refused::Refused;
use tables::size::{chips, size_fine};

// Writes the rows that lead a packet with this key from the source to the processors of the targets, two words each, chip and processor set, and where each chip's rows start. Refusals, the first
// that applies: 7 a size out of range, 19 a chip off the mesh, 20 a chip named twice or a processor set that is empty or has a bit above 19, 21 a key bit outside the mask, 26 room for fewer rows than
// one a chip, or starts not one more than chips; then nothing is written.
pub fn tree(
    width: u32,
    height: u32,
    source: u32,
    key: u32,
    mask: u32,
    targets: &[u32],
    rows: &mut [u32],
    starts: &mut [u32],
) -> Tree
    ensures value { result ≡ tree_of width height source key mask targets.now rows.old starts.old }
    ensures rows_after { rows.new ≡ rows_after width height source key mask targets.now rows.old starts.old }
    ensures starts_after { starts.new ≡ starts_after width height source key mask targets.now rows.old starts.old }
{
    let checked = checked(
        width,
        height,
        source,
        key,
        mask,
        targets,
        rows.len(),
        starts.len(),
    );
    if let Err(refused) = checked {
        return Tree {
            refusal: u32::from(refused),
            rows: 0,
        };
    }
    let mut grown = Grown::source_alone(source);
    grown.grow(Size { width, height }, source, targets);
    let count = write_rows(key, mask, chips(width, height), &grown, rows, starts);
    Tree {
        refusal: 0,
        rows: count as u32,
    }
}

fn checked(
    width: u32,
    height: u32,
    source: u32,
    key: u32,
    mask: u32,
    targets: &[u32],
    rows_room: usize,
    starts_room: usize,
) -> Result<(), Refused>
    ensures { told result ≡ first_of (tree_refusals width height source key mask targets.now rows_room starts_room) }
{
    if !size_fine(width, height) {
        return Err(Refused::Size);
    }
    let all = chips(width, height);
    let last = all as u32;
    if (last <= source) || !all_there(targets, last) {
        return Err(Refused::OffMesh);
    }
    if named_again(targets) || !sets_fine(targets) {
        return Err(Refused::Targets);
    }
    if (key & mask) != key {
        return Err(Refused::KeyBits);
    }
    if (rows_room < 3 * all) || (starts_room != all + 1) {
        return Err(Refused::TreeRoom);
    }
    Ok(())
}
