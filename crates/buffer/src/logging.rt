// The log of deliveries: records of six numbers, one for each pass that hands a packet to a processor.
ghost use Rattle.std.specs.Prelude.{◌+◌, ◌*◌, ◌<◌, ◌≤◌, length};
ghost use Rattle.mesh.specs.Steps.{log_of};
ghost use Rattle.buffer.specs.Logs.{Logged};

use steps::Outcome;

// Writes a pass's record, where it has one, behind the n that the log has; answers how many there are then.
pub fn write_record(log: &mut [u32], n: usize, chip: usize, o: Outcome) -> usize
    requires { (n * 6 + 6 ≤ length log.old) × (chip < 256) }
    ensures { Logged (log_of chip o) log.old n log.new result }
{
    if o.wanted < 64 {
        return n;
    }
    let at = n * 6;
    let p = o.packet;
    log[at] = chip as u32;
    log[at + 1] = o.wanted / 64;
    log[at + 2] = o.errors;
    log[at + 3] = p.control;
    log[at + 4] = p.word;
    log[at + 5] = p.payload;
    n + 1
}
