// The error registers to and from their words, the only place that says in which order they stand.
ghost use Rattle.std.specs.Prelude.{◌≡◌, length};
ghost use Rattle.buffer.specs.Layout.{registers_in, register_words};
ghost use Rattle.links.specs.Offsets.{registers_long};

use kept::Registers;

pub fn registers_at(words: &[u32]) -> Registers
    requires { length words.now ≡ registers_long }
    ensures { result ≡ registers_in words.now }
{
    Registers {
        control: words[0],
        word: words[1],
        payload: words[2],
        link: words[3],
        leg: words[4],
        more: words[5],
        source: words[6],
        phase: words[7],
        units: words[8],
    }
}

pub fn put_registers(words: &mut [u32], r: Registers)
    requires { length words.old ≡ registers_long }
    ensures { words.new ≡ register_words r }
{
    words[0] = r.control;
    words[1] = r.word;
    words[2] = r.payload;
    words[3] = r.link;
    words[4] = r.leg;
    words[5] = r.more;
    words[6] = r.source;
    words[7] = r.phase;
    words[8] = r.units;
}
