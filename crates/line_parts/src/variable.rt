// The names of variables in a line. The writer is of the kind of `writer::emit`: it stores nothing past the end and counts on. The names are those
// of the reading rules.
ghost use Rattle.writer.specs.emit.Text.{Written};
ghost use Rattle.reading_rules.specs.reading.Names.{name_of};

use writer::put;

// The name of a variable; past zz the names begin again.
pub fn put_name(out: &mut [u8], at: usize, v: u32) -> usize
    ensures { Written out.old at (name_of v) out.new result }
{
    let w = v % 702;
    if w < 26 {
        return put(out, at, (97 + w) as u8);
    }
    let p = put(out, at, (97 + (w - 26) / 26) as u8);
    put(out, p, (97 + (w - 26) % 26) as u8)
}
