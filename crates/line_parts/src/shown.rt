// What the blocks and the parts of the trailer of a line share: what stands before a block and before a part, the bar after the blocks, and
// the sites. The builder keeps marks, site lists, sums and sites as numbers and shows them last.
// Each writer is of the kind of `writer::emit`: it stores nothing past the end and counts on. A writer of blocks or of parts of the trailer is told
// whether nothing of its kind stands before them, and writes what parts them. The texts are those of the reading rules.
ghost use Rattle.std.specs.Prelude.{◌<◌};
ghost use Rattle.writer.specs.emit.Text.{Written};
ghost use Rattle.reading_rules.specs.reading.Show.{show_label};
ghost use Rattle.line_parts.specs.shown.Chained.{block_lead, part_lead, blocks_end, parting, numbered};

use writer::{put, put_all, put_number};

// The byte before each part of a list but the first.
pub fn put_parting(out: &mut [u8], at: usize, more: bool, s: u8) -> usize
    ensures { Written out.old at (parting more s) out.new result }
{
    if more {
        return put(out, at, s);
    }
    at
}

// What stands before a block.
pub fn put_block_lead(out: &mut [u8], at: usize, first: bool) -> usize
    ensures { Written out.old at (block_lead first) out.new result }
{
    if first {
        return put_all(out, at, b" |");
    }
    put_all(out, at, b",")
}

// What stands before a part of the trailer.
pub fn put_part_lead(out: &mut [u8], at: usize, first: bool) -> usize
    ensures { Written out.old at (part_lead first) out.new result }
{
    if first {
        return put_all(out, at, b" ");
    }
    put_all(out, at, b";")
}

// The bar after the last block, where there is a block.
pub fn put_blocks_end(out: &mut [u8], at: usize, any: bool) -> usize
    ensures { Written out.old at (blocks_end any) out.new result }
{
    if any {
        return put_all(out, at, b"|");
    }
    at
}

// A number between a text and a byte.
pub fn put_numbered(out: &mut [u8], at: usize, before: &[u8], n: u32, after: u8) -> usize
    ensures { Written out.old at (numbered before.now n after) out.new result }
{
    let p = put_all(out, at, before);
    let q = put_number(out, p, n);
    put(out, q, after)
}

// The label of a site, `sn` and its digit.
pub fn put_label(out: &mut [u8], at: usize, sn: u32) -> usize
    requires { sn < 10 }
    ensures { Written out.old at (show_label sn) out.new result }
{
    put_all(out, at, &[b's', b'n', 48 + sn as u8])
}

// The most sites that a line has: one for each sn.
pub const MAX_SITES: usize = 4;

// A site: the sn of its chain, and its atom. Two numbers of one size: what pads a struct is copied with it.
#[derive(Clone, Copy)]
pub struct Site {
    pub sn: u32,
    pub atom: u32,
}
