// The repeat marks of a chain with unlocated double bonds: `Sg:n:3:a:ht,Sg:n:6:b:ht`. Writers of the kind of `shown`.
ghost use Rattle.std.specs.Prelude.{[], ◌∷◌, map, ◌+◌, ◌*◌, ◌^◌, ◌<◌};
ghost use Rattle.writer.specs.emit.Text.{Written};
ghost use Rattle.reading_rules.specs.reading.Molecule.{at as noted};
ghost use Rattle.reading_rules.specs.reading.Show.{show_mark};
ghost use Rattle.chain_rules.specs.chain.Drawing.{mark_list};
ghost use Rattle.line_parts.specs.shown.Chained.{shown_blocks};
ghost use Rattle.line_parts.specs.shown.Notes.{marks_below};

use super::shown::{put_block_lead, put_numbered};
use super::variable::put_name;
use writer::put_all;

fn put_mark_text(out: &mut [u8], at: usize, atom: u32, v: u32) -> usize
    ensures { Written out.old at (show_mark (noted atom v)) out.new result }
{
    let p = put_numbered(out, at, b"Sg:n:", atom, b':');
    let q = put_name(out, p, v);
    put_all(out, q, b":ht")
}

// One mark.
fn put_mark(out: &mut [u8], at: usize, first: bool, atom: u32, v: u32) -> usize
    ensures { Written out.old at (shown_blocks first (show_mark (noted atom v) ∷ [])) out.new result }
{
    let p = put_block_lead(out, at, first);
    put_mark_text(out, p, atom, v)
}

// The marks before the last: on atoms p, p + 2, .., so many.
fn put_marks_below(out: &mut [u8], at: usize, first: bool, p: u32, v: u32, n: u32) -> usize
    requires n_bound { p + 2 * n < 2 ^ 32 }
    requires n_bound_2 { v + n < 2 ^ 32 }
    ensures { Written out.old at (shown_blocks first (map show_mark (marks_below p v n))) out.new result }
{
    let mut next = at;
    let mut lead = first;
    for i in 0..n {
        next = put_mark(out, next, lead, p + 2 * i, v + i);
        lead = false;
    }
    next
}

// All marks of a chain with n unlocated bonds whose first flexible carbon is atom p and whose first variable is v. None where n is 0.
pub fn put_marks(out: &mut [u8], at: usize, first: bool, p: u32, v: u32, n: u32) -> usize
    requires n_bound { p + 2 * n + 1 < 2 ^ 32 }
    requires n_bound_2 { v + n < 2 ^ 32 }
    ensures { Written out.old at (shown_blocks first (map show_mark (mark_list p v n))) out.new result }
{
    if n == 0 {
        return at;
    }
    let next = put_marks_below(out, at, first, p, v, n);
    put_mark(out, next, false, p + 2 * n + 1, v + n)
}
