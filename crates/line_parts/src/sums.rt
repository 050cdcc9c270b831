// The sum of a chain: `constrain(a+b=3)`. Writers of the kind of `shown`.
ghost use Rattle.std.specs.Prelude.{map, ◌+◌, ◌^◌, ◌<◌};
ghost use Rattle.writer.specs.emit.Text.{Written};
ghost use Rattle.reading_rules.specs.reading.Names.{name_of};
ghost use Rattle.reading_rules.specs.reading.Parting.{joined};
ghost use Rattle.reading_rules.specs.reading.Molecule.{sum};
ghost use Rattle.reading_rules.specs.reading.Show.{show_sum};
ghost use Rattle.line_parts.specs.shown.Chained.{shown_parts, listed};
ghost use Rattle.line_parts.specs.shown.Notes.{numbers_from, sum_list};

use super::shown::{put_numbered, put_part_lead, put_parting};
use super::variable::put_name;
use writer::put_all;

// A variable of a sum.
fn put_variable(out: &mut [u8], at: usize, more: bool, v: u32) -> usize
    ensures { Written out.old at (listed more 43 (name_of v)) out.new result }
{
    let p = put_parting(out, at, more, b'+');
    put_name(out, p, v)
}

// The variables v, v + 1, .., so many.
fn put_variables(out: &mut [u8], at: usize, v: u32, count: u32) -> usize
    requires { v + count < 2 ^ 32 }
    ensures { Written out.old at (joined 43 (map name_of (numbers_from v count))) out.new result }
{
    let mut p = at;
    for i in 0..count {
        p = put_variable(out, p, 0 < i, v + i);
    }
    p
}

fn put_sum_text(out: &mut [u8], at: usize, v: u32, count: u32, total: u32) -> usize
    requires { v + count < 2 ^ 32 }
    ensures { Written out.old at (show_sum (sum (numbers_from v count) total)) out.new result }
{
    let p = put_all(out, at, b"constrain(");
    let q = put_variables(out, p, v, count);
    put_numbered(out, q, b"=", total, b')')
}

// The sum of a chain with n unlocated bonds whose first variable is v: its n + 1 variables and their total. None where n is 0.
pub fn put_sum(out: &mut [u8], at: usize, first: bool, v: u32, n: u32, total: u32) -> usize
    requires { v + n + 1 < 2 ^ 32 }
    ensures { Written out.old at (shown_parts first (map show_sum (sum_list v n total))) out.new result }
{
    if n == 0 {
        return at;
    }
    let p = put_part_lead(out, at, first);
    put_sum_text(out, p, v, n + 1, total)
}
