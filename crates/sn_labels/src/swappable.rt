// The labels that may be exchanged: `swappable(sn1,sn2)`. Writers of the kind of `line_parts::shown`.
ghost use Rattle.std.specs.Prelude.{map, ◌<◌, ◌≤◌, take};
ghost use Rattle.writer.specs.emit.Text.{Written};
ghost use Rattle.reading_rules.specs.reading.Parting.{joined};
ghost use Rattle.reading_rules.specs.reading.Molecule.{notes_of};
ghost use Rattle.reading_rules.specs.reading.Show.{show_label, show_swap, swap_texts};
ghost use Rattle.line_parts.specs.shown.Chained.{shown_parts, listed};
ghost use Rattle.line_parts.specs.shown.Notes.{max_sites, labels_of, Digits};

use line_parts::{MAX_SITES, Site, put_label, put_part_lead, put_parting};
use request_chains::in_places;
use writer::{put, put_all};

// A label of the list of labels that may be exchanged.
fn put_next_label(out: &mut [u8], at: usize, more: bool, sn: u32) -> usize
    requires { sn < 10 }
    ensures { Written out.old at (listed more 44 (show_label sn)) out.new result }
{
    let p = put_parting(out, at, more, b',');
    put_label(out, p, sn)
}

fn put_labels(out: &mut [u8], at: usize, sites: [Site; MAX_SITES], count: usize) -> usize
    requires count_le_max_sites { count ≤ max_sites }
    requires digits { Digits (take count sites) }
    ensures { Written out.old at (joined 44 (map show_label (notes_of (labels_of (take count sites))))) out.new result }
{
    let mut p = at;
    for i in 0..count {
        let site = sites[i];
        p = put_next_label(out, p, 0 < i, site.sn);
    }
    p
}

fn put_swap_text(out: &mut [u8], at: usize, sites: [Site; MAX_SITES], count: usize) -> usize
    requires count_le_max_sites { count ≤ max_sites }
    requires digits { Digits (take count sites) }
    ensures { Written out.old at (show_swap (notes_of (labels_of (take count sites)))) out.new result }
{
    let p = put_all(out, at, b"swappable(");
    let q = put_labels(out, p, sites, count);
    put(out, q, b')')
}

// The labels of the first `count` sites as those that may be exchanged, where there are some.
pub fn put_swappable(
    out: &mut [u8],
    at: usize,
    first: bool,
    sites: [Site; MAX_SITES],
    count: usize,
) -> usize
    requires { Digits (take count sites) }
    ensures { Written out.old at (shown_parts first (swap_texts (labels_of (take count sites)))) out.new result }
{
    let n = in_places(count);
    if n == 0 {
        return at;
    }
    let p = put_part_lead(out, at, first);
    put_swap_text(out, p, sites, n)
}
