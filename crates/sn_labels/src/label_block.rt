// The labels of the sn: the list of entries, `$;;sn2;;;sn1$`. Writers of the kind of `line_parts::shown`.
ghost use Rattle.std.specs.Prelude.{◌≡◌, map, ◌+◌, ◌<◌, ◌≤◌, take};
ghost use Rattle.writer.specs.emit.Text.{Written};
ghost use Rattle.reading_rules.specs.reading.Parting.{joined};
ghost use Rattle.reading_rules.specs.reading.Molecule.{look};
ghost use Rattle.reading_rules.specs.reading.Show.{show_label, show_entry, entries, up_to_last, label_block, label_blocks};
ghost use Rattle.line_parts.specs.shown.Chained.{shown_blocks};
ghost use Rattle.line_parts.specs.shown.Notes.{max_sites, labels_of, Digits};
ghost use Rattle.sn_labels.specs.label_block.Gaps.{Gap, nearest};
ghost use Rattle.sn_labels.specs.label_block.Falling.{Falling, FallTold};

use line_parts::{MAX_SITES, Site, put_block_lead, put_label};
use request_chains::in_places;
use writer::{put, put_same};

// How many atoms there are up to this one.
fn past(atom: u32) -> usize
    ensures { result ≡ atom + 1 }
{
    atom as usize + 1
}

// An atom where it lies past a and before `next`, else `next`.
fn nearer(a: usize, atom: usize, next: usize) -> usize
    ensures { result ≡ nearest a atom next }
{
    if a < atom {
        return atom.min(next);
    }
    next
}

// How many atoms there are up to the last with a label.
fn label_end(sites: [Site; MAX_SITES], count: usize) -> usize
    requires { count ≤ max_sites }
    ensures { result ≡ up_to_last (labels_of (take count sites)) }
{
    let mut end = 0;
    for i in 0..count {
        let site = sites[i];
        end = end.max(past(site.atom));
    }
    end
}

// The label of an atom, if it has one.
fn put_entry(
    out: &mut [u8],
    at: usize,
    sites: [Site; MAX_SITES],
    count: usize,
    atom: usize,
) -> usize
    requires count_le_max_sites { count ≤ max_sites }
    requires digits { Digits (take count sites) }
    ensures { Written out.old at (show_entry (look atom (labels_of (take count sites)))) out.new result }
{
    for i in 0..count {
        let site = sites[i];
        if site.atom as usize == atom {
            return put_label(out, at, site.sn);
        }
    }
    at
}

// The next atom with a label, past an atom; `last` where there is none before it.
fn next_atom(sites: [Site; MAX_SITES], count: usize, atom: usize, last: usize) -> usize
    requires count_le_max_sites { count ≤ max_sites }
    requires atom_lt_last { atom < last }
    ensures { Gap atom last (labels_of (take count sites)) result }
{
    let mut next = last;
    for i in 0..count {
        let site = sites[i];
        next = nearer(atom, site.atom as usize, next);
    }
    next
}

// The entries of the atoms up to the last: the label of an atom, then the `;`s up to the next atom with a label.
fn put_through(
    out: &mut [u8],
    at: usize,
    sites: [Site; MAX_SITES],
    count: usize,
    last: usize,
) -> usize
    requires count_le_max_sites { count ≤ max_sites }
    requires digits { Digits (take count sites) }
    ensures { Written out.old at (joined 59 (map show_entry (entries (last + 1) 0 (labels_of (take count sites))))) out.new result }
{
    let mut p = at;
    let mut atom = 0;
    while atom < last {
        let next = next_atom(sites, count, atom, last);
        let q = put_entry(out, p, sites, count, atom);
        p = put_same(out, q, b';', next - atom);
        atom = next;
    }
    put_entry(out, p, sites, count, atom)
}

// The entries of the atoms below n.
fn put_entries(out: &mut [u8], at: usize, sites: [Site; MAX_SITES], count: usize, n: usize) -> usize
    requires count_le_max_sites { count ≤ max_sites }
    requires digits { Digits (take count sites) }
    ensures { Written out.old at (joined 59 (map show_entry (entries n 0 (labels_of (take count sites))))) out.new result }
{
    if n == 0 {
        return at;
    }
    put_through(out, at, sites, count, n - 1)
}

// Whether the atoms of the first n sites fall, as they do in nearly every class: the site of the last sn stands first in the line.
fn falls(sites: [Site; MAX_SITES], n: usize) -> bool
    requires { n ≤ max_sites }
    ensures { FallTold (take n sites) result }
{
    let mut last = 0;
    for i in (0..n).rev() {
        let site = sites[i];
        let next = past(site.atom);
        if next <= last {
            return false;
        }
        last = next;
    }
    true
}

// The entries of sites whose atoms fall, from the last site on: the `;`s up to its atom, and its label.
fn put_falling(out: &mut [u8], at: usize, sites: [Site; MAX_SITES], count: usize) -> usize
    requires count_le_max_sites { count ≤ max_sites }
    requires digits { Digits (take count sites) }
    requires falling { Falling (take count sites) }
    ensures { Written out.old at (joined 59 (map show_entry (entries (up_to_last (labels_of (take count sites))) 0 (labels_of (take count sites))))) out.new result }
{
    let mut p = at;
    let mut from = 0;
    for i in (0..count).rev() {
        let site = sites[i];
        let q = put_same(out, p, b';', (site.atom - from) as usize);
        p = put_label(out, q, site.sn);
        from = site.atom;
    }
    p
}

// All entries up to the last atom with a label.
fn put_list(out: &mut [u8], at: usize, sites: [Site; MAX_SITES], count: usize) -> usize
    requires count_le_max_sites { count ≤ max_sites }
    requires digits { Digits (take count sites) }
    ensures { Written out.old at (joined 59 (map show_entry (entries (up_to_last (labels_of (take count sites))) 0 (labels_of (take count sites))))) out.new result }
{
    if falls(sites, count) {
        return put_falling(out, at, sites, count);
    }
    let n = label_end(sites, count);
    put_entries(out, at, sites, count, n)
}

fn put_label_text(out: &mut [u8], at: usize, sites: [Site; MAX_SITES], count: usize) -> usize
    requires count_le_max_sites { count ≤ max_sites }
    requires digits { Digits (take count sites) }
    ensures { Written out.old at (label_block (labels_of (take count sites))) out.new result }
{
    let p = put(out, at, b'$');
    let q = put_list(out, p, sites, count);
    put(out, q, b'$')
}

// The labels of the first `count` sites at their atoms, where there are some. One pass over the gaps between them.
pub fn put_label_block(
    out: &mut [u8],
    at: usize,
    first: bool,
    sites: [Site; MAX_SITES],
    count: usize,
) -> usize
    requires { Digits (take count sites) }
    ensures { Written out.old at (shown_blocks first (label_blocks (labels_of (take count sites)))) out.new result }
{
    let n = in_places(count);
    if n == 0 {
        return at;
    }
    let p = put_block_lead(out, at, first);
    put_label_text(out, p, sites, n)
}
