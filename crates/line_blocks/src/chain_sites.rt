// The site lists of all chains of a line, from what is noted of them. The chains are gone through in the order of the text, and with them
// two lists that are lent: the indices of the chains, which have their sites, and the rows of their floating groups, each chain's after
// those of the chains before it. The text of a single list is that of `line_parts::sites`.
ghost use Rattle.std.specs.Prelude.{◌≡◌, [], ◌∷◌, map, ◌+◌, ◌≤◌, min, length, take, drop};
ghost use Rattle.reading_rules.specs.reading.Molecule.{at as noted};
ghost use Rattle.reading_rules.specs.reading.Show.{show_sites};
ghost use Rattle.chain_rules.specs.chain.Drawing.{branch_part, site_lists};
ghost use Rattle.line_blocks.specs.chain_marks.Put.{PutBlocks};
ghost use Rattle.chain_indices.specs.carried_atoms.Counts.{Counts};
ghost use Rattle.line_blocks.specs.chain_sites.Sites.{skipped, site_lists_of, site_lists_in};

use super::chain_marks::Next;
use drawn_chain::MAX_CHAINS;
use placement::Placed;
use request_chains::in_places;
use writer::in_room;

// The atoms of a group's branch.
fn wide_branch_atoms(row: u8) -> u32
    ensures { Counts 5 (branch_part row).size result }
{
    chain_indices::branch_atoms(row) as u32
}

// A floating atom with its sites.
fn put_float(out: &mut [u8], next: Next, atom: u32, sites: &[u16]) -> Next
    ensures { PutBlocks (show_sites (noted atom sites.now) ∷ []) out.old next out.new result }
{
    let at = line_parts::put_sites(out, next.at, next.first, atom, sites);
    Next { at, first: false }
}

// The floating atoms of a chain, the first of which is given, each with the same sites: an atom for each row, and its branch.
fn put_floats(out: &mut [u8], next: Next, rows: &[u8], atom: u32, sites: &[u16]) -> Next
    requires { (atom ≤ 4294065535) × (length rows.now ≤ 65535) }
    ensures { PutBlocks (map show_sites (site_lists sites.now atom (map branch_part rows.now))) out.old next out.new result }
{
    let mut here = atom;
    let mut b = next;
    for row in rows {
        b = put_float(out, b, here, sites);
        here += 1 + wide_branch_atoms(*row);
    }
    b
}

// A place in a slice, no further than its end.
fn within(at: usize, end: usize) -> usize
    ensures { result ≡ min at end }
{
    if at < end {
        return at;
    }
    end
}

// How many indices of a chain lead that are no sites: the template's carbons, and C1 of an acyl chain.
fn first_site(p: &Placed) -> usize
    ensures { Counts 3 (skipped p.now) result }
{
    let heads = placement::head_count(p.role) as usize;
    if p.acyl {
        return heads + 1;
    }
    heads
}

// The site lists of a chain whose indices and rows start at these places.
fn put_chain_sites(
    out: &mut [u8],
    next: Next,
    numbers: &[u16],
    rows: &[u8],
    p: &Placed,
    from: usize,
    row: usize,
) -> Next
    requires { (from ≤ 262140) × (row ≤ 262140) }
    ensures { PutBlocks (map show_sites (site_lists_of p.now (take p.now.count (drop from numbers.now)) (take p.now.float_count (drop row rows.now)))) out.old next out.new result }
{
    if p.float_count == 0 {
        return Next {
            at: next.at,
            first: next.first,
        };
    }
    let to = within(from + p.count as usize, numbers.len());
    let start = within(from + first_site(p), to);
    let end = within(row + p.float_count as usize, rows.len());
    let begin = within(row, end);
    let atom = in_room(p.first) + p.floats as u32;
    put_floats(out, next, &rows[begin..end], atom, &numbers[start..to])
}

// The site lists of all chains.
pub fn put_all_sites(
    out: &mut [u8],
    next: Next,
    numbers: &[u16],
    rows: &[u8],
    notes: &[Placed; MAX_CHAINS],
    count: usize,
) -> Next
    ensures { PutBlocks (map show_sites (site_lists_in (take count notes.now) numbers.now rows.now)) out.old next out.new result }
{
    let n = in_places(count);
    let chains = &notes[..n];
    let mut b = next;
    let mut from = 0;
    let mut row = 0;
    for p in chains {
        // Field by field: a whole `Next` is copied with its padding, and that waits for the stores before it.
        let c = put_chain_sites(out, b, numbers, rows, p, from, row);
        b = Next {
            at: c.at,
            first: c.first,
        };
        from += p.count as usize;
        row += p.float_count as usize;
    }
    b
}
