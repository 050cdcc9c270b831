// What a line has after its text, from what is noted of its chains: the blocks of labels, marks and site lists, and the trailer. The marks
// and sums of all chains are those of `chain_marks`, the site lists those of `chain_sites`.
ghost use Rattle.std.specs.Prelude.{◌≡◌, true, [], ◌≤◌, take};
ghost use Rattle.writer.specs.emit.Text.{Written};
ghost use Rattle.reading_rules.specs.reading.Show.{label_blocks, swap_texts, block_texts, trailer_texts};
ghost use Rattle.template_rules.specs.Drawn.{labels};
ghost use Rattle.line_parts.specs.shown.Chained.{shown_parts};
ghost use Rattle.line_parts.specs.shown.Notes.{labels_of, Digits};
ghost use Rattle.line_blocks.specs.chain_marks.Put.{start_at, PutBlocks, PutParts};
ghost use Rattle.line_blocks.specs.chain_marks.Marks.{marks_in, sums_in};
ghost use Rattle.line_blocks.specs.chain_sites.Sites.{site_lists_in};
ghost use Rattle.line_blocks.specs.blocks.Notes.{barred, notes_text, labelled_of, Plain};

use super::chain_marks::Next;
use super::{chain_marks, chain_sites};
use drawn_chain::MAX_CHAINS;
use line_parts::{MAX_SITES, Site};
use placement::Placed;

// How many sites have a label: all where they may be exchanged and there are two or more, else none.
fn labelled(swap: bool, sited: usize) -> usize
    ensures { result ≡ labelled_of swap sited }
{
    if swap {
        if 1 < sited {
            return sited;
        }
        return 0;
    }
    0
}

// The labels of the first n sites, before all other blocks.
fn put_labels(out: &mut [u8], at: usize, sites: [Site; MAX_SITES], n: usize) -> Next
    requires n_bound { n ≤ 4 }
    requires digits { Digits (take n sites) }
    ensures { PutBlocks (label_blocks (labels_of (take n sites))) out.old (start_at at) out.new result }
{
    let next = sn_labels::put_label_block(out, at, true, sites, n);
    Next {
        at: next,
        first: n == 0,
    }
}

// The same labels as those that may be exchanged, before the sums.
fn put_swaps(out: &mut [u8], at: usize, sites: [Site; MAX_SITES], n: usize) -> Next
    requires n_bound { n ≤ 4 }
    requires digits { Digits (take n sites) }
    ensures { PutParts (swap_texts (labels_of (take n sites))) out.old (start_at at) out.new result }
{
    let next = sn_labels::put_swappable(out, at, true, sites, n);
    Next {
        at: next,
        first: n == 0,
    }
}

// Whether no chain has marks, site lists or a sum, as in most lines.
fn plain(notes: &[Placed; MAX_CHAINS], count: usize) -> bool
    ensures { Plain (take count notes.now) result }
{
    let n = request_chains::in_places(count);
    let chains = &notes[..n];
    for p in chains {
        if 0 < p.unlocated {
            return false;
        }
        if 0 < p.float_count {
            return false;
        }
    }
    true
}

// What such a line has after its text: labels, where there are some.
fn put_plain(out: &mut [u8], at: usize, sites: [Site; MAX_SITES], n: usize) -> usize
    requires n_bound { n ≤ 4 }
    requires digits { Digits (take n sites) }
    ensures { Written out.old at (notes_text (labels_of (take n sites)) [] [] []) out.new result }
{
    if n == 0 {
        return at;
    }
    let a = put_labels(out, at, sites, n);
    let end = line_parts::put_blocks_end(out, a.at, !a.first);
    let b = put_swaps(out, end, sites, n);
    b.at
}

// All blocks.
fn put_block_texts(
    out: &mut [u8],
    at: usize,
    sites: [Site; MAX_SITES],
    n: usize,
    numbers: &[u16],
    rows: &[u8],
    notes: &[Placed; MAX_CHAINS],
    count: usize,
) -> Next
    requires n_bound { n ≤ 4 }
    requires digits { Digits (take n sites) }
    ensures { PutBlocks (block_texts (labels_of (take n sites)) (marks_in (take count notes.now)) (site_lists_in (take count notes.now) numbers.now rows.now)) out.old (start_at at) out.new result }
{
    let a = put_labels(out, at, sites, n);
    let b = chain_marks::put_all_marks(out, a, notes, count);
    chain_sites::put_all_sites(out, b, numbers, rows, notes, count)
}

// The blocks and the bar after them.
fn put_blocks(
    out: &mut [u8],
    at: usize,
    sites: [Site; MAX_SITES],
    n: usize,
    numbers: &[u16],
    rows: &[u8],
    notes: &[Placed; MAX_CHAINS],
    count: usize,
) -> usize
    requires n_bound { n ≤ 4 }
    requires digits { Digits (take n sites) }
    ensures { Written out.old at (barred (block_texts (labels_of (take n sites)) (marks_in (take count notes.now)) (site_lists_in (take count notes.now) numbers.now rows.now))) out.new result }
{
    let b = put_block_texts(out, at, sites, n, numbers, rows, notes, count);
    line_parts::put_blocks_end(out, b.at, !b.first)
}

// The trailer.
fn put_trailer(
    out: &mut [u8],
    at: usize,
    sites: [Site; MAX_SITES],
    n: usize,
    notes: &[Placed; MAX_CHAINS],
    count: usize,
) -> usize
    requires n_bound { n ≤ 4 }
    requires digits { Digits (take n sites) }
    ensures { Written out.old at (shown_parts true (trailer_texts (labels_of (take n sites)) (sums_in (take count notes.now)))) out.new result }
{
    let a = put_swaps(out, at, sites, n);
    let b = chain_marks::put_all_sums(out, a, notes, count);
    b.at
}

// What a line has after its text: the sites are those that may have a label, by rising sn.
pub fn put_notes(
    out: &mut [u8],
    at: usize,
    swap: bool,
    sites: [Site; MAX_SITES],
    sited: usize,
    numbers: &[u16],
    rows: &[u8],
    notes: &[Placed; MAX_CHAINS],
    count: usize,
) -> usize
    requires sited_bound { sited ≤ 4 }
    requires digits { Digits (take sited sites) }
    ensures { Written out.old at (notes_text (labels swap (labels_of (take sited sites))) (marks_in (take count notes.now)) (site_lists_in (take count notes.now) numbers.now rows.now) (sums_in (take count notes.now))) out.new result }
{
    let n = labelled(swap, sited);
    if plain(notes, count) {
        return put_plain(out, at, sites, n);
    }
    let next = put_blocks(out, at, sites, n, numbers, rows, notes, count);
    put_trailer(out, next, sites, n, notes, count)
}
