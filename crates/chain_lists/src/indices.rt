// The index lists of a line, end to end by rising sn. The indices of its chains stand end to end in the order of the text; the part of each
// chain is copied from there. A writer of the kind of `writer::emit`: it stores nothing past the end and counts on.
ghost use Rattle.std.specs.Prelude.{◌≤◌, take, drop};
ghost use Rattle.writer.specs.emit.Text.{Written};
ghost use Rattle.chain_lists.specs.rising.Order.{places_in};
ghost use Rattle.chain_lists.specs.indices.Index.{indices_at, Starts};

use super::rising::Rising;
use drawn_chain::MAX_CHAINS;
use placement::Placed;

// Where the part of the chain at a place starts: behind those of the chains before it.
fn start_of(notes: &[Placed; MAX_CHAINS], place: usize) -> usize
    ensures { Starts notes.now place result }
{
    let n = request_chains::in_places(place);
    let before = &notes[..n];
    let mut sum = 0;
    for p in before {
        sum += p.count as usize;
    }
    sum
}

// So many numbers from a place on, as far as there are any.
fn put_part(out: &mut [u16], at: usize, numbers: &[u16], from: usize, count: usize) -> usize
    requires { (from ≤ 262140) × (count ≤ 65535) }
    ensures { Written out.old at (take count (drop from numbers.now)) out.new result }
{
    let n = numbers.len();
    let end = from + count;
    if end <= n {
        return writer::copy_indices(out, at, &numbers[from..end]);
    }
    if from <= n {
        return writer::copy_indices(out, at, &numbers[from..n]);
    }
    at
}

// The parts of the chains at some places.
pub fn write_indices(
    out: &mut [u16],
    numbers: &[u16],
    notes: &[Placed; MAX_CHAINS],
    order: Rising,
) -> usize
    ensures { Written out.old 0 (indices_at notes.now numbers.now (places_in order)) out.new result }
{
    let n = request_chains::in_places(order.count);
    let places = &order.items[..n];
    let mut q = 0;
    for place in places {
        let k = *place as usize;
        if k < MAX_CHAINS {
            let from = start_of(notes, k);
            q = put_part(out, q, numbers, from, notes[k].count as usize);
        }
    }
    q
}
