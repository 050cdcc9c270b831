// Whether the slices of a request have room for its line and its indices, before anything is written to them. Most callers lend more than the
// longest line with such chains takes; where they do not, the line is measured. Whether a slice is too short is said by
// specs/answer/Answer.antt.
ghost use Rattle.std.specs.Prelude.{length};
ghost use Rattle.request_chains.specs.chain_shapes.Shapes.{chains_lent};
ghost use Rattle.answers.specs.room.Ready.{Readied, ShortIs, AmpleIf};

use class_lines::Line;
use drawn_chain::MAX_CHAINS;
use request_chains::Chains;
use template_rules::Class;

// Room for the indices of four chains.
pub const INDEX_ROOM: usize = 1020;

// Room for the rows of their floating groups.
pub const ROW_ROOM: usize = 64;

// Whether both slices are longer than any line and lists with such chains. In most requests no chain is long: then one look at each chain is
// enough where the slice is as long as four such chains need, and no length is computed.
fn is_ample(line: &[u8], index: &[u16], tail: &[u8], tail_atoms: u16, chains: Chains) -> bool
    ensures { AmpleIf result tail.now tail_atoms chains.entry.count chains.entry.shapes.now (length line.now) (length index.now) }
{
    if index.len() < INDEX_ROOM {
        return false;
    }
    if class_lines::slight_most(tail, tail_atoms) <= line.len() {
        if class_lines::are_slight(chains.count, chains.shapes) {
            return true;
        }
    }
    class_lines::line_most(tail, tail_atoms, chains.count, chains.shapes) <= line.len()
}

// Whether a slice is too short, by building the line without room for its text.
fn is_measured_short(
    line: &[u8],
    index: &[u16],
    class: Class,
    swap: bool,
    tail: &[u8],
    tail_atoms: u16,
    chains: Chains,
) -> bool
    requires { Readied class tail.now tail_atoms (chains_lent chains) }
    ensures { ShortIs class swap tail.now tail_atoms (chains_lent chains.entry) (length line.now) (length index.now) result }
{
    let mut text = [0u8; 1];
    let mut numbers = [0u16; INDEX_ROOM];
    let mut rows = [0u8; ROW_ROOM];
    let mut notes = [placement::nowhere(); MAX_CHAINS];
    let built = class_lines::build_line(
        &mut text,
        &mut numbers,
        &mut rows,
        &mut notes,
        class,
        swap,
        tail,
        tail_atoms,
        chains,
    );
    if line.len() < built.at {
        return true;
    }
    index.len() < built.used
}

// Whether a slice is too short for a request. Of both only the lengths are looked at.
pub fn is_short(
    line: &[u8],
    index: &[u16],
    class: Class,
    swap: bool,
    tail: &[u8],
    tail_atoms: u16,
    chains: Chains,
) -> bool
    requires { Readied class tail.now tail_atoms (chains_lent chains) }
    ensures { ShortIs class swap tail.now tail_atoms (chains_lent chains.entry) (length line.now) (length index.now) result }
{
    if is_ample(line, index, tail, tail_atoms, chains) {
        return false;
    }
    is_measured_short(line, index, class, swap, tail, tail_atoms, chains)
}
