// A request that was judged, drawn: its line and its index lists, or 41 where a slice is too short for them. The answer, and what both slices
// hold afterwards, are said by specs/answer/Answer.antt of `answers`.
#![tactic(auto)]

ghost use Rattle.std.specs.Prelude.{◌≡◌, false, length};
ghost use Rattle.request_chains.specs.chain_shapes.Shapes.{chains_lent};
ghost use Rattle.class_lines.specs.longest.Covered.{Slight};
ghost use Rattle.answers.specs.room.Ready.{Readied, ShortIs};
ghost use Rattle.drawing.specs.Draw.{ChainsDrawn, IndexRoom};

use answers::{Answer, INDEX_ROOM, ROW_ROOM, refused_for};
use chain_record::Refusal;
use class_lines::Line;
use drawn_chain::MAX_CHAINS;
use request_chains::Chains;
use template_rules::Class;

// Room for the indices of four chains that are not long, with some to spare: near the end of the slice a chain is written the slow way.
const SLIGHT_ROOM: usize = 128;

// Room for the rows of the floating groups of one chain.
const ROW_MOST: usize = 16;

// A request of one token, whose line and indices fit: both are built where they are to stand, since the indices of one chain are the whole
// list.
fn draw_one(
    line: &mut [u8],
    index: &mut [u16],
    class: Class,
    swap: bool,
    tail: &[u8],
    tail_atoms: u16,
    chains: Chains,
) -> Answer
    requires readied { Readied class tail.now tail_atoms (chains_lent chains) }
    requires count_value { chains.count ≡ 1 }
    requires short_is { ShortIs class swap tail.now tail_atoms (chains_lent chains) (length line.old) (length index.old) false }
    ensures { ChainsDrawn class swap tail.now tail_atoms (chains_lent chains.entry) line.old index.old line.new index.new result }
{
    let mut rows = [0u8; ROW_MOST];
    let mut notes = [placement::nowhere(); MAX_CHAINS];
    let built = class_lines::build_line(
        line, index, &mut rows, &mut notes, class, swap, tail, tail_atoms, chains,
    );
    let order = built.order;
    let sites = built.sites;
    let listed = chain_lists::lists_by_sn(&notes, order);
    Answer {
        number: 0,
        token: 0,
        length: built.at,
        lists: listed,
        sites,
    }
}

// A request whose line and indices fit: the line is built where it is to stand, the indices in numbers of their own, and then copied by
// rising sn.
fn draw_some(
    line: &mut [u8],
    index: &mut [u16],
    numbers: &mut [u16],
    class: Class,
    swap: bool,
    tail: &[u8],
    tail_atoms: u16,
    chains: Chains,
) -> Answer
    requires readied { Readied class tail.now tail_atoms (chains_lent chains) }
    requires index_room { IndexRoom class tail.now tail_atoms (chains_lent chains) (length numbers.old) }
    requires short_is { ShortIs class swap tail.now tail_atoms (chains_lent chains) (length line.old) (length index.old) false }
    ensures { ChainsDrawn class swap tail.now tail_atoms (chains_lent chains.entry) line.old index.old line.new index.new result }
{
    let mut rows = [0u8; ROW_ROOM];
    let mut notes = [placement::nowhere(); MAX_CHAINS];
    let built = class_lines::build_line(
        line, numbers, &mut rows, &mut notes, class, swap, tail, tail_atoms, chains,
    );
    let order = built.order;
    let sites = built.sites;
    let listed = chain_lists::lists_by_sn(&notes, order);
    let end = chain_lists::write_indices(index, numbers, &notes, order);
    Answer {
        number: 0,
        token: 0,
        length: built.at,
        lists: listed,
        sites,
    }
}

// Chains of which none is long take little room.
fn draw_slight(
    line: &mut [u8],
    index: &mut [u16],
    class: Class,
    swap: bool,
    tail: &[u8],
    tail_atoms: u16,
    chains: Chains,
) -> Answer
    requires readied { Readied class tail.now tail_atoms (chains_lent chains) }
    requires slight { Slight 30 chains.count chains.shapes.now }
    requires short_is { ShortIs class swap tail.now tail_atoms (chains_lent chains) (length line.old) (length index.old) false }
    ensures { ChainsDrawn class swap tail.now tail_atoms (chains_lent chains.entry) line.old index.old line.new index.new result }
{
    let mut numbers = [0u16; SLIGHT_ROOM];
    draw_some(
        line,
        index,
        &mut numbers,
        class,
        swap,
        tail,
        tail_atoms,
        chains,
    )
}

// Others have room for four of the longest.
fn draw_long(
    line: &mut [u8],
    index: &mut [u16],
    class: Class,
    swap: bool,
    tail: &[u8],
    tail_atoms: u16,
    chains: Chains,
) -> Answer
    requires readied { Readied class tail.now tail_atoms (chains_lent chains) }
    requires short_is { ShortIs class swap tail.now tail_atoms (chains_lent chains) (length line.old) (length index.old) false }
    ensures { ChainsDrawn class swap tail.now tail_atoms (chains_lent chains.entry) line.old index.old line.new index.new result }
{
    let mut numbers = [0u16; INDEX_ROOM];
    draw_some(
        line,
        index,
        &mut numbers,
        class,
        swap,
        tail,
        tail_atoms,
        chains,
    )
}

// A request that was judged, drawn: the arrays hold what was made of its tokens. Nothing is written where a slice is too short.
pub fn draw_chains(
    line: &mut [u8],
    index: &mut [u16],
    class: Class,
    swap: bool,
    tail: &[u8],
    tail_atoms: u16,
    chains: Chains,
) -> Answer
    requires { Readied class tail.now tail_atoms (chains_lent chains) }
    ensures { ChainsDrawn class swap tail.now tail_atoms (chains_lent chains.entry) line.old index.old line.new index.new result }
{
    let short = answers::is_short(line, index, class, swap, tail, tail_atoms, chains);
    if short {
        return refused_for(Refusal::ShortSlice, 0);
    }
    if chains.count == 1 {
        return draw_one(line, index, class, swap, tail, tail_atoms, chains);
    }
    if class_lines::are_slight(chains.count, chains.shapes) {
        return draw_slight(line, index, class, swap, tail, tail_atoms, chains);
    }
    draw_long(line, index, class, swap, tail, tail_atoms, chains)
}
