// The line of a class: its template, and what follows the text. The chains are put in order by sn once; their sites are made once.
ghost use Rattle.request_chains.specs.chain_shapes.Shapes.{chains_lent};
ghost use Rattle.line_builder.specs.Build.{rooms};
ghost use Rattle.class_lines.specs.lines.Line.{Writable, LineBuilt};

use chain_lists::{Rising, Sites};
use drawn_chain::MAX_CHAINS;
use placement::Placed;
use request_chains::Chains;
use template_rules::Class;

// A line that is written: its length, how many indices its chains have, how many chains there are, their places by rising sn, and its sites.
// The builder itself is left behind: what comes back is only what is asked for.
#[derive(Clone, Copy)]
pub struct Line {
    pub at: usize,
    pub used: usize,
    pub count: usize,
    pub order: Rising,
    pub sites: Sites,
}

// The line of a class, with the chains of the request. The indices of the chains and the rows of their floating groups are written to slices of
// their own, from which the site lists are made; where each chain stands is noted in an array. Both slices need room for all of them.
pub fn build_line(
    out: &mut [u8],
    index: &mut [u16],
    rows: &mut [u8],
    notes: &mut [Placed; MAX_CHAINS],
    class: Class,
    swap: bool,
    tail: &[u8],
    tail_atoms: u16,
    chains: Chains,
) -> Line
    requires { Writable class tail.now tail_atoms (chains_lent chains) (rooms out.old index.old rows.old notes.old) }
    ensures { LineBuilt class swap tail.now tail_atoms (chains_lent chains.entry) (rooms out.old index.old rows.old notes.old) (rooms out.new index.new rows.new notes.new) result }
{
    let b = class_templates::class_smiles(out, index, rows, notes, class, tail, tail_atoms, chains);
    let order = chain_lists::by_sn(notes, b.count);
    let sites = chain_lists::sites_by_sn(notes, order);
    let c = b.finish(out, swap, sites, index, rows, notes);
    Line {
        at: c.at,
        used: c.used,
        count: c.count,
        order,
        sites,
    }
}
