// The builder of a line. It goes in and comes back by value: the places in the lent slices, and three counters that run through the template.
// Texts go to the line at once, and so do the indices of each chain, the rows of its floating groups and where it stands to slices of their
// own; marks, sites and sums are numbers until the line is finished. On empty slices the same functions measure. What is built is said
// by the definitions of `template_rules` (crates/template_rules/specs); what a push adds, by specs/Build.antt.
#![tactic(auto)]

ghost use Rattle.std.specs.Prelude.{◌≡◌};
ghost use Rattle.drawn_chain.specs.drawable.Drawn.{drawn_of};
ghost use Rattle.request_chains.specs.chain_shapes.Shapes.{chains_lent};
ghost use Rattle.placement.specs.chain_strand.Strand.{Carried};
ghost use Rattle.line_builder.specs.Build.{rooms, plus, in_labels, variables_for, Fresh, FixedPushed, FragmentPushed, placed_of, Settled, StandsSome, ChainPushed, SlotFits, SlotPushed, BareFits, BarePushed};
ghost use Rattle.line_builder.specs.Line.{Few, Finished};

use chain_indices::Figures;
use chain_lists::Sites;
use chain_rules::Role;
use drawn_chain::{Lists, MAX_CHAINS, NO_LISTS, Shape, find_part};
use placement::{Placed, Strand};
use request_chains::Chains;

// The first ring label of a line is `%10`.
pub const FIRST_LABEL: u32 = 10;

// Three counters, each of a type of its own, so that none is added to another.
#[derive(Clone, Copy)]
pub struct Atoms(pub u32);

#[derive(Clone, Copy)]
pub struct Variables(pub u32);

#[derive(Clone, Copy)]
pub struct Labels(pub u32);

// The places in the slice of the indices, in the line and in the slice of the rows; the counters; and how many chains stand there. Where each of
// them stands is noted in a lent array. What a text leaves as it is does not stand side by side: two such fields are copied as one, and that
// waits for the stores of both.
#[derive(Drop)]
pub struct Builder {
    pub used: usize,
    pub at: usize,
    pub rows: usize,
    pub variables: Variables,
    pub atoms: Atoms,
    pub labels: Labels,
    pub count: usize,
}

// A count stays at the largest number.
fn more(a: u32, n: u32) -> u32
    ensures { result ≡ plus a n }
{
    if n <= 4294967295 - a {
        return a + n;
    }
    4294967295
}

impl Atoms {
    fn plus(self, n: u32) -> Atoms
        ensures { result.0 ≡ plus self.0 n }
    {
        Atoms(more(self.0, n))
    }
}

impl Variables {
    fn plus(self, n: u32) -> Variables
        ensures { result.0 ≡ plus self.0 n }
    {
        Variables(more(self.0, n))
    }
}

impl Labels {
    fn plus(self, n: u32) -> Labels
        ensures { result.0 ≡ plus self.0 n }
    {
        Labels(more(self.0, n))
    }
}

// The variables that n double bonds without a position take.
fn variables_for(n: u16) -> u32
    ensures { result ≡ variables_for n }
{
    if n == 0 {
        return 0;
    }
    n as u32 + 1
}

// A label as the writer of a chain takes it.
fn in_labels(label: u32) -> u8
    ensures { result ≡ in_labels label }
{
    if label < 247 {
        return label as u8;
    }
    247
}

impl Builder {
    pub fn new() -> Builder
        ensures { Fresh result }
    {
        Builder {
            at: 0,
            atoms: Atoms(0),
            variables: Variables(0),
            labels: Labels(FIRST_LABEL),
            used: 0,
            rows: 0,
            count: 0,
        }
    }

    // A text of the template's own, or its tail, with the number of its atoms.
    pub fn push_fixed(mut self, out: &mut [u8], text: &[u8], atoms: u16) -> Builder
        ensures { FixedPushed text.now atoms out.old self out.new result }
    {
        let at = self.at;
        let next = writer::put_all(out, at, text);
        let a = self.atoms;
        let sum = a.plus(atoms as u32);
        self.at = next;
        self.atoms = sum;
        self
    }

    // A chain that was laid down from here on: the places after it, its atoms, variables and labels, and where it stands, noted while there is
    // room.
    fn settle(
        mut self,
        notes: &mut [Placed; MAX_CHAINS],
        sn: u8,
        role: Role,
        site: u32,
        laid: Strand,
        own: Figures,
    ) -> Builder
        ensures { Settled (placed_of self sn role site laid own) laid own notes.old self notes.new result }
    {
        let a = self.atoms;
        let v = self.variables;
        let l = self.labels;
        let i = self.count;
        placement::note(
            notes,
            i,
            Placed {
                sn,
                role,
                first: a.0,
                site,
                variable: v.0,
                count: laid.count,
                acyl: own.acyl,
                unlocated: own.unlocated,
                flexible: laid.flexible,
                floats: laid.floats,
                total: own.total,
                float_count: own.float_count,
            },
        );
        let atoms = a.plus(laid.end as u32);
        let variables = v.plus(variables_for(own.unlocated));
        let labels = l.plus(own.rings as u32);
        self.at = laid.at;
        self.used = laid.used;
        self.rows = laid.rows;
        self.atoms = atoms;
        self.variables = variables;
        self.labels = labels;
        if i < MAX_CHAINS {
            self.count = i + 1;
            return self;
        }
        self
    }

    // A chain that has carbons, at its place: its text with the labels that are next, its indices and rows, its counts, and where it stands.
    fn push_fragment(
        mut self,
        out: &mut [u8],
        index: &mut [u16],
        rows: &mut [u8],
        notes: &mut [Placed; MAX_CHAINS],
        x: Shape,
        part: &Lists,
        sn: u8,
        role: Role,
        site: u32,
    ) -> Builder
        requires { Carried role (drawn_of x part.now) }
        ensures { FragmentPushed (drawn_of x part.now) sn role site (rooms out.old index.old rows.old notes.old) self (rooms out.new index.new rows.new notes.new) result }
    {
        let a = self.atoms;
        let l = self.labels;
        let label = in_labels(l.0);
        let laid = placement::put_strand(
            out, index, rows, self.at, self.used, self.rows, x, part, role, a.0, label,
        );
        let own = chain_indices::figures_of(x, part);
        self = self.settle(notes, sn, role, site, laid, own);
        self
    }

    // Such a chain without lists of its own. They are made here, and not before it is known that there are none, since they are many.
    fn push_unlisted(
        self,
        out: &mut [u8],
        index: &mut [u16],
        rows: &mut [u8],
        notes: &mut [Placed; MAX_CHAINS],
        x: Shape,
        sn: u8,
        role: Role,
        site: u32,
    ) -> Builder
        requires { Carried role (drawn_of x NO_LISTS) }
        ensures { FragmentPushed (drawn_of x NO_LISTS) sn role site (rooms out.old index.old rows.old notes.old) self (rooms out.new index.new rows.new notes.new) result }
    {
        let none = NO_LISTS;
        self.push_fragment(out, index, rows, notes, x, &none, sn, role, site)
    }

    // The chain of an sn of the request at its place; nothing where it has no carbons. It is read here, and not in each template, so that no
    // shape is handed on from there and the code that reads it stands once.
    fn push_chain(
        self,
        out: &mut [u8],
        index: &mut [u16],
        rows: &mut [u8],
        notes: &mut [Placed; MAX_CHAINS],
        chains: Chains,
        sn: u8,
        role: Role,
        site: u32,
    ) -> Builder
        requires { StandsSome role (chains_lent chains) sn }
        ensures { ChainPushed (chains_lent chains.entry) sn role site (rooms out.old index.old rows.old notes.old) self (rooms out.new index.new rows.new notes.new) result }
    {
        let x = chains.shape_at(sn);
        if x.carbon == 0 {
            return self;
        }
        match find_part(chains.lists, sn) {
            Some(part) => self.push_fragment(out, index, rows, notes, x, part, sn, role, site),
            None => self.push_unlisted(out, index, rows, notes, x, sn, role, site),
        }
    }

    // A slot: its O, which is the site, and its chain.
    pub fn push_slot(
        self,
        out: &mut [u8],
        index: &mut [u16],
        rows: &mut [u8],
        notes: &mut [Placed; MAX_CHAINS],
        chains: Chains,
        sn: u8,
    ) -> Builder
        requires { SlotFits (chains_lent chains) sn notes.old self }
        ensures { SlotPushed (chains_lent chains.entry) sn (rooms out.old index.old rows.old notes.old) self (rooms out.new index.new rows.new notes.new) result }
    {
        let a = self.atoms;
        let site = a.0;
        let b = self.push_fixed(out, b"O", 1);
        b.push_chain(out, index, rows, notes, chains, sn, Role::Slot, site)
    }

    // A chain that stands without an O: its first atom is its site.
    pub fn push_bare(
        self,
        out: &mut [u8],
        index: &mut [u16],
        rows: &mut [u8],
        notes: &mut [Placed; MAX_CHAINS],
        chains: Chains,
        sn: u8,
        role: Role,
    ) -> Builder
        requires { BareFits (chains_lent chains) sn role notes.old self }
        ensures { BarePushed (chains_lent chains.entry) sn role (rooms out.old index.old rows.old notes.old) self (rooms out.new index.new rows.new notes.new) result }
    {
        let a = self.atoms;
        self.push_chain(out, index, rows, notes, chains, sn, role, a.0)
    }

    // What follows the text: the labels of the sites, marks and site lists, what may be exchanged, and the sums. The site lists are read from the
    // indices and rows of the chains.
    pub fn finish(
        mut self,
        out: &mut [u8],
        swap: bool,
        sites: Sites,
        index: &[u16],
        rows: &[u8],
        notes: &[Placed; MAX_CHAINS],
    ) -> Builder
        requires { Few sites }
        ensures { Finished swap sites index.now rows.now notes.now out.old self out.new result }
    {
        let items = sites.items;
        let at = line_blocks::put_notes(
            out,
            self.at,
            swap,
            items,
            sites.count,
            index,
            rows,
            notes,
            self.count,
        );
        self.at = at;
        self
    }
}
