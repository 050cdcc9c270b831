// The templates of the classes, each as 01 writes it: texts of its own, slots and chains, in the order of the text. A chain is named by its sn;
// the builder takes it from those of the request. Text, indices and counters afterwards are those of `template_rules`. Nothing is refused.
#![tactic(auto)]

ghost use Rattle.template_rules.specs.declared.Class.TheVariants.{Fa, Gp, Cl, Sb, Sa};
ghost use Rattle.template_rules.specs.Template.{elements, glycerol, role_of};
ghost use Rattle.request_chains.specs.chain_shapes.Shapes.{chains_lent};
ghost use Rattle.line_builder.specs.Build.{rooms};
ghost use Rattle.class_templates.specs.Templates.{all_slots, FilledTailless, Tailless, TailOf, FilledTailed, Tailed};
ghost use Rattle.class_templates.specs.Classes.{Classed, ClassBuilt};

use chain_rules::Role;
use drawn_chain::MAX_CHAINS;
use line_builder::Builder;
use placement::Placed;
use request_chains::Chains;
use template_rules::Class;

// FA: `O`, chain.
fn fa_smiles(
    out: &mut [u8],
    index: &mut [u16],
    rows: &mut [u8],
    notes: &mut [Placed; MAX_CHAINS],
    chains: Chains,
) -> Builder
    requires { FilledTailless (elements Fa) (role_of Fa) (chains_lent chains) }
    ensures { Tailless (elements Fa) (role_of Fa) (chains_lent chains.entry) (rooms out.old index.old rows.old notes.old) (rooms out.new index.new rows.new notes.new) result }
{
    let a = Builder::new();
    let b = a.push_fixed(out, b"O", 1);
    b.push_bare(out, index, rows, notes, chains, 1, Role::Acyl)
}

// GL1, GL2, GL3: `C(C`S3`)(`S2`)C`S1.
fn glycerolipid_smiles(
    out: &mut [u8],
    index: &mut [u16],
    rows: &mut [u8],
    notes: &mut [Placed; MAX_CHAINS],
    chains: Chains,
) -> Builder
    requires { FilledTailless glycerol all_slots (chains_lent chains) }
    ensures { Tailless glycerol all_slots (chains_lent chains.entry) (rooms out.old index.old rows.old notes.old) (rooms out.new index.new rows.new notes.new) result }
{
    let a = Builder::new();
    let b = a.push_fixed(out, b"C(C", 2);
    let c = b.push_slot(out, index, rows, notes, chains, 3);
    let d = c.push_fixed(out, b")(", 0);
    let e = d.push_slot(out, index, rows, notes, chains, 2);
    let f = e.push_fixed(out, b")C", 1);
    f.push_slot(out, index, rows, notes, chains, 1)
}

// GP: `C(C`tail`)(`S2`)C`S1.
fn gpl_smiles(
    out: &mut [u8],
    index: &mut [u16],
    rows: &mut [u8],
    notes: &mut [Placed; MAX_CHAINS],
    tail: &[u8],
    tail_atoms: u16,
    chains: Chains,
) -> Builder
    requires tail_of { TailOf tail.now tail_atoms }
    requires filled_tailed { FilledTailed tail.now (elements Gp) (role_of Gp) (chains_lent chains) }
    ensures { Tailed tail.now (elements Gp) (role_of Gp) (chains_lent chains.entry) (rooms out.old index.old rows.old notes.old) (rooms out.new index.new rows.new notes.new) result }
{
    let a = Builder::new();
    let b = a.push_fixed(out, b"C(C", 2);
    let c = b.push_fixed(out, tail, tail_atoms);
    let d = c.push_fixed(out, b")(", 0);
    let e = d.push_slot(out, index, rows, notes, chains, 2);
    let f = e.push_fixed(out, b")C", 1);
    f.push_slot(out, index, rows, notes, chains, 1)
}

// CL: `C(COP(=O)(O)OCC(`S2`)C`S1`)(O)COP(=O)(O)OCC(`S4`)C`S3.
fn cl_smiles(
    out: &mut [u8],
    index: &mut [u16],
    rows: &mut [u8],
    notes: &mut [Placed; MAX_CHAINS],
    chains: Chains,
) -> Builder
    requires { FilledTailless (elements Cl) (role_of Cl) (chains_lent chains) }
    ensures { Tailless (elements Cl) (role_of Cl) (chains_lent chains.entry) (rooms out.old index.old rows.old notes.old) (rooms out.new index.new rows.new notes.new) result }
{
    let a = Builder::new();
    let b = a.push_fixed(out, b"C(COP(=O)(O)OCC(", 9);
    let c = b.push_slot(out, index, rows, notes, chains, 2);
    let d = c.push_fixed(out, b")C", 1);
    let e = d.push_slot(out, index, rows, notes, chains, 1);
    let f = e.push_fixed(out, b")(O)COP(=O)(O)OCC(", 9);
    let g = f.push_slot(out, index, rows, notes, chains, 4);
    let h = g.push_fixed(out, b")C", 1);
    h.push_slot(out, index, rows, notes, chains, 3)
}

// SB: `C(C`tail`)(N)`base from C3.
fn sphingoid_smiles(
    out: &mut [u8],
    index: &mut [u16],
    rows: &mut [u8],
    notes: &mut [Placed; MAX_CHAINS],
    tail: &[u8],
    tail_atoms: u16,
    chains: Chains,
) -> Builder
    requires tail_of { TailOf tail.now tail_atoms }
    requires filled_tailed { FilledTailed tail.now (elements Sb) (role_of Sb) (chains_lent chains) }
    ensures { Tailed tail.now (elements Sb) (role_of Sb) (chains_lent chains.entry) (rooms out.old index.old rows.old notes.old) (rooms out.new index.new rows.new notes.new) result }
{
    let a = Builder::new();
    let b = a.push_fixed(out, b"C(C", 2);
    let c = b.push_fixed(out, tail, tail_atoms);
    let d = c.push_fixed(out, b")(N)", 1);
    d.push_bare(out, index, rows, notes, chains, 1, Role::Base)
}

// SA: `C(C`tail`)(N`acyl`)`base from C3.
fn acyl_sphingoid_smiles(
    out: &mut [u8],
    index: &mut [u16],
    rows: &mut [u8],
    notes: &mut [Placed; MAX_CHAINS],
    tail: &[u8],
    tail_atoms: u16,
    chains: Chains,
) -> Builder
    requires tail_of { TailOf tail.now tail_atoms }
    requires filled_tailed { FilledTailed tail.now (elements Sa) (role_of Sa) (chains_lent chains) }
    ensures { Tailed tail.now (elements Sa) (role_of Sa) (chains_lent chains.entry) (rooms out.old index.old rows.old notes.old) (rooms out.new index.new rows.new notes.new) result }
{
    let a = Builder::new();
    let b = a.push_fixed(out, b"C(C", 2);
    let c = b.push_fixed(out, tail, tail_atoms);
    let d = c.push_fixed(out, b")(N", 1);
    let e = d.push_bare(out, index, rows, notes, chains, 2, Role::Acyl);
    let f = e.push_fixed(out, b")", 0);
    f.push_bare(out, index, rows, notes, chains, 1, Role::Base)
}

// The template of a class, with the chains of the request.
pub fn class_smiles(
    out: &mut [u8],
    index: &mut [u16],
    rows: &mut [u8],
    notes: &mut [Placed; MAX_CHAINS],
    class: Class,
    tail: &[u8],
    tail_atoms: u16,
    chains: Chains,
) -> Builder
    requires { Classed class tail.now tail_atoms (chains_lent chains) }
    ensures { ClassBuilt class tail.now tail_atoms (chains_lent chains.entry) (rooms out.old index.old rows.old notes.old) (rooms out.new index.new rows.new notes.new) result }
{
    match class {
        Class::Fa => fa_smiles(out, index, rows, notes, chains),
        Class::Gl1 => glycerolipid_smiles(out, index, rows, notes, chains),
        Class::Gl2 => glycerolipid_smiles(out, index, rows, notes, chains),
        Class::Gl3 => glycerolipid_smiles(out, index, rows, notes, chains),
        Class::Gp => gpl_smiles(out, index, rows, notes, tail, tail_atoms, chains),
        Class::Cl => cl_smiles(out, index, rows, notes, chains),
        Class::Sb => sphingoid_smiles(out, index, rows, notes, tail, tail_atoms, chains),
        Class::Sa => acyl_sphingoid_smiles(out, index, rows, notes, tail, tail_atoms, chains),
    }
}
