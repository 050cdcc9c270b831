// Where each of the chains of a request stands in its line.
ghost use Rattle.std.specs.Prelude.{◌≡◌, set, slice_index_or};
ghost use Rattle.placement.specs.chain_notes.Notes.{nowhere};

use chain_rules::Role;
use drawn_chain::MAX_CHAINS;

// Where a chain stands and what is kept of it: its first atom, the atom that is its site (a base has none, and its first atom stands there), its
// first variable, how many indices it has, those of the template among them; whether it is acyl, its double bonds without a position; the atoms
// of its first flexible carbon and of its first floating group, both counted from its first; what its variables add up to, and how many
// groups float.
#[derive(Clone, Copy)]
pub struct Placed {
    pub sn: u8,
    pub role: Role,
    pub first: u32,
    pub site: u32,
    pub variable: u32,
    pub count: u16,
    pub acyl: bool,
    pub unlocated: u16,
    pub flexible: u16,
    pub floats: u16,
    pub total: u16,
    pub float_count: u16,
}

// Past the last chain.
pub fn nowhere() -> Placed
    ensures { result ≡ nowhere }
{
    Placed {
        sn: 0,
        role: Role::Slot,
        first: 0,
        site: 0,
        variable: 0,
        count: 0,
        acyl: false,
        unlocated: 0,
        flexible: 0,
        floats: 0,
        total: 0,
        float_count: 0,
    }
}

// What is kept of the chain at a place; past the last, nothing.
pub fn placed_at(notes: &[Placed; MAX_CHAINS], i: usize) -> Placed
    ensures { result ≡ slice_index_or notes.now i nowhere }
{
    match notes.get(i) {
        Some(p) => *p,
        None => nowhere(),
    }
}

// What is kept of a chain, noted at a place; past the last there is no room.
pub fn note(notes: &mut [Placed; MAX_CHAINS], i: usize, p: Placed)
    ensures { notes.new ≡ set notes.old i p }
{
    if i < MAX_CHAINS {
        notes[i] = p;
    }
}
