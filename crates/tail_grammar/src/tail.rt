// The check of a tail, the part of a line that the caller gives as text (01, Templates and the builder; refusal 23 rests on it).
// It answers 01's grammar for every byte string. proofs/tail/Alone and proofs/tail/Exactly say what that is worth: the tails are exactly the texts,
// within the limits, that read by themselves where they hang on an atom. proofs/tail/Atoms: a tail reads to as many atoms as are counted here.
// A run of atoms is read a letter, its digits, a bond or another atom at a time; what is reached is kept in one small record.
ghost use Rattle.std.specs.Prelude.{◌≡◌, true, List, ◌∷◌, ℕ, ◌≤◌, ◌<◌, length, IfSome};
ghost use Rattle.reading_rules.specs.reading.Lexer.{memb, organic};
ghost use Rattle.tail_grammar.specs.ringdigits.Grammar.{atoms_of_tail};
ghost use Rattle.tail_grammar.specs.ringdigits.Digits.{rings_of};
ghost use Rattle.tail_grammar.specs.tail.Contract.{follows_bond, follows_atom, takes_digit, pairs_at, state_of, Room, At, Item, Ringed, Other, PastMark, GoesOn, RunRead};

use super::ringdigits::{Atoms, is_ring_digit, none_open, read_digits};
use super::tailatom::{after_atom, after_bond, is_second};

const MAX_TAIL: usize = 255;

const MAX_DEPTH: u32 = 16;

// No atom of the tail yet.
const NO_ATOMS: Atoms = Atoms {
    last: 0,
    current: 0,
    parent: 0,
};

// Where the reader stands.
#[derive(Clone, Copy)]
enum Place {
    // where a bond or an atom comes
    Opening,
    // after a bond
    Bonded,
    // after digits or a branch
    Closed,
    // after an atom
    Whole,
    // after a capital letter, which may be the first of two
    Letter(u8),
}

impl Place {
    // Whether a bond came last: only an atom follows one.
    fn follows_bond(self) -> bool
        ensures { result ≡ follows_bond self }
    {
        matches!(self, Place::Bonded)
    }

    // Whether an atom, its digits or a branch came last: only there a branch opens or ends, or the tail does.
    fn follows_atom(self) -> bool
        ensures { result ≡ follows_atom self }
    {
        !matches!(self, Place::Opening | Place::Bonded)
    }

    // Whether a byte is a digit that the atom before it takes.
    fn takes_digit(self, b: u8) -> bool
        ensures { result ≡ takes_digit self b }
    {
        is_ring_digit(b) && matches!(self, Place::Whole | Place::Letter(_))
    }

    // Whether a byte is a letter that makes one atom with the letter before it: Cl, Br.
    fn takes_second(self, b: u8) -> bool
        ensures { result ≡ pairs_at self b }
    {
        match self {
            Place::Letter(a) => is_second(a, b),
            _ => false,
        }
    }
}

// How far a tail was read: the place of the next byte, where the reader stands, the atoms so far. `opened` and `joined` are those of
// `ringdigits`. Where no tail goes on so, a reader answers none.
#[derive(Clone, Copy)]
struct Reached {
    next: usize,
    place: Place,
    atoms: Atoms,
}

// Whether a byte is a capital letter that is an atom. Only this is asked of most bytes, and it is compiled to one test.
fn is_capital(b: u8) -> bool
    ensures { result ≡ true → memb b organic ≡ true }
{
    matches!(b, b'B' | b'C' | b'N' | b'O' | b'P' | b'S' | b'F' | b'I')
}

// Whether the text is one such letter, as where a chain hangs on a hydroxyl.
fn is_one_letter(s: &[u8]) -> bool
    ensures { result ≡ true → 1 ≡ atoms_of_tail s.now }
{
    s.len() == 1 && is_capital(s[0])
}

// The `)` of a branch that was read: the next atom joins the one at which the branch started.
fn close_branch(s: &[u8], r: Reached, start: u8) -> Option<Reached>
    requires { At s.now r 41 }
    ensures { (t o j : List ℕ) → GoesOn s.now r (state_of r (start ∷ t) o j) result t o j }
{
    if !r.place.follows_atom() {
        return None;
    }
    Some(Reached {
        next: r.next + 1,
        place: Place::Closed,
        atoms: r.atoms.back_to(start),
    })
}

// The digits straight after an atom.
fn read_ring(s: &[u8], opened: &mut [u8; 10], joined: &mut [u8; 256], r: Reached) -> Option<Reached>
    requires { Ringed s.now r }
    ensures { (t : List ℕ) → GoesOn s.now r (state_of r t opened.old joined.old) result t opened.new joined.new }
{
    let next = read_digits(s, r.next, opened, joined, r.atoms)?;
    // a digit that were left could not be read
    if next <= r.next {
        return None;
    }
    Some(Reached {
        next,
        place: Place::Closed,
        ..r
    })
}

// The place after at most one bond, where none stood before.
fn after_mark(s: &[u8], r: Reached) -> usize
    requires { Other s.now r }
    ensures { PastMark s.now r result }
{
    if r.place.follows_bond() {
        return r.next;
    }
    after_bond(s, r.next)
}

// A bond, or an atom of any kind.
fn read_other(s: &[u8], r: Reached) -> Option<Reached>
    requires { Other s.now r }
    ensures { (t o j : List ℕ) → GoesOn s.now r (state_of r t o j) result t o j }
{
    let from = after_mark(s, r);
    if r.next < from {
        return Some(Reached {
            next: from,
            place: Place::Bonded,
            ..r
        });
    }
    let next = after_atom(s, from)?;
    Some(Reached {
        next,
        place: Place::Whole,
        atoms: r.atoms.with_atom(),
    })
}

// What stands at the next byte. Letters come first, since most bytes are letters.
fn read_next(s: &[u8], opened: &mut [u8; 10], joined: &mut [u8; 256], r: Reached) -> Option<Reached>
    requires { Item s.now r }
    ensures { (t : List ℕ) → GoesOn s.now r (state_of r t opened.old joined.old) result t opened.new joined.new }
{
    let b = s[r.next];
    if is_capital(b) {
        return Some(Reached {
            next: r.next + 1,
            place: Place::Letter(b),
            atoms: r.atoms.with_atom(),
        });
    }
    if r.place.takes_digit(b) {
        return read_ring(s, opened, joined, r);
    }
    if r.place.takes_second(b) {
        return Some(Reached {
            next: r.next + 1,
            place: Place::Whole,
            ..r
        });
    }
    read_other(s, r)
}

// A run, up to a `)` or the end: atoms, their digits and branches. Each branch is a run of its own, with one less depth left.
fn read_run(
    s: &[u8],
    at: usize,
    depth: u32,
    opened: &mut [u8; 10],
    joined: &mut [u8; 256],
    atoms: Atoms,
) -> Option<Reached>
    requires { Room s.now at atoms.last }
    ensures { RunRead s.now at depth (rings_of atoms opened.old joined.old) result opened.new joined.new }
{
    let mut r = Reached {
        next: at,
        place: Place::Opening,
        atoms,
    };
    while r.next < s.len() {
        let b = s[r.next];
        if b == b')' {
            return Some(r);
        }
        if b != b'(' {
            r = read_next(s, opened, joined, r)?;
            continue;
        }
        if !r.place.follows_atom() {
            return None;
        }
        if depth == 0 {
            return None;
        }
        let here = r.atoms;
        let start = here.current;
        let inner = read_run(s, r.next + 1, depth - 1, opened, joined, here)?;
        if inner.next == s.len() {
            return None;
        }
        r = close_branch(s, inner, start)?;
    }
    Some(r)
}

// The atoms of a tail without digits whose atoms are capital letters and brackets, as most are: where no digit is asked for its atom, a branch
// is no more than one step down and up again, and no run of its own. None where it is no such tail; then it may still be a tail.
// `while`, since the step is a byte or a bracket: no `for` counts so.
fn plain_atoms(s: &[u8]) -> Option<u16>
    requires { (1 ≤ length s.now) × (length s.now ≤ 255) }
    ensures { IfSome result (λ n. n ≡ atoms_of_tail s.now) }
{
    let mut place = Place::Opening;
    let mut depth = 0u32;
    let mut atoms = 0u16;
    let mut i = 0;
    while i < s.len() {
        let b = s[i];
        if is_capital(b) {
            place = Place::Letter(b);
            atoms += 1;
            i += 1;
            continue;
        }
        if b == b'(' {
            if !place.follows_atom() {
                return None;
            }
            if MAX_DEPTH <= depth {
                return None;
            }
            place = Place::Opening;
            depth += 1;
            i += 1;
            continue;
        }
        if b == b')' {
            if !place.follows_atom() {
                return None;
            }
            if depth == 0 {
                return None;
            }
            place = Place::Closed;
            depth -= 1;
            i += 1;
            continue;
        }
        if b == b'=' {
            if place.follows_bond() {
                return None;
            }
            place = Place::Bonded;
            i += 1;
            continue;
        }
        if b != b'[' {
            return None;
        }
        i = after_atom(s, i)?;
        place = Place::Whole;
        atoms += 1;
    }
    if !place.follows_atom() {
        return None;
    }
    if depth != 0 {
        return None;
    }
    Some(atoms)
}

// The number of atoms of a tail; 0 where the bytes are none.
// No Option: the theorem of proofs/tail/Exactly speaks of `atoms_of_tail`, which is 0 of what is no tail.
pub fn tail_atoms(s: &[u8]) -> u16
    ensures { result ≡ atoms_of_tail s.now }
{
    if s.is_empty() {
        return 0;
    }
    if MAX_TAIL < s.len() {
        return 0;
    }
    if is_one_letter(s) {
        return 1;
    }
    if let Some(atoms) = plain_atoms(s) {
        return atoms;
    }
    // made once and lent on: no digit is open, and none joined two atoms
    let mut opened = [0u8; 10];
    let mut joined = [0u8; 256];
    let Some(r) = read_run(s, 0, MAX_DEPTH, &mut opened, &mut joined, NO_ATOMS) else {
        return 0;
    };
    if r.next < s.len() {
        return 0;
    }
    if !r.place.follows_atom() {
        return 0;
    }
    if !none_open(&opened) {
        return 0;
    }
    u16::from(r.atoms.last)
}
