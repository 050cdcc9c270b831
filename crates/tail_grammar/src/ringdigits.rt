// The digits of a tail, which stand straight after an atom (01, Templates and the builder). The grammar stands in specs/ringdigits/Grammar.antt; what a
// function promises in its terms in specs/ringdigits/Digits.antt.
// Two arrays say which digits are open and which atoms they joined. They are made once for a tail and lent from there on, since a struct that
// holds arrays would be copied at each call:
//   opened    by digit: the atom on which it is open, 0 for none
//   joined    by atom: the last one that a digit joined to it, so that a second bond between two atoms is one look-up away
ghost use Rattle.std.specs.Prelude.{◌≡◌, ℕ, List, ◌-◌, ◌<◌};
ghost use Rattle.reading_rules.specs.reading.Lexer.{within};
ghost use Rattle.tail_grammar.specs.ringdigits.Grammar.{clashes, with_atom, back_to, with_digit, none_open};
ghost use Rattle.tail_grammar.specs.ringdigits.Digits.{rings_of, Digits, IsDigit, PastDigits};

// The atoms of a tail so far. They are numbered from 1; atom 0 is the one that the tail hangs on.
#[derive(Clone, Copy)]
pub struct Atoms {
    // the last atom, the current one, and the one that the current one joined
    pub last: u8,
    pub current: u8,
    pub parent: u8,
}

impl Atoms {
    // One more atom, which joins the current one.
    pub fn with_atom(self) -> Self
        requires { self.last < 255 }
        ensures { (o j : List ℕ) → rings_of result o j ≡ with_atom (rings_of self o j) }
    {
        let new = self.last + 1;
        Self {
            last: new,
            current: new,
            parent: self.current,
        }
    }

    // After a branch: the atom at which it started is the current one again.
    pub fn back_to(self, start: u8) -> Self
        ensures { (o j : List ℕ) → rings_of result o j ≡ back_to start (rings_of self o j) }
    {
        Self {
            current: start,
            ..self
        }
    }
}

// A digit's value.
fn digit(b: u8) -> usize
    requires { IsDigit b }
    ensures { (result ≡ b - 48) × (result < 10) }
{
    usize::from(b - b'0')
}

// Whether a byte is one of the digits 1 to 9.
pub fn is_ring_digit(b: u8) -> bool
    ensures { result ≡ within 49 57 b }
{
    matches!(b, b'1'..=b'9')
}

// Whether the digit would close on the current atom itself, or on one that is bonded to it already.
fn digit_clashes(opened: &[u8; 10], joined: &[u8; 256], atoms: Atoms, digit: usize) -> bool
    requires { digit < 10 }
    ensures { result ≡ clashes digit (rings_of atoms opened.now joined.now) }
{
    let a = opened[digit];
    if a == 0 {
        return false;
    }
    a == atoms.current || a == atoms.parent || joined[usize::from(a)] == atoms.current
}

// The digit on the current atom: it opens there, or closes with the atom on which it is open.
fn put_digit(opened: &mut [u8; 10], joined: &mut [u8; 256], atoms: Atoms, digit: usize)
    requires { digit < 10 }
    ensures { rings_of atoms opened.new joined.new ≡ with_digit digit (rings_of atoms opened.old joined.old) }
{
    let a = opened[digit];
    if a == 0 {
        opened[digit] = atoms.current;
        return;
    }
    opened[digit] = 0;
    joined[usize::from(a)] = atoms.current;
}

// Whether no digit is open.
pub fn none_open(opened: &[u8; 10]) -> bool
    ensures { result ≡ none_open opened.now }
{
    opened.iter().all(|a| *a == 0)
}

// The place after the digits that stand straight after an atom; none where one of them would join two atoms that are bonded already.
pub fn read_digits(
    s: &[u8],
    at: usize,
    opened: &mut [u8; 10],
    joined: &mut [u8; 256],
    atoms: Atoms,
) -> Option<usize>
    requires { Digits s.now at atoms.last }
    ensures { PastDigits s.now at (rings_of atoms opened.old joined.old) result (rings_of atoms opened.new joined.new) }
{
    for i in at..s.len() {
        let b = s[i];
        if !is_ring_digit(b) {
            return Some(i);
        }
        let d = digit(b);
        if digit_clashes(opened, joined, atoms, d) {
            return None;
        }
        put_digit(opened, joined, atoms, d);
    }
    Some(s.len())
}
