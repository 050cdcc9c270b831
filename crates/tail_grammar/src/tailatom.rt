// An atom of a tail: the bond before it, and its letters or its bracket (01, Templates and the builder). What a function promises stands in
// specs/tailatom/Atom.antt: the place after the bond or the atom that stands at a place.
ghost use Rattle.std.specs.Prelude.{◌≡◌, ◌≤◌, length};
ghost use Rattle.reading_rules.specs.reading.Lexer.{memb, organic, marks, bracketed, pairs};
ghost use Rattle.tail_grammar.specs.tailatom.Atom.{BondIs, bracket_at, AtomIs};

const MAX_BRACKET: usize = 16;

fn is_bond(b: u8) -> bool
    ensures { result ≡ memb b marks }
{
    b"-=#/\\".contains(&b)
}

// The atoms of one letter; C and B may also be the first of two.
fn is_letter(b: u8) -> bool
    ensures { result ≡ memb b organic }
{
    matches!(
        b,
        b'B' | b'C'
            | b'N'
            | b'O'
            | b'P'
            | b'S'
            | b'F'
            | b'I'
            | b'b'
            | b'c'
            | b'n'
            | b'o'
            | b's'
            | b'p'
            | b'*'
    )
}

// What may stand in a bracket.
fn is_bracketed(b: u8) -> bool
    ensures { result ≡ bracketed b }
{
    b.is_ascii_alphanumeric() || matches!(b, b'+' | b'-' | b'@')
}

// Whether the letter `b` makes one atom with the letter `a` before it: Cl, Br.
pub fn is_second(a: u8, b: u8) -> bool
    ensures { result ≡ pairs a b }
{
    match b {
        b'l' => a == b'C',
        b'r' => a == b'B',
        _ => false,
    }
}

// The place after at most one bond.
pub fn after_bond(s: &[u8], at: usize) -> usize
    requires { at ≤ length s.now }
    ensures { BondIs s.now at result }
{
    if at == s.len() {
        return at;
    }
    if is_bond(s[at]) {
        return at + 1;
    }
    at
}

// The place after a bracket, of which the first byte inside is at `at`.
fn after_bracket(s: &[u8], at: usize) -> Option<usize>
    requires { at ≤ length s.now }
    ensures { result ≡ bracket_at s.now at }
{
    for i in at..s.len() {
        let b = s[i];
        if is_bracketed(b) {
            continue;
        }
        if b != b']' {
            return None;
        }
        if i == at {
            return None;
        }
        if MAX_BRACKET < i - at {
            return None;
        }
        return Some(i + 1);
    }
    None
}

// The place after the atom at `at`; none where no atom stands, and a tail that needs one is refused, 23.
pub fn after_atom(s: &[u8], at: usize) -> Option<usize>
    requires { at ≤ length s.now }
    ensures { AtomIs s.now at result }
{
    if at == s.len() {
        return None;
    }
    let b = s[at];
    let next = at + 1;
    if b == b'[' {
        return after_bracket(s, next);
    }
    if !is_letter(b) {
        return None;
    }
    if next == s.len() {
        return Some(next);
    }
    if is_second(b, s[next]) {
        return Some(next + 1);
    }
    Some(next)
}
