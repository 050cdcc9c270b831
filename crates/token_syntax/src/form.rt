// How a segment of a token is written: which of the four forms it has. Each function is defined for every byte string and refuses nothing.
// 01's sentences stand in specs/form/Form.antt.
ghost use Rattle.std.specs.Prelude.{◌≡◌, cond, false, length, eqb};
ghost use Rattle.scanner.specs.scan.Part.{Place, index_of, index_of_text, starts_with};
ghost use Rattle.token_syntax.specs.form.Form.{Formed, cy_text, form_of, group_form, ends_in_parenthesis, after_place};

// The four forms, with the places that part them.
#[derive(Clone, Copy)]
pub enum Form {
    // start-endcysize: the places of the first `-` and of `cy`
    Ring { dash: usize, cy: usize },
    // (abbr)n
    Repeated,
    // abbr(list): the place of the first `(`
    Listed { open: usize },
    // parts between commas
    Parts,
}

// The forms of a segment that is no ring.
fn group_form(s: &[u8]) -> Form
    ensures { Formed s.now (group_form s.now) result }
{
    let open = scanner::find(s, b'(');
    if open == s.len() {
        return Form::Parts;
    }
    if open == 0 {
        return Form::Repeated;
    }
    Form::Listed { open }
}

// Whether a `c` or a `(` stands in s.
fn has_mark(s: &[u8]) -> bool
    ensures { result ≡ false → (index_of_text cy_text s.now ≡ length s.now) × (index_of 40 s.now ≡ length s.now) }
{
    let mut t = s;
    while t.len() > 0 {
        if t[0] == b'c' {
            return true;
        }
        if t[0] == b'(' {
            return true;
        }
        t = &t[1..];
    }
    false
}

fn is_cy(a: u8, b: u8) -> bool
    ensures { result ≡ cond (eqb a 99) (eqb b 121) false }
{
    if a == b'c' {
        return b == b'y';
    }
    false
}

// Whether s starts with `cy`.
fn starts_with_cy(s: &[u8]) -> bool
    ensures { result ≡ starts_with cy_text s.now }
{
    if s.len() > 1 {
        return is_cy(s[0], s[1]);
    }
    false
}

// The first place of `cy`, or the length.
fn find_cy(s: &[u8]) -> usize
    ensures { Place s.now (index_of_text cy_text s.now) result }
{
    let mut t = s;
    let mut i = 0;
    while t.len() > 0 {
        if starts_with_cy(t) {
            return i;
        }
        t = &t[1..];
        i += 1;
    }
    i
}

// Which form a segment has. One without `c` and `(`, as most are, is parts between commas: that takes one look at each byte.
pub fn form_of(s: &[u8]) -> Form
    ensures { Formed s.now (form_of s.now) result }
{
    if !has_mark(s) {
        return Form::Parts;
    }
    let cy = find_cy(s);
    if cy == s.len() {
        return group_form(s);
    }
    let dash = scanner::find(&s[0..cy], b'-');
    if dash == cy {
        return group_form(s);
    }
    Form::Ring { dash, cy }
}

// Whether the last byte is `)`.
pub fn ends_in_parenthesis(s: &[u8]) -> bool
    ensures { result ≡ ends_in_parenthesis s.now }
{
    if s.len() == 0 {
        return false;
    }
    s[s.len() - 1] == b')'
}

// What follows the byte at a place; nothing where the place is the end.
pub fn after_place(s: &[u8], at: usize) -> &[u8]
    ensures { result.now ≡ after_place at s.now }
{
    if at < s.len() {
        return &s[at + 1..];
    }
    &s[0..0]
}
