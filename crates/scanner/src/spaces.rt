// The spaces around a part of lent bytes, and the part between them. Each function is defined for every byte string of every length and
// refuses nothing. Which part is said by `trimmed` of crates/scanner/specs/part/Part.antt.
ghost use Rattle.std.specs.Prelude.{◌≡◌};
ghost use Rattle.scanner.specs.part.Part.{leading, ending, trimmed, Place};

// How many spaces lead.
fn leading_spaces(s: &[u8]) -> usize
    ensures { Place s.now (leading s.now) result }
{
    s.iter().position(|x| *x != b' ').unwrap_or(s.len())
}

// The place after the last byte that is no space.
fn text_end(s: &[u8]) -> usize
    ensures { Place s.now (ending s.now) result }
{
    for i in (0..s.len()).rev() {
        if s[i] != b' ' {
            return i + 1;
        }
    }
    0
}

// The part between leading and trailing spaces, where there may be some.
fn within_spaces(s: &[u8]) -> &[u8]
    ensures { result.now ≡ trimmed s.now }
{
    let from = leading_spaces(s);
    let to = text_end(s);
    if to < from {
        return &s[0..0];
    }
    &s[from..to]
}

// The part of the caller's bytes between leading and trailing spaces: all of them where no space leads and none ends, as is usual.
pub fn trim(s: &[u8]) -> &[u8]
    ensures { result.now ≡ trimmed s.now }
{
    if s.len() == 0 {
        return s;
    }
    if s[0] == b' ' {
        return within_spaces(s);
    }
    if s[s.len() - 1] == b' ' {
        return within_spaces(s);
    }
    s
}
