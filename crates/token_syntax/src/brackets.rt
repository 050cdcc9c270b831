// The text of a segment of a token, trimmed and without its brackets. Each function is defined for every byte string and refuses nothing.
// 01's sentence stands in specs/brackets/Brackets.antt.
ghost use Rattle.std.specs.Prelude.{◌≡◌};
ghost use Rattle.token_syntax.specs.brackets.Brackets.{after_opening, before_closing, segment_text};

// Without leading `[`.
fn after_opening(s: &[u8]) -> &[u8]
    ensures { result.now ≡ after_opening s.now }
{
    let mut t = s;
    while t.len() > 0 {
        if t[0] != b'[' {
            return t;
        }
        t = &t[1..];
    }
    t
}

// Without trailing `]`.
fn before_closing(s: &[u8]) -> &[u8]
    ensures { result.now ≡ before_closing s.now }
{
    let mut n = s.len();
    while n > 0 {
        if s[n - 1] != b']' {
            return &s[0..n];
        }
        n -= 1;
    }
    &s[0..n]
}

// What stands between two semicolons, trimmed and then without its brackets.
pub fn segment_text(s: &[u8]) -> &[u8]
    ensures { result.now ≡ segment_text s.now }
{
    before_closing(after_opening(scanner::trim(s)))
}
