// Parts of lent bytes: the place of a byte or a text in them, and whether they start with a text or are one. Each function is defined for
// every byte string of every length and refuses nothing. Which place is said by specs/part/Part.antt.
ghost use Rattle.std.specs.Prelude.{◌≡◌};
ghost use Rattle.scanner.specs.part.Part.{Place, index_of, index_of_text, starts_with, same_bytes};

// The first place of the byte b, or the length.
pub fn find(s: &[u8], b: u8) -> usize
    ensures { Place s.now (index_of b s.now) result }
{
    s.iter().position(|x| *x == b).unwrap_or(s.len())
}

// Whether s starts with p.
pub fn starts_with(s: &[u8], p: &[u8]) -> bool
    ensures { result ≡ starts_with p.now s.now }
{
    s.starts_with(p)
}

// Whether two parts hold the same bytes.
pub fn same(s: &[u8], t: &[u8]) -> bool
    ensures { result ≡ same_bytes s.now t.now }
{
    s == t
}
