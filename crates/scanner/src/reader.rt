// A token reader: lent bytes and the place in them that is read next. Every place has an answer; one past the end reads as the end. Each
// function of the reader takes it apart and leaves the work to a function of the slice and the place. What they answer, and which place
// comes next, is said by specs/reader/Reading.antt.
ghost use Rattle.std.specs.Prelude.{◌≡◌};
ghost use Rattle.scanner.specs.part.Part.{Place};
ghost use Rattle.scanner.specs.reader.Reading.{place_in, part_from};

use super::part;

// The bytes, and the place that is read next. The bytes stay the caller's.
#[derive(Clone, Copy)]
pub struct TokenReader<'a> {
    pub src: &'a [u8],
    pub at: usize,
}

// A part by its places, and the place after the byte that ends it.
#[derive(Clone, Copy)]
pub struct Part {
    pub from: usize,
    pub to: usize,
    pub next: usize,
}

// The place itself, or the end where it lies past it.
fn place_in(s: &[u8], at: usize) -> usize
    ensures { Place s.now (place_in s.now at) result }
{
    at.min(s.len())
}

// The part from a place up to the first byte b, or to the end.
fn part_from(s: &[u8], at: usize, b: u8) -> Part
    ensures { result ≡ part_from b s.now at }
{
    let from = place_in(s, at);
    let n = part::find(&s[from..], b);
    Part {
        from,
        to: from + n,
        next: from + n + 1,
    }
}

// A reader goes in by value and is not changed: the answer says which place comes next, and a reader at that place is made anew.
impl<'a> TokenReader<'a> {
    // A reader of lent bytes at a place; the first byte's is 0.
    fn new(src: &'a [u8], at: usize) -> TokenReader<'a>
        ensures { (result.src ≡ src.entry) × (result.at ≡ at) }
    {
        TokenReader { src, at }
    }

    // The next part up to the byte b; the next place is the one after that byte.
    fn next_part(self, b: u8) -> Part
        ensures { result ≡ part_from b self.entry.src.now self.entry.at }
    {
        part_from(self.src, self.at, b)
    }
}

// The segment of a token that starts at a place. From plain bytes to places in them, so who calls it knows nothing of a reader.
pub fn next_segment(s: &[u8], at: usize) -> Part
    ensures { result ≡ part_from 59 s.now at }
{
    TokenReader::new(s, at).next_part(b';')
}
