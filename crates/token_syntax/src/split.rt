// The parts of a list between its commas: how many there are. The function is defined for every byte string and refuses nothing. 01's
// sentence stands in specs/split/Parts.antt.
ghost use Rattle.std.specs.Prelude.{◌≡◌, length};
ghost use Rattle.token_syntax.specs.split.Parts.{list_parts};

// How many positions a list has, between commas; none in an empty list.
pub fn position_count(s: &[u8]) -> usize
    ensures { result ≡ length (list_parts s.now) }
{
    if s.len() == 0 {
        return 0;
    }
    let mut t = s;
    let mut n = 0;
    loop {
        let k = scanner::find(t, b',');
        n += 1;
        if k == t.len() {
            return n;
        }
        t = &t[k + 1..];
    }
}
