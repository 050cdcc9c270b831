// Four bytes of a slice as one number, so that whether all of them are 0 is one question.
ghost use Rattle.std.specs.Prelude.{◌≡◌, ◌+◌, ◌*◌, ◌<◌, length, get_or};

fn wide(x: u8) -> u32
    ensures { (result ≡ x) × (result < 256) }
{
    x as u32
}

// Four bytes as one number, which is 0 exactly if each of them is: one load and one test in place of four.
pub fn word(xs: &[u8], i: usize) -> u32
    requires { i + 3 < length xs.now }
    ensures { result ≡ get_or xs.now i 0 + get_or xs.now (i + 1) 0 * 256 + get_or xs.now (i + 2) 0 * 65536 + get_or xs.now (i + 3) 0 * 16777216 }
{
    wide(xs[i]) + wide(xs[i + 1]) * 256 + wide(xs[i + 2]) * 65536 + wide(xs[i + 3]) * 16777216
}
