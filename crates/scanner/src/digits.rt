// Digits in lent bytes: whether a byte is one, and how many lead. What a digit is, is said by specs/digits/Digit.antt.
ghost use Rattle.std.specs.Prelude.{◌≡◌};
ghost use Rattle.scanner.specs.part.Part.{Place};
ghost use Rattle.scanner.specs.digits.Digit.{is_digit, digit_run};

pub fn is_digit(b: u8) -> bool
    ensures { result ≡ is_digit b }
{
    if b < b'0' {
        return false;
    }
    b <= b'9'
}

// How many digits lead.
pub fn digit_run(s: &[u8]) -> usize
    ensures { Place s.now (digit_run s.now) result }
{
    s.iter().position(|x| !is_digit(*x)).unwrap_or(s.len())
}
