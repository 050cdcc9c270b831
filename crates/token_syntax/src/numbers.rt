// The numbers in a segment of a token, as each place of it writes them. Each function is defined for every byte string and refuses
// nothing; a number that cannot be read is an answer. 01's sentences stand in specs/numbers/Numbers.antt.
ghost use Rattle.std.specs.Prelude.{◌≡◌};
ghost use Rattle.token_syntax.specs.numbers.Numbers.{ring_count, leading_position, number_or_one};

// A ring's own number of double bonds; blank is 0.
pub fn ring_count(s: &[u8]) -> Option<u64>
    ensures { result ≡ ring_count s.now }
{
    let t = scanner::trim(s);
    if t.len() == 0 {
        return Some(0);
    }
    scanner::read_number(t, 18446744073709551615)
}

// The position before an abbreviation, digits only; 0 where no digit stands.
pub fn leading_position(s: &[u8]) -> Option<u64>
    ensures { result ≡ leading_position s.now }
{
    if s.len() == 0 {
        return Some(0);
    }
    scanner::read_digits(s, 4294967295)
}

// A number with nothing around it: how often a group stands, and an oxygen count; 1 where nothing stands.
pub fn number_or_one(s: &[u8]) -> Option<u64>
    ensures { result ≡ number_or_one s.now }
{
    if s.len() == 0 {
        return Some(1);
    }
    scanner::read_number(s, 4294967295)
}
