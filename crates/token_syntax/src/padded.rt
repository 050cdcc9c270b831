// A number in a segment of a token that may have spaces around it. Every byte string has an answer: a number that cannot be read is one too.
ghost use Rattle.std.specs.Prelude.{◌≡◌, true, ◌-◌, ◌≤◌};
ghost use Rattle.scanner.specs.scan.Number.{is_digit};
ghost use Rattle.token_syntax.specs.padded.Padded.{trimmed_number, Shortly};

// A number with spaces around it.
fn any_number(s: &[u8]) -> Option<u64>
    ensures { result ≡ trimmed_number s.now }
{
    scanner::read_number(scanner::trim(s), 4294967295)
}

// What a digit says.
fn figure(b: u8) -> u64
    requires { is_digit b ≡ true }
    ensures { (result ≡ b - 48) × (result ≤ 9) }
{
    (b - 48) as u64
}

// The number that one or two digits say; unreadable is anything else.
fn short_number(s: &[u8]) -> Option<u64>
    ensures { Shortly s.now result }
{
    if s.len() == 0 {
        return None;
    }
    if !scanner::is_digit(s[0]) {
        return None;
    }
    let first = figure(s[0]);
    if s.len() == 1 {
        return Some(first);
    }
    if s.len() != 2 {
        return None;
    }
    if !scanner::is_digit(s[1]) {
        return None;
    }
    let one = figure(s[1]);
    Some(first * 10 + one)
}

// A number with spaces around it: a ring's start, end and size, and the position of a group in a list. Nearly every one is a digit or two.
pub fn trimmed_number(s: &[u8]) -> Option<u64>
    ensures { result ≡ trimmed_number s.now }
{
    short_number(s).or_else(|| any_number(s))
}
