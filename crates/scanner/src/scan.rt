// The numbers that lent bytes say. Each function is defined for every byte string of every length and refuses nothing; a number that cannot be
// read is an answer. Which number is said by specs/scan/Number.antt.
ghost use Rattle.std.specs.Prelude.{◌≡◌, ◌≤◌, length};
ghost use Rattle.scanner.specs.scan.Number.{after_plus, digits_up_to, number_up_to};

use super::digits::is_digit;

fn wide(x: u8) -> u64
    ensures { result ≡ x }
{
    x as u64
}

// The number that at most nine digits say, at most the limit. It stays below 1,000,000,000, so it is compared with the limit once, at the end.
fn read_few(s: &[u8], limit: u64) -> Option<u64>
    requires { length s.now ≤ 9 }
    ensures { result ≡ digits_up_to limit s.now }
{
    if s.len() == 0 {
        return None;
    }
    let mut t = s;
    let mut v: u64 = 0;
    while t.len() > 0 {
        if !is_digit(t[0]) {
            return None;
        }
        let digit = wide(t[0]) - 48;
        v = v * 10 + digit;
        t = &t[1..];
    }
    if limit < v {
        return None;
    }
    Some(v)
}

// The number that digits alone say, at most the limit. The value stays at most the limit on the way, so nothing overflows.
fn read_many(s: &[u8], limit: u64) -> Option<u64>
    ensures { result ≡ digits_up_to limit s.now }
{
    if s.len() == 0 {
        return None;
    }
    let mut t = s;
    let mut v: u64 = 0;
    while t.len() > 0 {
        if !is_digit(t[0]) {
            return None;
        }
        let x = wide(t[0]) - 48;
        if limit < x {
            return None;
        }
        if (limit - x) / 10 < v {
            return None;
        }
        v = v * 10 + x;
        t = &t[1..];
    }
    Some(v)
}

// The number that digits alone say, at most the limit. Nearly every number has few digits.
pub fn read_digits(s: &[u8], limit: u64) -> Option<u64>
    ensures { result ≡ digits_up_to limit s.now }
{
    if s.len() < 10 {
        return read_few(s, limit);
    }
    read_many(s, limit)
}

// The part after one plus sign, if there is one.
fn after_plus(s: &[u8]) -> &[u8]
    ensures { result.now ≡ after_plus s.now }
{
    if s.len() == 0 {
        return s;
    }
    if s[0] == b'+' {
        return &s[1..];
    }
    s
}

// The number that a part says, digits after at most one plus sign, at most the limit.
pub fn read_number(s: &[u8], limit: u64) -> Option<u64>
    ensures { result ≡ number_up_to limit s.now }
{
    read_digits(after_plus(s), limit)
}
