// The group that an abbreviation means: a row of the group table. Every byte string has an answer. The table and the words beside it:
// specs/groups/Groups.antt. A text is held against all of them at once, as one number: its key, which specs/abbreviations/Key.antt defines.
ghost use Rattle.std.specs.Prelude.{◌≡◌, ◌+◌, ◌*◌, ◌^◌, ◌<◌};
ghost use Rattle.group_table.specs.groups.Groups.{substituent_of};
ghost use Rattle.group_table.specs.abbreviations.Key.{key_of};

use super::groups::{HYDROXY, KETO, METHYL};

// A key with one more byte.
fn after(k: u64, b: u8) -> u64
    requires { k < 2 ^ 32 }
    ensures { (result ≡ k * 256 + b) × (result < (k + 1) * 256) }
{
    k * 256 + b as u64
}

// The key of a text: a 1, so that the length shows, and then the bytes. More than four bytes have the key 0, since of the abbreviations only
// hydroxy is as long.
fn key(s: &[u8]) -> u64
    ensures { result ≡ key_of s.now }
{
    if s.len() == 0 {
        return 1;
    }
    let one = after(1, s[0]);
    if s.len() == 1 {
        return one;
    }
    let two = after(one, s[1]);
    if s.len() == 2 {
        return two;
    }
    let three = after(two, s[2]);
    if s.len() == 3 {
        return three;
    }
    let four = after(three, s[3]);
    if s.len() == 4 {
        return four;
    }
    0
}

// The row of the group that an abbreviation means: a row's own, and hydroxy and keto. Beside each key stands the text that it is of.
pub fn substituent(s: &[u8]) -> Option<u8>
    ensures { result ≡ substituent_of s.now }
{
    let k = key(s);
    match k {
        0x1_6b_65_74_6f => Some(KETO), // keto
        0x1_45_74 => Some(0), // Et
        0x1_4d_65 => Some(METHYL), // Me
        0x1_42_72 => Some(2), // Br
        0x1_43_6c => Some(3), // Cl
        0x1_46 => Some(4), // F
        0x1_49 => Some(5), // I
        0x1_4e_4f_32 => Some(6), // NO2
        0x1_4f_4d_65 => Some(7), // OMe
        0x1_4e_48_32 => Some(8), // NH2
        0x1_4f_4f_48 => Some(9), // OOH
        0x1_53_48 => Some(10), // SH
        0x1_4f_48 => Some(HYDROXY), // OH
        0x1_6f_78_6f => Some(KETO), // oxo
        0x1_43_4e => Some(13), // CN
        0x1_50 => Some(14), // P
        0x1_53 => Some(15), // S
        0x1_43_4f_4f_48 => Some(16), // COOH
        _ => {
            if scanner::same(s, b"hydroxy") {
                return Some(HYDROXY);
            }
            None
        }
    }
}
