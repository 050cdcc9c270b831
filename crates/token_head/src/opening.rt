// The opening of a token: branch word, prefix and carbons, up to a chain that has nothing on it but the methyl of its branch word, which is
// written to a lent array. Every byte string has an answer; carbons that are unreadable, or too few for the branch word, are refused by 11 and
// too many by 31.
ghost use Rattle.std.specs.Prelude.{◌≡◌, ◌≤◌, length};
ghost use Rattle.chain_record.specs.plain.Chain.{max_groups};
ghost use Rattle.token_head.specs.opening.Opening.{Word, Prefixed, branch_length, branch_offset, prefix_length, sphingoid_of, Opened, Starts, branched, start_chain, carbons_of};

use chain_record::{ChainPrefix, Mod, Refusal};
use group_table::METHYL;

// The branch word before the carbons.
#[derive(Clone, Copy)]
pub enum Branch {
    Straight,
    Iso,
    Anteiso,
}

fn branch_word(s: &[u8]) -> Branch
    ensures { Word s.now result }
{
    if scanner::starts_with(s, b"iso-") {
        return Branch::Iso;
    }
    if scanner::starts_with(s, b"anteiso-") {
        return Branch::Anteiso;
    }
    Branch::Straight
}

// The bytes of a branch word.
fn branch_length(b: Branch) -> usize
    ensures { result ≡ branch_length b }
{
    match b {
        Branch::Straight => 0,
        Branch::Iso => 4,
        Branch::Anteiso => 8,
    }
}

// What a letter before a digit says.
fn sphingoid(b: u8) -> ChainPrefix
    ensures { result ≡ sphingoid_of b }
{
    if b == b'd' {
        return ChainPrefix::SphingoidD;
    }
    if b == b'D' {
        return ChainPrefix::SphingoidD;
    }
    if b == b't' {
        return ChainPrefix::SphingoidT;
    }
    if b == b'T' {
        return ChainPrefix::SphingoidT;
    }
    ChainPrefix::Acyl
}

fn chain_prefix(s: &[u8]) -> ChainPrefix
    ensures { Prefixed s.now result }
{
    if scanner::starts_with(s, b"O-") {
        return ChainPrefix::EtherAlkyl;
    }
    if scanner::starts_with(s, b"P-") {
        return ChainPrefix::EtherAlkenyl;
    }
    if s.len() < 2 {
        return ChainPrefix::Acyl;
    }
    if !scanner::is_digit(s[1]) {
        return ChainPrefix::Acyl;
    }
    sphingoid(s[0])
}

// The bytes of a prefix.
fn prefix_length(p: ChainPrefix) -> usize
    ensures { result ≡ prefix_length p }
{
    match p {
        ChainPrefix::Acyl => 0,
        ChainPrefix::EtherAlkyl => 2,
        ChainPrefix::EtherAlkenyl => 2,
        ChainPrefix::SphingoidD => 1,
        ChainPrefix::SphingoidT => 1,
    }
}

// What stands before the carbons, and the place where they start.
#[derive(Clone, Copy)]
pub struct Opening {
    pub prefix: ChainPrefix,
    pub branch: Branch,
    pub carbons: usize,
}

// A branch word, a prefix, and the branch word if it was not yet seen.
fn read_words(t: &[u8]) -> Opening
    ensures { Opened t.now result }
{
    let first = branch_word(t);
    let n = branch_length(first);
    let s = &t[n..];
    let prefix = chain_prefix(s);
    let m = prefix_length(prefix);
    match first {
        Branch::Straight => {
            let u = &s[m..];
            let second = branch_word(u);
            let k = branch_length(second);
            Opening {
                prefix,
                branch: second,
                carbons: n + m + k,
            }
        }
        Branch::Iso => Opening {
            prefix,
            branch: first,
            carbons: n + m,
        },
        Branch::Anteiso => Opening {
            prefix,
            branch: first,
            carbons: n + m,
        },
    }
}

// The opening. Where the second byte is a digit, and so for nearly every token, no word stands there and the prefix is at most the first letter.
pub fn read_opening(t: &[u8]) -> Opening
    ensures { Opened t.now result }
{
    if t.len() < 2 {
        return read_words(t);
    }
    if !scanner::is_digit(t[1]) {
        return read_words(t);
    }
    let prefix = sphingoid(t[0]);
    let carbons = prefix_length(prefix);
    Opening {
        prefix,
        branch: Branch::Straight,
        carbons,
    }
}

// How far a branch word's methyl is from the end of the chain.
fn branch_offset(b: Branch) -> u16
    ensures { (result ≡ branch_offset b) × (result ≤ 2) }
{
    match b {
        Branch::Straight => 0,
        Branch::Iso => 1,
        Branch::Anteiso => 2,
    }
}

// The start of a chain: its prefix; the carbons written, and those left after a branch word; whether there was one, and how many groups it gave.
#[derive(Clone, Copy)]
pub struct Start {
    pub prefix: ChainPrefix,
    pub written: u16,
    pub carbon: u16,
    pub branched: bool,
    pub groups: usize,
}

// A chain with a branch word: one carbon of those written is the methyl.
fn branched_chain(
    prefix: ChainPrefix,
    offset: u16,
    written: u16,
    groups: &mut [Mod],
) -> Result<Start, Refusal>
    requires offset_bound { offset ≤ 2 }
    requires max_groups_in_bounds { max_groups ≤ length groups.old }
    ensures { Starts result groups.new (branched prefix offset written) }
{
    if written < offset + 3 {
        return Err(Refusal::Unreadable);
    }
    let carbon = written - 1;
    let methyl = Mod {
        pos: (carbon - offset) as u32,
        row: METHYL,
    };
    let count = chain_record::push_group(groups, 0, methyl);
    Ok(Start {
        prefix,
        written,
        carbon,
        branched: true,
        groups: count,
    })
}

// The chain of so many written carbons, with its methyl.
fn start_chain(
    prefix: ChainPrefix,
    branch: Branch,
    written: u16,
    groups: &mut [Mod],
) -> Result<Start, Refusal>
    requires { max_groups ≤ length groups.old }
    ensures { Starts result groups.new (start_chain prefix branch written) }
{
    let offset = branch_offset(branch);
    match branch {
        Branch::Straight => Ok(Start {
            prefix,
            written,
            carbon: written,
            branched: false,
            groups: 0,
        }),
        Branch::Iso => branched_chain(prefix, offset, written, groups),
        Branch::Anteiso => branched_chain(prefix, offset, written, groups),
    }
}

// The chain that a carbon text says.
pub fn parse_carbons(
    text: &[u8],
    prefix: ChainPrefix,
    branch: Branch,
    groups: &mut [Mod],
) -> Result<Start, Refusal>
    requires { max_groups ≤ length groups.old }
    ensures { Starts result groups.new (carbons_of prefix branch text.now) }
{
    let Some(n) = scanner::read_number(text, 4294967295) else {
        return Err(Refusal::Unreadable);
    };
    if (chain_record::MAX_CARBONS as u64) < n {
        return Err(Refusal::OverLimit);
    }
    start_chain(prefix, branch, n as u16, groups)
}
