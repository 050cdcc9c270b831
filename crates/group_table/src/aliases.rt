// The ring of two or three carbons that an abbreviation means. Every byte string has an answer. The words: specs/groups/Groups.antt.
ghost use Rattle.std.specs.Prelude.{◌≡◌};
ghost use Rattle.group_table.specs.groups.Groups.{alias_ring_size};

// The carbons that an alias ring spans: two in an epoxide, three in a cyclopropane.
pub fn alias_ring_size(s: &[u8]) -> Option<u16>
    ensures { result ≡ alias_ring_size s.now }
{
    if scanner::same(s, b"Ep") {
        return Some(2);
    }
    if scanner::same(s, b"ep") {
        return Some(2);
    }
    if scanner::same(s, b"epox") {
        return Some(2);
    }
    if scanner::same(s, b"cyc") {
        return Some(3);
    }
    if scanner::same(s, b"cyclo") {
        return Some(3);
    }
    None
}
