// Runs of carbons that carry nothing, written at a place of a lent slice: four carbons at a time, and without a look at the end of the slice
// for each byte where there is room for all of them.
ghost use Rattle.std.specs.Prelude.{◌≡◌, true, [], ◌∷◌, ◌++◌, ℕ, ◌+◌, ◌-◌, ◌*◌, ◌≤◌, ◌<◌, min, length, get_or, replicate};
ghost use Rattle.writer.specs.emit.Text.{Written};
ghost use Rattle.chain_pieces.specs.runs.Links.{link_text, links_text, Links, Run};

use super::{backbone, four_bytes};

// The place after what is written, and the first carbon that is not.
#[derive(Clone, Copy)]
pub struct Reached {
    pub at: usize,
    pub carbon: usize,
}

// The place after a bond's own byte: an empty bond has none.
fn past_bond(at: usize, bond: u8) -> usize
    requires { at < 18446744073709551615 }
    ensures { result ≡ at + min bond 1 }
{
    if bond == 0 { at } else { at + 1 }
}

// A bond and the carbon after it. The C is stored over an empty bond, so nothing depends on a branch.
fn put_link(out: &mut [u8], at: usize, bond: u8) -> usize
    requires { at + 2 ≤ length out.old }
    ensures { Written out.old at (link_text bond) out.new result }
{
    out[at] = bond;
    let p = past_bond(at, bond);
    out[p] = b'C';
    p + 1
}

fn put_two(out: &mut [u8], at: usize, a: u8, b: u8) -> usize
    requires { at + 4 ≤ length out.old }
    ensures { Written out.old at (link_text a ++ link_text b) out.new result }
{
    let p = put_link(out, at, a);
    put_link(out, p, b)
}

// Four carbons between empty bonds.
fn put_plain(out: &mut [u8], at: usize) -> usize
    requires { at + 4 ≤ length out.old }
    ensures { Written out.old at (67 ∷ 67 ∷ 67 ∷ 67 ∷ []) out.new result }
{
    out[at] = b'C';
    out[at + 1] = b'C';
    out[at + 2] = b'C';
    out[at + 3] = b'C';
    at + 4
}

// Four carbons, each after the bond before it: the bonds stand from i on.
fn put_marked<'a>(out: &mut [u8], at: usize, bonds: &'a [u8], i: usize) -> usize
    requires { (at + 8 ≤ length out.old) × (i + 3 < length bonds.now) }
    ensures { Written out.old at ((link_text (get_or bonds.now i 0) ++ link_text (get_or bonds.now (i + 1) 0)) ++ (link_text (get_or bonds.now (i + 2) 0) ++ link_text (get_or bonds.now (i + 3) 0))) out.new result }
{
    let p = put_two(out, at, bonds[i], bonds[i + 1]);
    put_two(out, p, bonds[i + 2], bonds[i + 3])
}

// The four carbons from C k on, each after the bond before it.
fn put_four<'a>(out: &mut [u8], at: usize, bonds: &'a [u8], k: usize) -> usize
    requires { (at + 8 ≤ length out.old) × (1 ≤ k) × (k + 2 < length bonds.now) }
    ensures { Written out.old at (links_text bonds.now k 4) out.new result }
{
    let i = k - 1;
    if four_bytes::word(bonds, i) == 0 {
        return put_plain(out, at);
    }
    put_marked(out, at, bonds, i)
}

// The carbons from C k on that carry nothing, as long as there are four of them.
fn put_fours<'a>(
    out: &mut [u8],
    at: usize,
    bonds: &'a [u8],
    busy: &'a [u8],
    k: usize,
    last: usize,
) -> Reached
    requires { (1 ≤ k) × (k ≤ last + 1) × (last ≤ 255) × (last < length bonds.now) × (last < length busy.now) × (at + (last + 1 - k) * 2 ≤ length out.old) }
    ensures { Links bonds.now busy.now k last out.old at out.new result.at result.carbon }
{
    let mut p = at;
    let mut j = k;
    while j + 3 <= last {
        if four_bytes::word(busy, j) != 0 {
            return Reached { at: p, carbon: j };
        }
        p = put_four(out, p, bonds, j);
        j += 4;
    }
    Reached { at: p, carbon: j }
}

// The carbons from C k on that carry nothing, one by one.
fn put_ones<'a>(
    out: &mut [u8],
    at: usize,
    bonds: &'a [u8],
    busy: &'a [u8],
    k: usize,
    last: usize,
) -> Reached
    requires { (1 ≤ k) × (k ≤ last + 1) × (last ≤ 255) × (last < length bonds.now) × (last < length busy.now) × (at + (last + 1 - k) * 2 ≤ length out.old) }
    ensures { Links bonds.now busy.now k last out.old at out.new result.at result.carbon }
{
    let mut p = at;
    let mut j = k;
    while j <= last {
        if busy[j] != 0 {
            return Reached { at: p, carbon: j };
        }
        p = put_link(out, p, bonds[j - 1]);
        j += 1;
    }
    Reached { at: p, carbon: j }
}

// The carbons from C k on that carry nothing, where there is room for all carbons up to the last with a bond before each.
fn put_free<'a>(
    out: &mut [u8],
    at: usize,
    bonds: &'a [u8],
    busy: &'a [u8],
    k: usize,
    last: usize,
) -> Reached
    requires { (1 ≤ k) × (k ≤ last + 1) × (last ≤ 255) × (last < length bonds.now) × (last < length busy.now) × (at + (last + 1 - k) * 2 ≤ length out.old) }
    ensures { Links bonds.now busy.now k last out.old at out.new result.at result.carbon }
{
    let r = put_fours(out, at, bonds, busy, k, last);
    put_ones(out, r.at, bonds, busy, r.carbon, last)
}

// The same; none of them where there may be no room.
fn put_links<'a>(
    out: &mut [u8],
    at: usize,
    bonds: &'a [u8],
    busy: &'a [u8],
    k: usize,
    last: usize,
) -> Reached
    requires { (1 ≤ k) × (k ≤ last + 1) × (last ≤ 255) × (last < length bonds.now) × (last < length busy.now) }
    ensures { Links bonds.now busy.now k last out.old at out.new result.at result.carbon }
{
    if at < out.len() {
        if (last + 1 - k) * 2 <= out.len() - at {
            return put_free(out, at, bonds, busy, k, last);
        }
        return Reached { at, carbon: k };
    }
    Reached { at, carbon: k }
}

// C k, which carries nothing, and carbons after it that carry nothing either: each with the bond before it, and the O of an epoxide after the
// last of them.
pub fn put_run<'a>(
    out: &mut [u8],
    at: usize,
    bonds: &'a [u8],
    busy: &'a [u8],
    k: usize,
    last: usize,
) -> Reached
    requires { (1 ≤ k) × (k ≤ last) × (last ≤ 255) × (last < length bonds.now) × (last < length busy.now) × (get_or busy.now k 0 ≡ 0) }
    ensures { Run bonds.now busy.now k last out.old at out.new result.at result.carbon }
{
    let p = backbone::put_carbon(out, at, bonds[k - 1]);
    let r = put_links(out, p, bonds, busy, k + 1, last);
    let next = r.carbon;
    let q = backbone::put_bridge(out, r.at, bonds[next - 1]);
    Reached {
        at: q,
        carbon: next,
    }
}

// The carbons from C k to the last, as long as there are four of them, whatever they carry.
fn link_fours<'a>(out: &mut [u8], at: usize, bonds: &'a [u8], k: usize, last: usize) -> Reached
    requires { (1 ≤ k) × (k ≤ last + 1) × (last ≤ 255) × (last < length bonds.now) × (at + (last + 1 - k) * 2 ≤ length out.old) }
    ensures { Links bonds.now [] k last out.old at out.new result.at result.carbon }
{
    let mut p = at;
    let mut j = k;
    while j + 3 <= last {
        p = put_four(out, p, bonds, j);
        j += 4;
    }
    Reached { at: p, carbon: j }
}

// The same, one by one.
fn link_ones<'a>(out: &mut [u8], at: usize, bonds: &'a [u8], k: usize, last: usize) -> usize
    requires { (1 ≤ k) × (k ≤ last + 1) × (last ≤ 255) × (last < length bonds.now) × (at + (last + 1 - k) * 2 ≤ length out.old) }
    ensures { Written out.old at (links_text bonds.now k (last + 1 - k)) out.new result }
{
    let mut p = at;
    let mut j = k;
    while j <= last {
        p = put_link(out, p, bonds[j - 1]);
        j += 1;
    }
    p
}

// All carbons from C k to the last, each after the bond before it, where there is room for them with a bond before each.
pub fn put_through<'a>(out: &mut [u8], at: usize, bonds: &'a [u8], k: usize, last: usize) -> usize
    requires { (1 ≤ k) × (k ≤ last + 1) × (last ≤ 255) × (last < length bonds.now) × (at + (last + 1 - k) * 2 ≤ length out.old) }
    ensures { Written out.old at (links_text bonds.now k (last + 1 - k)) out.new result }
{
    let r = link_fours(out, at, bonds, k, last);
    link_ones(out, r.at, bonds, r.carbon, last)
}

// Eight carbons between empty bonds.
fn put_eight(out: &mut [u8], at: usize) -> usize
    requires { at + 8 ≤ length out.old }
    ensures { Written out.old at (replicate 8 67) out.new result }
{
    let p = put_plain(out, at);
    put_plain(out, p)
}

// Sixteen.
fn put_sixteen(out: &mut [u8], at: usize) -> usize
    requires { at + 16 ≤ length out.old }
    ensures { Written out.old at (replicate 16 67) out.new result }
{
    let p = put_eight(out, at);
    put_eight(out, p)
}

// Carbons between empty bonds, one by one.
fn put_each(out: &mut [u8], at: usize, n: usize) -> usize
    requires { at + n ≤ length out.old }
    ensures { Written out.old at (replicate n 67) out.new result }
{
    let end = at + n;
    let mut p = at;
    while p < end {
        out[p] = b'C';
        p += 1;
    }
    p
}

// So many carbons between empty bonds. Where they are neither few nor many, the first of them are written and then the last, some of them
// twice: then there is no loop, whose end is hard to guess.
pub fn put_carbons(out: &mut [u8], at: usize, n: usize) -> usize
    requires { at + n ≤ length out.old }
    ensures { Written out.old at (replicate n 67) out.new result }
{
    if n < 4 {
        return put_each(out, at, n);
    }
    if 32 < n {
        return put_each(out, at, n);
    }
    if n < 8 {
        put_plain(out, at);
        return put_plain(out, at + (n - 4));
    }
    if n < 16 {
        put_eight(out, at);
        return put_eight(out, at + (n - 8));
    }
    put_sixteen(out, at);
    put_sixteen(out, at + (n - 16))
}

// Whether eight bonds from a place on are empty.
fn eight_empty<'a>(bonds: &'a [u8], i: usize) -> bool
    requires { i + 8 ≤ length bonds.now }
    ensures { result ≡ true → (j : ℕ) → j < 8 → get_or bonds.now (i + j) 0 ≡ 0 }
{
    if four_bytes::word(bonds, i) != 0 {
        return false;
    }
    four_bytes::word(bonds, i + 4) == 0
}

// Whether sixteen are.
fn sixteen_empty<'a>(bonds: &'a [u8], i: usize) -> bool
    requires { i + 16 ≤ length bonds.now }
    ensures { result ≡ true → (j : ℕ) → j < 16 → get_or bonds.now (i + j) 0 ≡ 0 }
{
    if !eight_empty(bonds, i) {
        return false;
    }
    eight_empty(bonds, i + 8)
}

// Whether so many bonds from a place on are empty; of few and of many it is not asked.
fn are_empty<'a>(bonds: &'a [u8], i: usize, n: usize) -> bool
    requires { i + n ≤ length bonds.now }
    ensures { result ≡ true → (j : ℕ) → j < n → get_or bonds.now (i + j) 0 ≡ 0 }
{
    if n < 4 {
        return false;
    }
    if 32 < n {
        return false;
    }
    if n < 8 {
        if four_bytes::word(bonds, i) != 0 {
            return false;
        }
        return four_bytes::word(bonds, i + (n - 4)) == 0;
    }
    if n < 16 {
        if !eight_empty(bonds, i) {
            return false;
        }
        return eight_empty(bonds, i + (n - 8));
    }
    if !sixteen_empty(bonds, i) {
        return false;
    }
    sixteen_empty(bonds, i + (n - 16))
}

// The same carbons as `put_through`, quicker where the bonds before them are all empty.
pub fn put_span<'a>(out: &mut [u8], at: usize, bonds: &'a [u8], k: usize, last: usize) -> usize
    requires { (1 ≤ k) × (k ≤ last + 1) × (last ≤ 255) × (last < length bonds.now) × (at + (last + 1 - k) * 2 ≤ length out.old) }
    ensures { Written out.old at (links_text bonds.now k (last + 1 - k)) out.new result }
{
    let n = last + 1 - k;
    if are_empty(bonds, k - 1, n) {
        return put_carbons(out, at, n);
    }
    put_through(out, at, bonds, k, last)
}

// Three carbons from C k on, each after the bond before it.
fn put_three<'a>(out: &mut [u8], at: usize, bonds: &'a [u8], k: usize) -> usize
    requires { (at + 6 ≤ length out.old) × (1 ≤ k) × (k + 1 < length bonds.now) }
    ensures { Written out.old at (links_text bonds.now k 3) out.new result }
{
    let p = put_two(out, at, bonds[k - 1], bonds[k]);
    put_link(out, p, bonds[k + 1])
}

// Three carbons from C k on, or those that are left up to the last: as many as have a mark or a double bond before them where a double bond
// stands at C k.
pub fn put_near<'a>(out: &mut [u8], at: usize, bonds: &'a [u8], k: usize, last: usize) -> Reached
    requires { (1 ≤ k) × (k ≤ last + 1) × (last ≤ 255) × (last < length bonds.now) × (at + (last + 1 - k) * 2 ≤ length out.old) }
    ensures { Links bonds.now [] k last out.old at out.new result.at result.carbon }
{
    if k + 2 <= last {
        let p = put_three(out, at, bonds, k);
        return Reached {
            at: p,
            carbon: k + 3,
        };
    }
    let p = link_ones(out, at, bonds, k, last);
    Reached {
        at: p,
        carbon: last + 1,
    }
}
