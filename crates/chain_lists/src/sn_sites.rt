// The sn sites of a line, by rising sn and not by the order of the text. They are made in one pass over the places of the chains, which
// `rising` has put in order. Of a chain only what is noted of it is looked at.
ghost use Rattle.std.specs.Prelude.{◌≡◌, [], ◌∷◌, ◌<◌};
ghost use Rattle.chain_lists.specs.rising.Order.{places_in};
ghost use Rattle.chain_lists.specs.sn_sites.Sites.{has_site, sites_at, SitesHeld};

use super::rising::Rising;
use chain_rules::Role;
use drawn_chain::MAX_CHAINS;
use line_parts::{MAX_SITES, Site};
use placement::Placed;

// What stands past the last.
const NO_SITE: Site = Site { sn: 0, atom: 0 };

// Sites with their count; what it does not count is zero.
#[derive(Clone, Copy)]
pub struct Sites {
    pub count: usize,
    pub items: [Site; MAX_SITES],
}

// Whether a chain has a site; a base has none.
fn has_site(role: Role) -> bool
    ensures { result ≡ has_site role }
{
    match role {
        Role::Slot => true,
        Role::Acyl => true,
        Role::Base => false,
    }
}

// The site of a chain that has one.
fn site_of(p: &Placed) -> Site
    ensures { result ≡ record { sn = p.now.sn; atom = p.now.site } }
{
    Site {
        sn: p.sn as u32,
        atom: p.site,
    }
}

// The site of the chain at a place.
fn one_site(notes: &[Placed; MAX_CHAINS], k: usize) -> Sites
    ensures { SitesHeld (sites_at notes.now (k ∷ [])) result }
{
    if k < MAX_CHAINS {
        let p = &notes[k];
        if has_site(p.role) {
            let items = [site_of(p), NO_SITE, NO_SITE, NO_SITE];
            return Sites { count: 1, items };
        }
    }
    Sites {
        count: 0,
        items: [NO_SITE; MAX_SITES],
    }
}

// The sites of the chains at two places.
fn two_sites(notes: &[Placed; MAX_CHAINS], a: usize, b: usize) -> Sites
    requires a_bound { a < 4 }
    requires b_bound { b < 4 }
    ensures { SitesHeld (sites_at notes.now (a ∷ b ∷ [])) result }
{
    let first = &notes[a];
    let second = &notes[b];
    if has_site(first.role) {
        if has_site(second.role) {
            let items = [site_of(first), site_of(second), NO_SITE, NO_SITE];
            return Sites { count: 2, items };
        }
        let items = [site_of(first), NO_SITE, NO_SITE, NO_SITE];
        return Sites { count: 1, items };
    }
    if has_site(second.role) {
        let items = [site_of(second), NO_SITE, NO_SITE, NO_SITE];
        return Sites { count: 1, items };
    }
    Sites {
        count: 0,
        items: [NO_SITE; MAX_SITES],
    }
}

// The sites of the chains at some places, one after the other.
fn some_sites(notes: &[Placed; MAX_CHAINS], order: Rising) -> Sites
    ensures { SitesHeld (sites_at notes.now (places_in order)) result }
{
    let n = request_chains::in_places(order.count);
    let places = &order.items[..n];
    let mut sites = [NO_SITE; MAX_SITES];
    let mut count = 0;
    for place in places {
        let k = *place as usize;
        if k < MAX_CHAINS {
            let p = &notes[k];
            if has_site(p.role) {
                sites[count] = site_of(p);
                count += 1;
            }
        }
    }
    Sites {
        count,
        items: sites,
    }
}

// The sites of the chains at some places. Most lines have one chain or two, for which there is no loop: sites that are stored by their number
// and copied at once are waited for.
pub fn sites_by_sn(notes: &[Placed; MAX_CHAINS], order: Rising) -> Sites
    ensures { SitesHeld (sites_at notes.now (places_in order)) result }
{
    let n = request_chains::in_places(order.count);
    let items = order.items;
    if n == 2 {
        let a = items[0] as usize;
        let b = items[1] as usize;
        if a < MAX_CHAINS {
            if b < MAX_CHAINS {
                return two_sites(notes, a, b);
            }
            return some_sites(notes, order);
        }
        return some_sites(notes, order);
    }
    if n == 1 {
        return one_site(notes, items[0] as usize);
    }
    some_sites(notes, order)
}
