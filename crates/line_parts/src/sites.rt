// The site list of a floating atom: `m:7:3.4.5.6`. Writers of the kind of `shown`.
ghost use Rattle.std.specs.Prelude.{[], ◌∷◌, map};
ghost use Rattle.writer.specs.emit.Text.{Written, decimal};
ghost use Rattle.reading_rules.specs.reading.Parting.{joined};
ghost use Rattle.reading_rules.specs.reading.Molecule.{at as noted};
ghost use Rattle.reading_rules.specs.reading.Show.{show_sites};
ghost use Rattle.line_parts.specs.shown.Chained.{shown_blocks, listed};

use super::shown::{put_block_lead, put_numbered, put_parting};
use writer::put_number;

// A site of a list.
fn put_site(out: &mut [u8], at: usize, more: bool, site: u16) -> usize
    ensures { Written out.old at (listed more 46 (decimal site)) out.new result }
{
    let p = put_parting(out, at, more, b'.');
    put_number(out, p, site as u32)
}

fn put_site_list(out: &mut [u8], at: usize, sites: &[u16]) -> usize
    ensures { Written out.old at (joined 46 (map decimal sites.now)) out.new result }
{
    let mut p = at;
    for (place, site) in sites.iter().enumerate() {
        p = put_site(out, p, 0 < place, *site);
    }
    p
}

fn put_sites_text(out: &mut [u8], at: usize, atom: u32, sites: &[u16]) -> usize
    ensures { Written out.old at (show_sites (noted atom sites.now)) out.new result }
{
    let p = put_numbered(out, at, b"m:", atom, b':');
    put_site_list(out, p, sites)
}

// The site list of a floating atom.
pub fn put_sites(out: &mut [u8], at: usize, first: bool, atom: u32, sites: &[u16]) -> usize
    ensures { Written out.old at (shown_blocks first (show_sites (noted atom sites.now) ∷ [])) out.new result }
{
    let p = put_block_lead(out, at, first);
    put_sites_text(out, p, atom, sites)
}
