// The corner of the link table, which is lent as a slice of links. The links are listed here in their order, written from here to the result,
// and cleared. The functions that name the table are few, and leave the work to functions over plain numbers.

ghost use Rattle.std.specs.Prelude.{◌≡◌, ◌+◌, ◌*◌, ◌≤◌, length, replicate};
ghost use Rattle.rules.specs.Result.{link_size};
ghost use Rattle.memory.specs.Placed.{placed};
ghost use Rattle.purge.specs.Network.{links_in};
ghost use Rattle.result.specs.Order.{no_link};
ghost use Rattle.result.specs.Table.{Listable, link_bytes, table_bytes};

use crate::ordered::next_link;
use memory::{clear, put_three};
use rules::{LINK_SIZE, Link};

// No link: it stands before the first.
const NONE: Link = Link {
    low: 0,
    high: 0,
    length: 0,
};

// The n links of t types are listed, each behind the one before.
pub fn list_links(area: &[u16], t: usize, n: usize, links: &mut [Link])
    requires { Listable area.now t n links.old }
    ensures { links.new ≡ placed links.old 0 (links_in t area.now) }
{
    let mut last = NONE;
    for k in 0..n {
        last = next_link(area, t, last);
        links[k] = last;
    }
}

// The bytes of link k, behind those of the links before it, which begin at a place.
fn put_link(link: Link, out: &mut [u8], at: usize, k: usize)
    requires { at + link_size * k + link_size ≤ length out.old }
    ensures { out.new ≡ placed out.old (at + link_size * k) (link_bytes link) }
{
    put_three(
        out,
        at + LINK_SIZE * k,
        link.low as usize,
        link.high as usize,
        link.length as usize,
    );
}

// The bytes of the first n links of the table, at a place of the result.
pub fn put_links(links: &[Link], n: usize, out: &mut [u8], at: usize)
    requires { (n ≤ length links.now) × (at + link_size * n ≤ length out.old) }
    ensures { out.new ≡ placed out.old at (table_bytes n links.now) }
{
    for k in 0..n {
        put_link(links[k], out, at, k);
    }
}

// No link is left in the table.
pub fn clear_links(links: &mut [Link])
    ensures { links.new ≡ replicate (length links.old) no_link }
{
    clear(links, NONE);
}
