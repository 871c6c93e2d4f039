// The sites on a part's cells as a list of numbers. Counting in it reads no cell, and has no branch in its loop.
ghost use Rattle.std.specs.Prelude.{◌≡◌, ◌/◌, ◌≤◌, length};
ghost use Rattle.cells.specs.Check.{max_image};
ghost use Rattle.cells.specs.Cells.{cells, Put};
ghost use Rattle.sites.specs.Sites.{site_by, sites_on};
ghost use Rattle.sites.specs.Numbered.{count_in, search_end};

use crate::Which;
use cells::read;
use cells::walk::Part;

// Writes the sites that are there to the start of a list; how many, since the rest of the list is as it was.
pub fn collect(s: &[u8], p: Part, w: Which, list: &mut [u32]) -> usize
    requires { length s.now / 16 ≤ length list.old }
    ensures { Put (sites_on (site_by p w) (cells s.now)) list.old list.new result }
{
    let mut found = 0;
    for cell in s.chunks_exact(read::CELL) {
        if let Some(x) = crate::cell_site(cell, p, w) {
            list[found] = x;
            found += 1;
        }
    }
    found
}

// How many of a list are x.
pub fn count(list: &[u32], x: u32) -> u32
    requires { length list.now ≤ max_image }
    ensures { result ≡ count_in list.now x }
{
    let mut found = 0;
    for &y in list {
        found += u32::from(y == x);
    }
    found
}

// Where a search for x ends: behind the list or, where it is none of its numbers, at once. (Not `contains`, which leaves at the first, by a branch at
// each number: most lists have none.)
pub fn search_end(list: &[u32], x: u32) -> usize
    requires { length list.now ≤ max_image }
    ensures { result ≡ search_end list.now x }
{
    if count(list, x) == 0 {
        return 0;
    }
    list.len()
}
