// Component numbers: the classes of the conducting polygons, in the order of their least members.
ghost use Rattle.std.specs.Prelude.{◌≤◌, length};
ghost use Rattle.union_find.specs.Forest.{max_polygons};
ghost use Rattle.union_find.specs.Numbering.{Components};

use crate::{MAX_POLYGONS, UnionFind};
use lists::EMPTY_NUMBER;

// How many components the first n polygons have; in front of `components` stands the number of each, or `usize::MAX` where
// it does not conduct.
pub fn number_components(
    table: UnionFind,
    n: usize,
    conducts: &[bool],
    components: &mut [usize],
) -> usize
    requires few { n ≤ max_polygons }
    requires n_in_bounds { (n ≤ length conducts.now) × (n ≤ length components.old) }
    ensures { Components table.table.parent conducts.now n components.old components.new result }
{
    // The number of each root met so far.
    let mut numbers = [None; MAX_POLYGONS];
    let mut next = 0;
    for i in 0..n {
        if !conducts[i] {
            components[i] = EMPTY_NUMBER;
            continue;
        }
        let root = table.root_above(i);
        if let Some(number) = numbers[root] {
            components[i] = number;
        } else {
            numbers[root] = Some(next);
            components[i] = next;
            next += 1;
        }
    }
    next
}
