// The parents of a table as a forest, changed in place: lookups, the shortening of a way, one root hung under another. Numbers become `u16` by
// `as`, which is proved to keep them: `u16` has no `From<usize>`.
ghost use Rattle.std.specs.Prelude.{◌≡◌, ◌<◌, ◌≤◌};
ghost use Rattle.union_find.specs.Forest.{max_polygons, count_up, parent_of, root_of};
ghost use Rattle.union_find.specs.Table.{rank_of, looked, linked, joined};

use crate::{MAX_POLYGONS, Table, UnionFind};
use std::array;

// 0, 1, .., 511: every polygon its own parent.
pub fn own_parents() -> [u16; MAX_POLYGONS]
    ensures { result ≡ count_up max_polygons }
{
    array::from_fn(|i| i as u16)
}

impl UnionFind {
    // The parent of x, a polygon too.
    #[tactic(auto, using(crate::proofs::Laws::Forest::parent_read))]
    fn parent_of(&self, x: usize) -> usize
        requires { x < max_polygons }
        ensures parent { result ≡ parent_of self.now.table.parent x }
        ensures inside { result < max_polygons }
    {
        usize::from(self.table.parent[x])
    }

    // The root of x, a polygon too; nothing changes.
    pub(crate) fn root_above(&self, x: usize) -> usize
        requires { x < max_polygons }
        ensures root { result ≡ root_of self.now.table.parent x }
        ensures inside { result < max_polygons }
    {
        let mut r = x;
        while self.parent_of(r) != r {
            r = self.parent_of(r);
        }
        r
    }

    // Points every polygon on the way from x to its root r at r.
    fn point_at(&mut self, x: usize, r: usize)
        requires { (x < max_polygons) × (r ≡ root_of self.old.table.parent x) }
        ensures { self.new.table ≡ looked self.old.table x }
    {
        let mut c = x;
        while self.parent_of(c) != c {
            let next = self.parent_of(c);
            self.table.parent[c] = r as u16;
            c = next;
        }
    }

    // The root of x, at which every polygon on the way is pointed.
    pub(crate) fn look_up(&mut self, x: usize) -> usize
        requires { x < max_polygons }
        ensures root { result ≡ root_of self.old.table.parent x }
        ensures inside { result < max_polygons }
        ensures table { self.new.table ≡ looked self.old.table x }
    {
        let root = self.root_above(x);
        self.point_at(x, root);
        root
    }

    // Makes one class of those of a and b.
    pub(crate) fn join(&mut self, a: usize, b: usize)
        requires { (a < max_polygons) × (b < max_polygons) }
        ensures { self.new.table ≡ joined self.old.table a b }
    {
        let a = self.look_up(a);
        let b = self.look_up(b);
        self.table.link(a, b);
    }
}

impl Table {
    // Joins the roots a and b: the lower rank goes under the higher, and at a tie b under a, whose rank rises by one.
    #[tactic(auto, unfolding(crate::specs::Table::linked))]
    fn link(&mut self, a: usize, b: usize)
        requires { (a < max_polygons) × ((b < max_polygons) × (rank_of self.old.rank a ≤ 9)) }
        ensures { self.new ≡ linked self.old a b }
    {
        if a == b {
            return;
        }
        let rank_a = self.rank[a];
        let rank_b = self.rank[b];
        if rank_a < rank_b {
            self.parent[a] = b as u16;
        } else {
            self.parent[b] = a as u16;
            self.rank[a] = if rank_b < rank_a { rank_a } else { rank_a + 1 };
        }
    }
}
