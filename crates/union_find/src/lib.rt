// Union-find over at most 512 polygons. The table goes in by value and comes back: a method takes it and hands it on.
#![tactic(auto)]

ghost use Rattle.std.specs.Prelude.{◌≡◌, ◌<◌};
ghost use Rattle.union_find.specs.Forest.{max_polygons, root_of};
ghost use Rattle.union_find.specs.Table.{WellFormed, fresh, looked, joined, Keeps, Unites};
ghost use Rattle.union_find.specs.Chain.{Polygons, pairs_of, joins, run};

mod forest;
mod number;

use forest::own_parents;
pub use number::number_components;

// How many polygons a layout may have.
pub const MAX_POLYGONS: usize = 512;

// parent: one step up; a root is its own parent. rank: 9 at most, and less than the parent's.
#[derive(Clone, Copy, Debug, PartialEq, Eq)]
pub struct Table {
    pub parent: [u16; MAX_POLYGONS],
    pub rank: [u8; MAX_POLYGONS],
}

// A table that is well formed, as every table is that `new`, `find` and `union` make.
#[derive(Clone, Copy, Debug, PartialEq, Eq)]
pub struct UnionFind {
    pub table: Table,
    pub ghost well_formed: { WellFormed table },
}

// What a lookup hands back: the table with the way shortened, and the root.
#[derive(Clone, Copy, Debug, PartialEq, Eq)]
pub struct Found {
    pub table: UnionFind,
    pub root: usize,
}

impl UnionFind {
    // A table in which every polygon is a root.
    #[tactic(auto, using(crate::proofs::Laws::Fresh::fresh_well), unfolding(crate::specs::Table::fresh))]
    pub fn new() -> Self
        ensures { result.table ≡ fresh }
    {
        let table = Table {
            parent: own_parents(),
            rank: [0; MAX_POLYGONS],
        };
        UnionFind { table }
    }

    // The root of x, and the table with every polygon on the way from x pointed at the root.
    #[tactic(auto, using(crate::proofs::Laws::Ranks::looked_keeps))]
    pub fn find(mut self, x: usize) -> Found
        requires { x < max_polygons }
        ensures { (result.root ≡ root_of self.table.parent x) × ((result.table.table ≡ looked self.table x) × Keeps self.table result.table.table) }
    {
        let root = self.look_up(x);
        Found { table: self, root }
    }

    // The table in which the classes of a and b are one.
    #[tactic(auto, using(crate::proofs::Laws::Joins::joined_unites))]
    pub fn union(mut self, a: usize, b: usize) -> Self
        requires { (a < max_polygons) × (b < max_polygons) }
        ensures { (result.table ≡ joined self.table a b) × Unites self.table a b result.table }
    {
        self.join(a, b);
        self
    }

    // The table after a union of the first two numbers of `pairs`, of the next two, and so on. A table that goes in and comes
    // back may be copied both ways: here once for the whole list, and not for each pair.
    pub fn union_pairs(mut self, pairs: &[usize]) -> Self
        requires { Polygons pairs.now }
        ensures { result.table ≡ run (joins (pairs_of pairs.now)) self.table }
    {
        for pair in pairs.chunks_exact(2) {
            self.join(pair[0], pair[1]);
        }
        self
    }
}
