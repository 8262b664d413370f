// Jobs of the union-find table.
ghost use Rattle.std.specs.Prelude.{◌≡◌, ◌<◌};
ghost use Rattle.union_find.specs.Forest.{max_polygons, root_of};
ghost use Rattle.union_find.specs.Table.{looked, joined};

use crate::items::put_numbers;
use jobs::words::Words;
use jobs::writing::Answer;
use std::fmt;
use union_find::{MAX_POLYGONS, Table, UnionFind};

// The polygon of that number; the last one for a number that is none.
fn polygon(n: usize) -> usize
    ensures { result < max_polygons }
{
    n.min(MAX_POLYGONS - 1)
}

// A table: its parents and its ranks, each behind a slash.
fn put_table(table: &Table, out: &mut Answer<'_>) {
    out.put_byte(b'/');
    put_numbers(table.parent.iter().copied(), out);
    out.put_bytes(b" /");
    put_numbers(table.rank.iter().copied(), out);
}

// Makes one class of those of a and b, in place. Not inlined, as the next: written out in the loop below, both are slower.
#[inline(never)]
fn join(table: &mut UnionFind, a: usize, b: usize)
    requires { (a < max_polygons) × (b < max_polygons) }
    ensures { table.new.table ≡ joined table.old.table a b }
{
    *table = table.union(a, b);
}

// The root of a, at which every polygon on the way is pointed, in place.
#[inline(never)]
fn look_up(table: &mut UnionFind, a: usize) -> usize
    requires { a < max_polygons }
    ensures { (result ≡ root_of table.old.table.parent a) × (table.new.table ≡ looked table.old.table a) }
{
    let found = table.find(a);
    *table = found.table;
    found.root
}

// `joins COUNT OP..`: the roots that were looked up, the parents, the ranks. `u A B` joins, `f A` looks up and puts the root.
pub fn answer_joins(words: &mut Words<'_>, out: &mut Answer<'_>) -> fmt::Result {
    let mut table = UnionFind::new();
    for _ in 0..words.number() {
        let letter = words.byte();
        words.byte();
        let a = polygon(words.number());
        if letter == b'u' {
            let b = polygon(words.number());
            join(&mut table, a, b);
        } else {
            out.put_number(look_up(&mut table, a));
            out.put_byte(b' ');
        }
    }
    put_table(&table.table, out);
    Ok(())
}
