// The records of the tables, one by one, and the first of each table that is not allowed: answer 5.

ghost use Rattle.std.specs.Prelude.{◌≡◌, length};
ghost use Rattle.layout.specs.Records.{layer_named, layer_allowed, pair_named, pair_allowed, stack_allowed, port_allowed, bad_layer, bad_pair, bad_stack, bad_port};

use crate::counts::port_count;
use crate::job::LayerTable;
use names::fields::Field;
use names::tables::{layer_record, look_up, record_count};

// Whether record k of the layer table has a number and an allowed name.
#[tactic(auto, using(crate::proofs::Laws::Records::layer_short), unfolding(crate::specs::Records::layer_named))]
fn layer_named(table: LayerTable, k: usize) -> bool
    ensures { result ≡ layer_named table.entry.numbers.now table.entry.names.now k }
{
    let LayerTable { numbers, names } = table;
    k < numbers.len()
        && k < names.len() / 32
        && Field {
            table: names,
            at: k * 32,
        }
        .is_named()
}

// Whether it is allowed: of twin numbers the later is not.
#[tactic(auto, using(crate::proofs::Laws::Records::layer_there), unfolding(crate::specs::Records::layer_allowed))]
fn layer_allowed(table: LayerTable, k: usize) -> bool
    ensures { result ≡ layer_allowed table.entry.numbers.now table.entry.names.now k }
{
    layer_named(table, k) && layer_record(table.numbers, table.numbers[k]) == Some(k)
}

// Whether both names of record k of a table of pairs are allowed.
#[tactic(auto, using(crate::proofs::Laws::Records::pair_short), unfolding(crate::specs::Records::pair_named))]
fn pair_named(table: &[u8], k: usize) -> bool
    ensures { result ≡ pair_named table.now k }
{
    if k >= table.len() / 64 {
        return false;
    }
    let at = k * 64;
    Field { table, at }.is_named() && Field { table, at: at + 32 }.is_named()
}

// Whether record k of the conducting or the via map is allowed: of twin names the later is not.
#[tactic(auto, using(crate::proofs::Laws::Records::pair_there), unfolding(crate::specs::Records::pair_allowed))]
fn pair_allowed(table: &[u8], k: usize) -> bool
    ensures { result ≡ pair_allowed table.now k }
{
    pair_named(table, k) && look_up(table, 64, Field { table, at: k * 64 }) == Some(k)
}

// Whether record k of the via stack is allowed.
#[tactic(auto, using(crate::proofs::Laws::Records::stack_short), unfolding(crate::specs::Records::stack_allowed))]
fn stack_allowed(table: &[u8], k: usize) -> bool
    ensures { result ≡ stack_allowed table.now k }
{
    if k >= table.len() / 96 {
        return false;
    }
    let at = k * 96;
    Field { table, at }.is_named()
        && Field { table, at: at + 32 }.is_named_or_absent()
        && Field { table, at: at + 64 }.is_named_or_absent()
}

// Whether record k of the ports is allowed.
#[tactic(auto, unfolding(crate::specs::Records::port_allowed))]
fn port_allowed(names: &[u8], coordinates: usize, k: usize) -> bool
    ensures { result ≡ port_allowed names.now coordinates k }
{
    pair_named(names, k) && k < coordinates / 2
}

// ---- the first of a table that is not allowed

// Of the layer table.
pub fn bad_layer(table: LayerTable) -> Option<usize>
    ensures { result ≡ bad_layer table.entry.numbers.now table.entry.names.now }
{
    (0..table.count()).find(|k| !layer_allowed(table, *k))
}

// Of the conducting or the via map.
pub fn bad_pair(table: &[u8]) -> Option<usize>
    ensures { result ≡ bad_pair table.now }
{
    (0..record_count(table.len(), 64)).find(|k| !pair_allowed(table, *k))
}

// Of the via stack.
pub fn bad_stack(table: &[u8]) -> Option<usize>
    ensures { result ≡ bad_stack table.now }
{
    (0..record_count(table.len(), 96)).find(|k| !stack_allowed(table, *k))
}

// Of the ports.
pub fn bad_port(names: &[u8], coordinates: usize) -> Option<usize>
    ensures { result ≡ bad_port names.now coordinates }
{
    (0..port_count(names.len(), coordinates)).find(|k| !port_allowed(names, coordinates, *k))
}
