// The whole input of a call, as its caller lends it: list by list.

ghost use Rattle.std.specs.Prelude.{◌≡◌, length};
ghost use Rattle.layout.specs.Counts.{layer_count, port_count};

use crate::counts::{layer_count, port_count};

// Layer number to logical name, 32 bytes a record.
#[derive(Clone, Copy, Debug, PartialEq, Eq)]
pub struct LayerTable<'a> {
    pub numbers: &'a [i16],
    pub names: &'a [u8],
}

impl LayerTable<'_> {
    // How many records it has: those of the longer list.
    pub(crate) fn count(self) -> usize
        ensures { result ≡ layer_count (length self.entry.numbers.now) (length self.entry.names.now) }
    {
        layer_count(self.numbers.len(), self.names.len())
    }
}

// The polygons and the layer table, which every call takes.
#[derive(Clone, Copy, Debug, PartialEq)]
pub struct Layout<'a> {
    // x then y, ring after ring
    pub points: &'a [f64],
    // the points of each ring
    pub lengths: &'a [usize],
    // the layer number of each polygon
    pub layers: &'a [i16],
    pub layer_table: LayerTable<'a>,
}

// Name and logical layer of each port, 64 bytes a record, and its x and y.
#[derive(Clone, Copy, Debug, PartialEq)]
pub struct Ports<'a> {
    pub names: &'a [u8],
    pub points: &'a [f64],
}

impl Ports<'_> {
    // How many there are: by the longer list.
    pub(crate) fn count(self) -> usize
        ensures { result ≡ port_count (length self.entry.names.now) (length self.entry.points.now) }
    {
        port_count(self.names.len(), self.points.len())
    }
}

// What the extraction takes.
#[derive(Clone, Copy, Debug, PartialEq)]
pub struct Job<'a> {
    pub layout: Layout<'a>,
    // logical to physical, 64 bytes a record
    pub conducting: &'a [u8],
    pub via: &'a [u8],
    // via, bottom or absent, top or absent, 96 bytes a record
    pub stack: &'a [u8],
    pub ports: Ports<'a>,
}

// What the cut and the channel regions take: the two names, 32 bytes each.
#[derive(Clone, Copy, Debug, PartialEq)]
pub struct CutJob<'a> {
    pub layout: Layout<'a>,
    pub gate: &'a [u8],
    pub active: &'a [u8],
}
