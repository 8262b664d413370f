// Counts of what comes in, and the tests of the answers 1, 2 and 3. The places of lists and counts are those of the table of answers.

ghost use Rattle.std.specs.Prelude.{◌≡◌, eqb, length};
ghost use Rattle.layout.specs.Rings.{total};
ghost use Rattle.layout.specs.Counts.{layer_count, port_count, short_extraction, short_cut, short_channel, long_ring, over_layout, over_tables, uneven};

use crate::bounds::{
    CHANNEL_COORDINATES, CONNECTION_ROOM, CUT_COORDINATES, CUT_RINGS, MAX_POINTS, MAX_POLYGONS,
    MAX_RECORDS, MAX_RING,
};
use names::tables::record_count;

// How many records the layer table has, from the lengths of its lists.
pub fn layer_count(numbers: usize, names: usize) -> usize
    ensures { result ≡ layer_count numbers names }
{
    numbers.max(record_count(names, 32))
}

// How many ports there are, from the lengths of their lists.
pub fn port_count(names: usize, coordinates: usize) -> usize
    ensures { result ≡ port_count names coordinates }
{
    record_count(names, 64).max(record_count(coordinates, 2))
}

// ---- answer 1

// The first of the extraction's lent lists that is too short.
#[tactic(auto, unfolding(crate::specs::Counts::short_extraction))]
pub fn short_extraction(
    polygons: usize,
    ports: usize,
    components: usize,
    connections: usize,
    landings: usize,
) -> Option<usize>
    ensures { result ≡ short_extraction polygons ports components connections landings }
{
    [
        components < polygons,
        connections < CONNECTION_ROOM,
        landings < ports,
    ]
    .iter()
    .position(|short| *short)
}

// The first of the cut's lent lists that is too short.
#[tactic(auto, unfolding(crate::specs::Counts::short_cut))]
pub fn short_cut(coordinates: usize, lengths: usize, sources: usize) -> Option<usize>
    ensures { result ≡ short_cut coordinates lengths sources }
{
    [
        coordinates < CUT_COORDINATES,
        lengths < CUT_RINGS,
        sources < CUT_RINGS,
    ]
    .iter()
    .position(|short| *short)
}

// Whether the channel regions' lent list is too short.
#[tactic(auto, unfolding(crate::specs::Counts::short_channel))]
pub fn short_channel(coordinates: usize) -> Option<usize>
    ensures { result ≡ short_channel coordinates }
{
    (coordinates < CHANNEL_COORDINATES).then_some(0)
}

// ---- answer 2

// The first ring of too many points.
fn long_ring(lengths: &[usize]) -> Option<usize>
    ensures { result ≡ long_ring lengths.now }
{
    lengths.iter().position(|n| *n > MAX_RING)
}

// The first count of a layout that is over its bound: polygons, points, one ring, layers. The rings are not searched where there are too many
// of them or of points, since such a list may be of any length.
#[tactic(auto, unfolding(crate::specs::Counts::over_layout))]
pub fn over_layout(lengths: &[usize], coordinates: usize, layers: usize) -> Option<usize>
    ensures { result ≡ over_layout lengths.now coordinates layers }
{
    let polygons = lengths.len() > MAX_POLYGONS;
    let points = coordinates / 2 > MAX_POINTS;
    [
        polygons,
        points,
        !polygons && !points && long_ring(lengths).is_some(),
        layers > MAX_RECORDS,
    ]
    .iter()
    .position(|over| *over)
}

// The first table of too many records, by its place among the counts: conducting, via, stack, ports.
#[tactic(auto, unfolding(crate::specs::Counts::over_tables))]
pub fn over_tables(conducting: usize, via: usize, stack: usize, ports: usize) -> Option<usize>
    ensures { result ≡ over_tables conducting via stack ports }
{
    let first = [
        conducting > MAX_RECORDS,
        via > MAX_RECORDS,
        stack > MAX_RECORDS,
        ports > MAX_RECORDS,
    ]
    .iter()
    .position(|over| *over)?;
    Some(4 + first)
}

// ---- answer 3

// Whether ring lengths add up to a number of points.
fn adds_up(lengths: &[usize], points: usize) -> bool
    ensures { result ≡ eqb (total lengths.now) points }
{
    let mut left = points;
    for ring in lengths {
        let Some(rest) = left.checked_sub(*ring) else {
            return false;
        };
        left = rest;
    }
    left == 0
}

// Whether the lists of a layout do not fit together.
#[tactic(auto, unfolding(crate::specs::Counts::uneven))]
pub fn is_uneven(coordinates: usize, lengths: &[usize], layers: usize) -> bool
    ensures { result ≡ uneven coordinates lengths.now layers }
{
    coordinates % 2 != 0 || lengths.len() != layers || !adds_up(lengths, coordinates / 2)
}
