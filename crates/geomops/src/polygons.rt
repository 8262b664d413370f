// The operations on two rings under the names of the source. out takes the rectangles.
ghost use Rattle.std.specs.Prelude.{◌≡◌, ◌+◌, ◌≤◌, length};
ghost use Rattle.geomops.specs.Sorted.{merged};
ghost use Rattle.geomops.specs.Heights.{thinned, bands_of};
ghost use Rattle.geomops.specs.Rects.{Pieced};
ghost use Rattle.geomops.specs.Pieces.{pieces_between, minus_rects, intersection_rects};
ghost use Rattle.geomops.specs.Work.{CrossingRoom, HeightRoom, HasRoom, SameRoom};

use crate::heights::{bands, ring_bands};
use crate::pieces::{Operation, pieces_between};
use crate::rects::NoRoom;

// Work lists, lent by the caller: for the sorted heights of both rings, for the bands, and for the crossings of each ring. Each is lent for a
// time of its own, so any four lists make one.
#[derive(Drop)]
pub struct Work<'h, 'y, 'a, 'b> {
    pub hs: &'h mut [f64],
    pub ys: &'y mut [f64],
    pub xa: &'a mut [f64],
    pub xb: &'b mut [f64],
}

// Writes the pieces of a and b into out, as many rectangles as there is room for; how many there are, or that there is no room for all.
// The lists come one by one, since a part of ys is lent beside xa and xb.
fn polygon_pieces(
    op: Operation,
    a: &[f64],
    b: &[f64],
    hs: &mut [f64],
    ys: &mut [f64],
    xa: &mut [f64],
    xb: &mut [f64],
    out: &mut [f64],
) -> Result<usize, NoRoom>
    requires interval_room { CrossingRoom a.now b.now xa.old xb.old }
    requires height_room { HeightRoom a.now b.now hs.old ys.old }
    ensures { Pieced (pieces_between op a.now b.now (bands_of a.now b.now)) out.old out.new result }
{
    let n = ring_bands(a, b, hs, ys);
    pieces_between(op, a, b, &ys[..n], xa, xb, out)
}

// Writes a less b into out, as many rectangles as there is room for; how many there are, or that there is no room for all.
#[tactic(auto, unfolding(crate::specs::Pieces::minus_rects))]
pub fn polygon_minus_polygon(
    a: &[f64],
    b: &[f64],
    work: &mut Work,
    out: &mut [f64],
) -> Result<usize, NoRoom>
    requires { HasRoom a.now b.now work.old }
    ensures room { SameRoom work.old work.new }
    ensures pieces { Pieced (minus_rects a.now b.now) out.old out.new result }
{
    polygon_pieces(
        Operation::Minus,
        a,
        b,
        work.hs,
        work.ys,
        work.xa,
        work.xb,
        out,
    )
}

// Writes what a and b share into out, as many rectangles as there is room for; how many there are, or that there is no room for all.
#[tactic(auto, unfolding(crate::specs::Pieces::intersection_rects))]
pub fn polygon_intersection_rects(
    a: &[f64],
    b: &[f64],
    work: &mut Work,
    out: &mut [f64],
) -> Result<usize, NoRoom>
    requires { HasRoom a.now b.now work.old }
    ensures room { SameRoom work.old work.new }
    ensures pieces { Pieced (intersection_rects a.now b.now) out.old out.new result }
{
    polygon_pieces(
        Operation::Intersection,
        a,
        b,
        work.hs,
        work.ys,
        work.xa,
        work.xb,
        out,
    )
}

// Either operation on rings whose sorted heights ha and hb are known: with these, and no NaN among them, the pieces are those of the two
// functions above.
pub fn pieces_sorted(
    op: Operation,
    a: &[f64],
    b: &[f64],
    ha: &[f64],
    hb: &[f64],
    ys: &mut [f64],
    xa: &mut [f64],
    xb: &mut [f64],
    out: &mut [f64],
) -> Result<usize, NoRoom>
    requires { CrossingRoom a.now b.now xa.old xb.old × (length ha.now + length hb.now ≤ length ys.old) }
    ensures { Pieced (pieces_between op a.now b.now (thinned (merged ha.now hb.now))) out.old out.new result }
{
    let n = bands(ha, hb, ys);
    pieces_between(op, a, b, &ys[..n], xa, xb, out)
}
