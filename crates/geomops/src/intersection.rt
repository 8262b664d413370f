// What a rectangle shares with intervals.
ghost use Rattle.std.specs.Prelude.{◌≡◌};
ghost use Rattle.geomops.specs.declared.pieces.Operation.TheVariants.{Intersection};
ghost use Rattle.geomops.specs.Crossings.{paired};
ghost use Rattle.geomops.specs.Rects.{Pushed};
ghost use Rattle.geomops.specs.Pieces.{shared_part, pieces_of};

use crate::rects::{NoRoom, Rect};
use geometry::{maximum, minimum};

// The part of r that lies between b0 and b1.
fn shared_part(r: Rect, b0: f64, b1: f64) -> Rect
    ensures { result ≡ shared_part r (b0, b1) }
{
    Rect {
        x0: maximum(r.x0, b0),
        y0: r.y0,
        x1: minimum(r.x1, b1),
        y1: r.y1,
    }
}

// Writes the parts of r that the intervals of bs share with it, left to right; the next place.
pub fn push_shared(r: Rect, bs: &[f64], out: &mut [f64], place: usize) -> Result<usize, NoRoom>
    ensures { Pushed (pieces_of Intersection (paired bs.now) r) out.old out.new place result }
{
    let mut next = place;
    for &[b0, b1] in bs.as_chunks::<2>().0 {
        next = shared_part(r, b0, b1).push_wide(out, next)?;
    }
    Ok(next)
}
