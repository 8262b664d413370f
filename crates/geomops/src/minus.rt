// What intervals leave of a rectangle.
ghost use Rattle.std.specs.Prelude.{◌≡◌};
ghost use Rattle.geomops.specs.declared.pieces.Operation.TheVariants.{Minus};
ghost use Rattle.geomops.specs.Crossings.{paired};
ghost use Rattle.geomops.specs.Rects.{Pushed};
ghost use Rattle.geomops.specs.Pieces.{is_apart, pieces_of};

use crate::rects::{NoRoom, Rect};

// Whether the interval from b0 to b1 lies beside r.
#[tactic(auto, unfolding(crate::specs::Pieces::is_apart))]
fn apart(b0: f64, b1: f64, r: Rect) -> bool
    ensures { result ≡ is_apart b0 b1 r }
{
    b1 <= r.x0 || b0 >= r.x1
}

// Writes what the intervals of bs leave of r; the next place. The side below an interval comes before the side above it, each
// less the intervals behind: the order in which the intervals are taken away in turn.
pub fn push_left(r: Rect, bs: &[f64], out: &mut [f64], place: usize) -> Result<usize, NoRoom>
    ensures { Pushed (pieces_of Minus (paired bs.now) r) out.old out.new place result }
{
    let &[b0, b1, ref rest @ ..] = bs else {
        return r.push_wide(out, place);
    };
    if apart(b0, b1, r) {
        return push_left(r, rest, out, place);
    }
    let below = Rect {
        x0: r.x0,
        y0: r.y0,
        x1: b0,
        y1: r.y1,
    };
    let above = Rect {
        x0: b1,
        y0: r.y0,
        x1: r.x1,
        y1: r.y1,
    };
    if b0 > r.x0 {
        let next = push_left(below, rest, out, place)?;
        if b1 < r.x1 {
            return push_left(above, rest, out, next);
        }
        return Ok(next);
    }
    if b1 < r.x1 {
        return push_left(above, rest, out, place);
    }
    Ok(place)
}
