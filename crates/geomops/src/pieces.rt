// The difference and the intersection of two rings, as rectangles between neighbouring heights.
ghost use Rattle.std.specs.Prelude.{◌≡◌, ◌≤◌, length};
ghost use mathlib.Core.List.{flat_map};
ghost use Rattle.lists.specs.Front.{Front};
ghost use Rattle.geometry.specs.Ring.{points_in};
ghost use Rattle.geomops.specs.Crossings.{paired};
ghost use Rattle.geomops.specs.Heights.{neighbours};
ghost use Rattle.geomops.specs.Rects.{Pushed, Pieced};
ghost use Rattle.geomops.specs.Pieces.{rect_over, pieces_of, covered_at, band_pieces, enough, pieces_between};
ghost use Rattle.geomops.specs.Work.{CrossingRoom};

use crate::heights::line_between;
use crate::intersection::push_shared;
use crate::intervals::x_intervals_at;
use crate::minus::push_left;
use crate::rects::{NoRoom, Rect};

// What becomes of the first ring's intervals: the second's are taken away from them, or what they share is kept.
#[derive(Clone, Copy, Debug, PartialEq, Eq)]
pub enum Operation {
    Minus,
    Intersection,
}

// Writes the pieces of one rectangle, by the intervals of bs; the next place.
fn push_pieces(
    op: Operation,
    r: Rect,
    bs: &[f64],
    out: &mut [f64],
    place: usize,
) -> Result<usize, NoRoom>
    ensures { Pushed (pieces_of op (paired bs.now) r) out.old out.new place result }
{
    match op {
        Operation::Minus => push_left(r, bs, out, place),
        Operation::Intersection => push_shared(r, bs, out, place),
    }
}

// The same of each interval of xs, left to right, between the heights y0 and y1.
fn push_spans(
    op: Operation,
    xs: &[f64],
    bs: &[f64],
    y0: f64,
    y1: f64,
    out: &mut [f64],
    place: usize,
) -> Result<usize, NoRoom>
    ensures { Pushed (flat_map (λ s. pieces_of op (paired bs.now) (rect_over y0 y1 s)) (paired xs.now)) out.old out.new place result }
{
    let mut next = place;
    for &[x0, x1] in xs.as_chunks::<2>().0 {
        next = push_pieces(op, Rect { x0, y0, x1, y1 }, bs, out, next)?;
    }
    Ok(next)
}

// The crossings of the second ring at height y, none of a ring under 3 points, in front of xs; how many there are.
#[tactic(auto, using(lists::proofs::Laws::Front::front_none), unfolding(crate::specs::Pieces::covered_at))]
fn covered_at(b: &[f64], y: f64, xs: &mut [f64]) -> usize
    requires { points_in b.now ≤ length xs.old }
    ensures { Front (covered_at b.now y) xs.old xs.new result }
{
    if b.len() / 2 < 3 {
        return 0;
    }
    x_intervals_at(b, y, xs)
}

// The rings of an operation, each with a work list that has room for its crossings.
#[derive(Drop)]
struct Rings<'a> {
    op: Operation,
    a: &'a [f64],
    b: &'a [f64],
    xa: &'a mut [f64],
    xb: &'a mut [f64],
    ghost room_a: { points_in a.now ≤ length xa.now },
    ghost room_b: { points_in b.now ≤ length xb.now },
}

impl Rings<'_> {
    // Writes the pieces between two neighbouring heights; the next place.
    fn push_band(
        &mut self,
        y0: f64,
        y1: f64,
        out: &mut [f64],
        place: usize,
    ) -> Result<usize, NoRoom>
        ensures same { (self.new.op ≡ self.old.op) × (self.new.a.now ≡ self.old.a.now) × (self.new.b.now ≡ self.old.b.now) }
        ensures pushed { Pushed (band_pieces self.old.op self.old.a.now self.old.b.now (y0, y1)) out.old out.new place result }
    {
        if y1 <= y0 {
            return Ok(place);
        }
        let y = line_between(y0, y1);
        let xa = &mut *self.xa;
        let na = x_intervals_at(self.a, y, xa);
        if na < 2 {
            return Ok(place);
        }
        let xb = &mut *self.xb;
        let nb = covered_at(self.b, y, xb);
        push_spans(self.op, &xa[..na], &xb[..nb], y0, y1, out, place)
    }

    // The same between all neighbouring heights of ys, upward, from the first place on.
    fn push_bands(&mut self, ys: &[f64], out: &mut [f64]) -> Result<usize, NoRoom>
        ensures { Pushed (flat_map (band_pieces self.old.op self.old.a.now self.old.b.now) (neighbours ys.now)) out.old out.new 0 result }
    {
        let mut next = 0;
        for &[y0, y1] in ys.array_windows::<2>() {
            next = self.push_band(y0, y1, out, next)?;
        }
        Ok(next)
    }
}

// Whether the rings have points enough: the first at least 3, and for an intersection the second too.
#[tactic(auto, unfolding(crate::specs::Pieces::enough))]
fn has_pieces(op: Operation, na: usize, nb: usize) -> bool
    ensures { result ≡ enough op na nb }
{
    match op {
        Operation::Minus => 3 <= na,
        Operation::Intersection => 3 <= na && 3 <= nb,
    }
}

// Writes the pieces of two rings between neighbouring heights of ys into out, as many as there is room for; how many there are, or that
// there is no room for all. xa and xb are work lists, for the crossings of each ring.
pub fn pieces_between(
    op: Operation,
    a: &[f64],
    b: &[f64],
    ys: &[f64],
    xa: &mut [f64],
    xb: &mut [f64],
    out: &mut [f64],
) -> Result<usize, NoRoom>
    requires { CrossingRoom a.now b.now xa.old xb.old }
    ensures { Pieced (pieces_between op a.now b.now ys.now) out.old out.new result }
{
    if !has_pieces(op, a.len() / 2, b.len() / 2) {
        return Ok(0);
    }
    let mut rings = Rings { op, a, b, xa, xb };
    rings.push_bands(ys, out)
}
