// Rectangles, and lists of them: x0, y0, x1, y1 each.
ghost use Rattle.std.specs.Prelude.{◌≡◌, Some, [], ◌∷◌, ◌<◌, ◌≤◌, codes, length};
ghost use Rattle.lists.specs.Front.{Front};
ghost use Rattle.geomops.specs.Rects.{area_of, ring_of, bbox_of, room_in, rect_at, rects_area, wide, Pushed};

use geometry::{Bbox, Point, maximum};
use std::error::Error;
use std::fmt;

#[derive(Clone, Copy, Debug, PartialEq)]
pub struct Rect {
    pub x0: f64,
    pub y0: f64,
    pub x1: f64,
    pub y1: f64,
}

// A lent list has no room for all rectangles.
#[derive(Clone, Copy, Debug, PartialEq, Eq)]
pub struct NoRoom;

impl fmt::Display for NoRoom {
    ghost output = { λ _. Some (codes "no room") };

    fn fmt<W: fmt::Write>(&self, f: &mut fmt::Formatter<W>) -> fmt::Result {
        write!(f, "no room")
    }
}

impl Error for NoRoom {}

impl Rect {
    // Width times height, each 0 where it is not above 0.
    #[tactic(auto, unfolding(crate::specs::Rects::area_of))]
    pub fn area(self) -> f64
        ensures { result ≡ area_of self }
    {
        maximum(0.0, self.x1 - self.x0) * maximum(0.0, self.y1 - self.y0)
    }

    // Writes the five points, the first one again at the end, in front of ring.
    #[tactic(auto, unfolding(crate::specs::Rects::ring_of))]
    pub fn to_ring(self, ring: &mut [f64])
        requires { 10 ≤ length ring.old }
        ensures { Front (ring_of self) ring.old ring.new 10 }
    {
        let Self { x0, y0, x1, y1 } = self;
        ring[..10].copy_from_slice(&[x0, y0, x1, y0, x1, y1, x0, y1, x0, y0]);
    }

    // The rectangle as a box.
    #[tactic(auto, unfolding(crate::specs::Rects::bbox_of))]
    pub fn bbox(self) -> Bbox
        ensures { result ≡ bbox_of self }
    {
        Bbox {
            min_x: self.x0,
            min_y: self.y0,
            max_x: self.x1,
            max_y: self.y1,
        }
    }

    // Writes the rectangle at a place of out, where there is room; the next place. List and place stay two values: a struct of both would hold
    // the list's `&mut`, and each contract on the way would have to say that it is still the same one.
    fn push(self, out: &mut [f64], place: usize) -> Result<usize, NoRoom>
        ensures { Pushed (self ∷ []) out.old out.new place result }
    {
        if out.len() / 4 <= place {
            return Err(NoRoom);
        }
        let Self { x0, y0, x1, y1 } = self;
        out[4 * place..4 * place + 4].copy_from_slice(&[x0, y0, x1, y1]);
        Ok(place + 1)
    }

    // The same, but only of a rectangle whose width counts.
    pub fn push_wide(self, out: &mut [f64], place: usize) -> Result<usize, NoRoom>
        ensures { Pushed (wide self) out.old out.new place result }
    {
        if self.x1 - self.x0 > Point::RESOLUTION {
            return self.push(out, place);
        }
        Ok(place)
    }
}

// Rectangle i of a list.
#[tactic(auto, unfolding(crate::specs::Rects::rect_at))]
pub fn rect_at(rects: &[f64], i: usize) -> Rect
    requires { i < room_in rects.now }
    ensures { result ≡ rect_at rects.now i }
{
    let at = 4 * i;
    Rect {
        x0: rects[at],
        y0: rects[at + 1],
        x1: rects[at + 2],
        y1: rects[at + 3],
    }
}

// The area of all rectangles of a list.
#[tactic(auto, unfolding(crate::specs::Rects::area_sum, crate::specs::Rects::rects_area))]
pub fn rects_area(rects: &[f64]) -> f64
    ensures { result ≡ rects_area rects.now }
{
    let mut sum = 0.0;
    for i in 0..rects.len() / 4 {
        sum += rect_at(rects, i).area();
    }
    sum
}
