// Jobs of one ring or two: intervals, bands, differences, intersections.
use crate::items::put_list;
use geomops::{
    NoRoom, Operation, Work, polygon_intersection_rects, polygon_minus_polygon, rects_area,
    ring_bands, x_intervals_at,
};
use jobs::words::Words;
use jobs::writing::{Answer, Bits};
use std::fmt;
use std::fmt::Write;

// How many there are, and then the numbers of a list, a space in front of each.
fn put_reals(many: usize, list: &[f64], out: &mut Answer<'_>) -> fmt::Result {
    write!(out, "{many}")?;
    put_list(list.iter().map(|x| Bits(*x)), out)
}

// `intervals Y RING`: how many intervals a ring has at height y, and their ends.
pub fn answer_intervals(words: &mut Words<'_>, out: &mut Answer<'_>) -> fmt::Result {
    let mut room = [0.0; 512];
    let mut xs = [0.0; 256];
    let y = words.real();
    let n = x_intervals_at(words.ring(&mut room), y, &mut xs);
    put_reals(n / 2, &xs[..n / 2 * 2], out)
}

// `bands RING RING`: how many heights of two rings are kept, and which.
pub fn answer_bands(words: &mut Words<'_>, out: &mut Answer<'_>) -> fmt::Result {
    let mut first = [0.0; 512];
    let mut second = [0.0; 512];
    let mut hs = [0.0; 512];
    let mut ys = [0.0; 512];
    let a = words.ring(&mut first);
    let b = words.ring(&mut second);
    let n = ring_bands(a, b, &mut hs, &mut ys);
    put_reals(n, &ys[..n], out)
}

// Rectangles: how many, and the corners of each.
fn put_pieces(made: Result<usize, NoRoom>, rects: &[f64], out: &mut Answer<'_>) -> fmt::Result {
    match made {
        Ok(n) => put_reals(n, &rects[..n.saturating_mul(4).min(rects.len())], out),
        Err(no_room) => write!(out, "{no_room}"),
    }
}

// `minus RING RING` and `meet RING RING`: the difference or the intersection of two rings.
pub fn answer_pieces(op: Operation, words: &mut Words<'_>, out: &mut Answer<'_>) -> fmt::Result {
    let mut first = [0.0; 512];
    let mut second = [0.0; 512];
    let mut hs = [0.0; 512];
    let mut ys = [0.0; 512];
    let mut xa = [0.0; 256];
    let mut xb = [0.0; 256];
    let mut rects = [0.0; 8192];
    let a = words.ring(&mut first);
    let b = words.ring(&mut second);
    let mut work = Work {
        hs: &mut hs,
        ys: &mut ys,
        xa: &mut xa,
        xb: &mut xb,
    };
    // by the source's names, which are what is compared with it
    let made = match op {
        Operation::Minus => polygon_minus_polygon(a, b, &mut work, &mut rects),
        Operation::Intersection => polygon_intersection_rects(a, b, &mut work, &mut rects),
    };
    put_pieces(made, &rects, out)
}

// `rects N x0 y0 x1 y1 ..`: the area of N rectangles.
pub fn answer_rects(words: &mut Words<'_>, out: &mut Answer<'_>) -> fmt::Result {
    let mut room = [0.0; 8192];
    let rects = &mut room[..words.number().min(2048) * 4];
    words.reals(rects);
    let area = rects_area(rects);
    write!(out, "{}", Bits(area))
}
