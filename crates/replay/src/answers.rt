// The answer to one job, by its kind.
use crate::rings::{answer_bands, answer_intervals, answer_pieces, answer_rects};
use crate::tables::answer_joins;
use geometry::Bbox;
use geomops::Operation;
use jobs::words::Words;
use jobs::writing::{Answer, Bits};
use names::markers::is_marker;
use std::fmt;
use std::fmt::Write;

// `cell X`: the cell of a coordinate.
fn answer_cell(words: &mut Words<'_>, out: &mut Answer<'_>) -> fmt::Result {
    let cell = geometry::cell(words.real());
    write!(out, "{cell}")
}

// `area RING`: the area of a ring.
fn answer_area(words: &mut Words<'_>, room: &mut [f64], out: &mut Answer<'_>) -> fmt::Result {
    let area = geometry::polygon_area(words.ring(room));
    write!(out, "{}", Bits(area))
}

// The corners of a box, parted by spaces.
fn put_box(b: Bbox, out: &mut Answer<'_>) -> fmt::Result {
    write!(
        out,
        "{} {} {} {}",
        Bits(b.min_x),
        Bits(b.min_y),
        Bits(b.max_x),
        Bits(b.max_y)
    )
}

// `box RING`: the box around a ring, or `empty`.
fn answer_box(words: &mut Words<'_>, room: &mut [f64], out: &mut Answer<'_>) -> fmt::Result {
    let bounds = Bbox::from_points(words.ring(room));
    if bounds.is_empty() {
        return out.write_str("empty");
    }
    put_box(bounds, out)
}

// `marker NAME`: whether a name is a marker's.
fn answer_marker(line: &[u8], out: &mut Answer<'_>) -> fmt::Result {
    let Some(name) = line.strip_prefix(b"marker ") else {
        return Ok(());
    };
    let yes = u8::from(is_marker(name));
    write!(out, "{yes}")
}

// The answer to a job that is one of the kinds above.
fn answer_kind(line: &[u8], room: &mut [f64], out: &mut Answer<'_>) -> fmt::Result {
    let mut words = Words::new(line);
    match words.word() {
        b"cell" => answer_cell(&mut words, out),
        b"area" => answer_area(&mut words, room, out),
        b"box" => answer_box(&mut words, room, out),
        b"intervals" => answer_intervals(&mut words, out),
        b"bands" => answer_bands(&mut words, out),
        b"minus" => answer_pieces(Operation::Minus, &mut words, out),
        b"meet" => answer_pieces(Operation::Intersection, &mut words, out),
        b"rects" => answer_rects(&mut words, out),
        b"marker" => answer_marker(line, out),
        b"joins" => answer_joins(&mut words, out),
        _ => out.write_str("bad"),
    }
}

// The answer to a job, ended by a line feed. `room` is for one ring, lent for all jobs, so that it is cleared once.
pub fn answer(line: &[u8], room: &mut [f64], out: &mut Answer<'_>) -> fmt::Result {
    answer_kind(line, room, out)?;
    writeln!(out)
}
