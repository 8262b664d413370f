// The ring of a polygon, as a part of the caller's own list of points.

ghost use Rattle.std.specs.Prelude.{◌≡◌, ◌+◌, ◌*◌, ◌^◌, ◌<◌, length};
ghost use Rattle.lists.specs.Front.{Front};
ghost use Rattle.layout.specs.Rings.{total, ring_of, starts_of, RingsIn};

// Writes the start of each ring, and the end of the last, in front of a work list.
pub fn ring_starts(lengths: &[usize], starts: &mut [usize])
    requires { (length lengths.now < length starts.old) × (2 * total lengths.now < 2 ^ 64) }
    ensures { Front (starts_of lengths.now) starts.old starts.new (length lengths.now + 1) }
{
    let mut at = 0;
    for (i, points) in lengths.iter().enumerate() {
        starts[i] = at;
        at += 2 * points;
    }
    starts[lengths.len()] = at;
}

// The ring of polygon i, by the starts in a work list; empty if there is none.
pub fn ring<'a>(points: &'a [f64], lengths: &[usize], starts: &[usize], i: usize) -> &'a [f64]
    requires { RingsIn points.now lengths.now starts.now }
    ensures { result.now ≡ ring_of points.now lengths.now i }
{
    if lengths.len() <= i {
        return &points[..0];
    }
    &points[starts[i]..starts[i + 1]]
}
