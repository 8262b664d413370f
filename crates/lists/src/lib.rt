// What every lent list needs: the empty marks of its elements, and the fills with them.
// The laws of a written front, of filling, of scanning and of gathering stand in proofs/Laws.
#![tactic(auto)]

ghost use Rattle.std.specs.Prelude.{◌≡◌};
ghost use Rattle.lists.specs.Marks.{empty_number, empty_coordinate};
ghost use Rattle.lists.specs.Fills.{filled_from};

// The empty marks: what stands in a lent list where there is nothing to say.
pub const EMPTY_NUMBER: usize = usize::MAX;

pub const EMPTY_COORDINATE: f64 = 0.0;

// What the lists that callers lend are made of: whole numbers and coordinates, each with its empty mark.
pub trait Marked: Copy {
    ghost MARK: { Self };

    const MARK: Self;
}

impl Marked for usize {
    ghost MARK = { empty_number };

    const MARK: usize = EMPTY_NUMBER;
}

impl Marked for f64 {
    ghost MARK = { empty_coordinate };

    const MARK: f64 = EMPTY_COORDINATE;
}

// Fills a lent list with its empty mark, from a place to its end.
pub fn fill<T: Marked>(list: &mut [T], from: usize)
    ensures { list.new ≡ filled_from from T.MARK list.old }
{
    for i in from..list.len() {
        list[i] = T::MARK;
    }
}
