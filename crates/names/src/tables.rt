// Tables of records: how many there are, and the first with a key.

ghost use Rattle.std.specs.Prelude.{◌≡◌};
ghost use Rattle.names.specs.Tables.{record_count, look_up, layer_record};

use crate::fields::Field;

// How many records of a width stand in a list of so many elements, one that is not wholly there counted.
pub fn record_count(size: usize, width: usize) -> usize
    ensures { result ≡ record_count size width }
{
    if width == 0 { 0 } else { size.div_ceil(width) }
}

// The first record of a table whose first field is the same as a field of another list, or of this one.
pub fn look_up(table: &[u8], width: usize, key: Field) -> Option<usize>
    ensures { result ≡ look_up table.now width key.entry.table.now key.entry.at }
{
    let records = table.len().checked_div(width)?;
    (0..records).find(|k| Field {
        table,
        at: *k * width,
    }
    .is_same(key))
}

// The first record of the layer table with a number.
pub fn layer_record(numbers: &[i16], number: i16) -> Option<usize>
    ensures { result ≡ layer_record numbers.now number }
{
    numbers.iter().position(|n| *n == number)
}
