// Names, and the fields that hold them: 1 to 32 visible bytes and then zeros, 32 bytes in all.
// A list may be of any length and hold any bytes: a field that is not wholly there holds no name, and is neither the same
// as another nor before it.

ghost use Rattle.std.specs.Prelude.{◌≡◌, true, false, length, MatchOption};
ghost use Rattle.names.specs.Bytes.{all};
ghost use Rattle.names.specs.Fields.{visible, is_zero, allowed, name_of, name_allowed, name_or_absent, field_at, whole_at, same_field, field_before};

// Whether a name may have this byte.
fn is_visible(b: u8) -> bool
    ensures { result ≡ visible b }
{
    b.is_ascii_graphic()
}

// Whether a name may have each of these bytes.
fn all_visible(bytes: &[u8]) -> bool
    ensures { result ≡ all visible bytes.now }
{
    bytes.iter().all(|b| is_visible(*b))
}

// Whether there are zeros alone.
fn all_zero(bytes: &[u8]) -> bool
    ensures { result ≡ all is_zero bytes.now }
{
    bytes.iter().all(|b| *b == 0)
}

// How many bytes of a field stand before its padding.
pub fn name_length(field: &[u8]) -> usize
    ensures { result ≡ length (name_of field.now) }
{
    field.iter().position(|b| *b == 0).unwrap_or(field.len())
}

// Whether these bytes are an allowed name.
#[tactic(auto, using(crate::proofs::Laws::Library::same_is), unfolding(crate::specs::Fields::allowed))]
fn is_allowed(name: &[u8]) -> bool
    ensures { result ≡ allowed name.now }
{
    0 < name.len() && name.len() <= 32 && all_visible(name) && name != b"-".as_slice()
}

// Whether a field holds an allowed name, and zeros alone behind it.
#[tactic(auto, using(crate::proofs::Laws::Fields::name_within, crate::proofs::Laws::Fields::name_front), unfolding(crate::specs::Fields::name_allowed))]
pub fn name_allowed(field: &[u8]) -> bool
    ensures { result ≡ name_allowed field.now }
{
    // a list of any length may stand for a field: only one of 32 bytes is searched
    if field.len() != 32 {
        return false;
    }
    let (name, padding) = field.split_at(name_length(field));
    all_zero(padding) && is_allowed(name)
}

// Whether a field holds an allowed name, or is absent: 32 zeros.
#[tactic(auto, unfolding(crate::specs::Fields::name_or_absent))]
pub fn name_or_absent(field: &[u8]) -> bool
    ensures { result ≡ name_or_absent field.now }
{
    name_allowed(field) || field.len() == 32 && all_zero(field)
}

// The field that starts at a byte of a table, as far as it is there.
#[derive(Clone, Copy, Debug)]
pub struct Field<'a> {
    pub table: &'a [u8],
    pub at: usize,
}

impl<'a> Field<'a> {
    // Whether the field is wholly there.
    pub fn is_whole(self) -> bool
        ensures { result ≡ whole_at self.entry.table.now self.entry.at }
    {
        32 <= self.table.len() && self.at <= self.table.len() - 32
    }

    // Its bytes, if it is wholly there.
    fn bytes(self) -> Option<&'a [u8]>
        ensures { MatchOption result (whole_at self.entry.table.now self.entry.at ≡ false) (λ b. (whole_at self.entry.table.now self.entry.at ≡ true) × (b.now ≡ field_at self.entry.table.now self.entry.at)) }
    {
        if self.is_whole() {
            Some(&self.table[self.at..self.at + 32])
        } else {
            None
        }
    }

    // Whether it holds an allowed name.
    #[tactic(auto, using(crate::proofs::Laws::Fields::no_name_short))]
    pub fn is_named(self) -> bool
        ensures { result ≡ name_allowed (field_at self.entry.table.now self.entry.at) }
    {
        self.bytes().is_some_and(|field| name_allowed(field))
    }

    // Whether it holds an allowed name, or is absent.
    #[tactic(auto, using(crate::proofs::Laws::Fields::no_absent_short))]
    pub fn is_named_or_absent(self) -> bool
        ensures { result ≡ name_or_absent (field_at self.entry.table.now self.entry.at) }
    {
        self.bytes().is_some_and(|field| name_or_absent(field))
    }

    // Whether two fields are the same: for allowed names exactly when the names are equal. No `PartialEq`, since a field that is not wholly there
    // is not the same as itself.
    #[tactic(auto, using(crate::proofs::Laws::Library::same_is), unfolding(crate::specs::Fields::same_field))]
    pub fn is_same(self, other: Field) -> bool
        ensures { result ≡ same_field self.entry.table.now self.entry.at other.entry.table.now other.entry.at }
    {
        let (Some(a), Some(b)) = (self.bytes(), other.bytes()) else {
            return false;
        };
        a == b
    }

    // Whether one field comes before another: for allowed names exactly when the one name does, in byte order.
    #[tactic(auto, using(crate::proofs::Laws::Library::less_is), unfolding(crate::specs::Fields::field_before))]
    pub fn is_before(self, other: Field) -> bool
        ensures { result ≡ field_before self.entry.table.now self.entry.at other.entry.table.now other.entry.at }
    {
        let (Some(a), Some(b)) = (self.bytes(), other.bytes()) else {
            return false;
        };
        a.cmp(b).is_lt()
    }
}
