// Marker names: layers that carry no metal.

ghost use Rattle.std.specs.Prelude.{◌≡◌};
ghost use Rattle.names.specs.Bytes.{begins_with, contains};
ghost use Rattle.names.specs.Fields.{name_of};
ghost use Rattle.names.specs.Markers.{is_marker};

use crate::fields::name_length;

// Whether a name starts with a pattern. By hand, since `starts_with` compares all bytes and at most places the first one decides.
fn begins_with(name: &[u8], pattern: &[u8]) -> bool
    ensures { result ≡ begins_with pattern.now name.now }
{
    if name.len() < pattern.len() {
        return false;
    }
    for i in 0..pattern.len() {
        if pattern[i] != name[i] {
            return false;
        }
    }
    true
}

// Whether a pattern stands anywhere in a name.
fn contains_pattern(name: &[u8], pattern: &[u8]) -> bool
    ensures { result ≡ contains pattern.now name.now }
{
    for at in 0..name.len() {
        if begins_with(&name[at..], pattern) {
            return true;
        }
    }
    pattern.is_empty()
}

// Whether these bytes, a name without its padding, are a marker's.
#[tactic(auto, unfolding(crate::specs::Markers::is_marker))]
fn is_marker_name(name: &[u8]) -> bool
    ensures { result ≡ is_marker name.now }
{
    begins_with(name, b"seed_")
        || begins_with(name, b"BLOCK_")
        || contains_pattern(name, b"_prop")
        || contains_pattern(name, b"marker")
        || contains_pattern(name, b"drawing")
}

// Whether the name in a field is a marker's.
#[tactic(auto, using(crate::proofs::Laws::Fields::name_within, crate::proofs::Laws::Fields::name_front))]
pub fn is_marker(field: &[u8]) -> bool
    ensures { result ≡ is_marker (name_of field.now) }
{
    is_marker_name(&field[..name_length(field)])
}
