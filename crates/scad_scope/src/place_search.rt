//! Entries by their places.

ghost use Rattle.std.specs.Prelude.{◌≡◌, map};
ghost use Rattle.scad_scope.specs.ListedValues.{number_in, place_in_entry};

use scad_value::Value;

/// The number of the entry of a place, or how many entries there are.
pub fn number_of(all: &[(usize, Value)], place: usize) -> usize
    ensures { result ≡ number_in place (map place_in_entry all.now) }
{
    let mut i = 0;
    'entries: for entry in all {
        if entry.0 == place {
            return i;
        }
        i += 1;
    }
    i
}
