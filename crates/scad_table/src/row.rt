//! Rows of names and ids, found by binary search.
ghost use Rattle.std.specs.Prelude.{◌≡◌, ◌≢◌, ◌↔◌, IsTrue, IsNone, All};
ghost use Rattle.std.specs.Ordering.{nat_cmp};
ghost use Rattle.std.specs.Cmp.Lexicographic.{slice_cmp};
ghost use Rattle.scad_table.specs.Table.{entries, ascends, id_of};

use std::cmp::Ordering;

/// A name and its id.
#[derive(Clone, Copy)]
pub struct Row {
    pub name: &'static str,
    pub id: u16,
}

impl Row {
    // The byte order of the row's name and this one.
    fn cmp_name(&self, name: &[u8]) -> Ordering
        ensures { result ≡ slice_cmp nat_cmp self.now.name.now name.now }
    {
        self.name.as_bytes().cmp(name)
    }
}

/// The id of the row that has the name, by binary search; none where no row has it.
pub fn find(rows: &[Row], name: &[u8]) -> Option<u16>
    requires { IsTrue (ascends (entries rows.now)) }
    ensures given { result ≡ id_of (entries rows.now) name.now }
    ensures listed { All (λ row. row.name.now ≡ name.now → result ≡ Some row.id) rows.now }
    ensures missing { IsNone result ↔ All (λ row. row.name.now ≢ name.now) rows.now }
{
    match rows.binary_search_by(|row| row.cmp_name(name)) {
        Ok(at) => Some(rows[at].id),
        Err(_) => None,
    }
}
