//! How many triangles an extrusion has.
ghost use Rattle.std.specs.Prelude.{◌≡◌};
ghost use Rattle.scad_extrude.specs.Count.{HasParts, triangles_of};

/// An extrusion, with what its number of triangles depends on.
#[derive(Clone, Copy)]
pub enum FlatForm {
    /// Of an outline of so many points.
    Linear(u32),
    /// Of an outline of so many points, in so many turns.
    Turned(u32, u32),
}

/// The number of triangles that the extrusion will have.
pub fn triangles_of(form: &FlatForm) -> u64
    requires { HasParts form.now }
    ensures { result ≡ triangles_of form.now }
{
    match *form {
        FlatForm::Linear(points) => 4 * u64::from(points) - 4,
        FlatForm::Turned(points, turns) => 2 * (u64::from(turns) * u64::from(points)),
    }
}
