//! How many triangles a primitive has.
ghost use Rattle.std.specs.Prelude.{◌≡◌, ◌≤◌};
ghost use Rattle.scad_cos.specs.Circle.{fragment_limit};
ghost use Rattle.scad_shapes.specs.Count.{HasFragments, sphere_triangles, prism_triangles, triangles_of};

/// A primitive, with what its number of triangles depends on.
#[derive(Clone, Copy)]
pub enum Form {
    Cube,
    /// Of so many fragments.
    Sphere(u32),
    /// Of so many fragments.
    Cylinder(u32),
    /// With so many points of all faces together, less two for each face.
    Polyhedron(u32),
}

/// The number of triangles that the primitive will have.
pub fn triangles_of(form: &Form) -> u64
    requires { HasFragments form.now }
    ensures { result ≡ triangles_of form.now }
{
    match *form {
        Form::Cube => 12,
        Form::Sphere(n) => sphere(u64::from(n)),
        Form::Cylinder(n) => prism(u64::from(n)),
        Form::Polyhedron(n) => u64::from(n),
    }
}

fn sphere(n: u64) -> u64
    requires some { 3 ≤ n }
    requires few { n ≤ fragment_limit }
    ensures { result ≡ sphere_triangles n }
{
    2 * (n - 2) + 2 * n * ((n + 1) / 2 - 1)
}

fn prism(n: u64) -> u64
    requires some { 3 ≤ n }
    requires few { n ≤ fragment_limit }
    ensures { result ≡ prism_triangles n }
{
    4 * n - 4
}
