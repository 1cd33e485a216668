//! The modules of the language.

/// A primitive solid.
#[derive(Clone, Copy)]
pub enum Shape {
    Cube,
    Sphere,
    Cylinder,
    Polyhedron,
}

/// A flat shape.
#[derive(Clone, Copy)]
pub enum Flat {
    Square,
    Circle,
    Polygon,
}

/// A module that makes solids of the flat shapes among its children.
#[derive(Clone, Copy)]
pub enum Extrusion {
    /// `linear_extrude`.
    Linear,
    /// `rotate_extrude`.
    Rotate,
}

/// A module whose children are placed by a further matrix.
#[derive(Clone, Copy)]
pub enum Transform {
    Translate,
    Scale,
    Rotate,
    Mirror,
    Multmatrix,
}

/// A module of the language.
#[derive(Clone, Copy)]
pub enum Module {
    Shape(Shape),
    Flat(Flat),
    Extrusion(Extrusion),
    Transform(Transform),
    /// `color`, `render`, `group` and `union`.
    Union,
    Difference,
    Intersection,
    Hull,
    Children,
    Echo,
    Assert,
}

/// What a name means where a module is called and the program defines none of this name.
#[derive(Clone, Copy)]
pub enum Name {
    Known(Module),
    For,
    IntersectionFor,
    Let,
    /// A module of the OpenSCAD User Manual that the language leaves out.
    LeftOut,
    Unknown,
}
