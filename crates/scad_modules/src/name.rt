//! The table of the modules' names.

ghost use Rattle.std.specs.Prelude.{◌≡◌, IsTrue};
ghost use Rattle.scad_table.specs.Table.{entries, ascends};
ghost use Rattle.scad_modules.specs.Ids.{name_table, numbered_name};
ghost use Rattle.scad_modules.specs.Names.{meaning_of};

use crate::id::*;
use crate::module::{Extrusion, Flat, Module, Name, Shape, Transform};
use scad_table::{Row, find};

const NAMES: [Row; 36] = [
    Row {
        name: "assert",
        id: ASSERT,
    },
    Row {
        name: "assign",
        id: LEFT_OUT,
    },
    Row {
        name: "child",
        id: LEFT_OUT,
    },
    Row {
        name: "children",
        id: CHILDREN,
    },
    Row {
        name: "circle",
        id: CIRCLE,
    },
    Row {
        name: "color",
        id: UNION,
    },
    Row {
        name: "cube",
        id: CUBE,
    },
    Row {
        name: "cylinder",
        id: CYLINDER,
    },
    Row {
        name: "difference",
        id: DIFFERENCE,
    },
    Row {
        name: "echo",
        id: ECHO,
    },
    Row {
        name: "for",
        id: FOR,
    },
    Row {
        name: "group",
        id: UNION,
    },
    Row {
        name: "hull",
        id: HULL,
    },
    Row {
        name: "import",
        id: LEFT_OUT,
    },
    Row {
        name: "intersection",
        id: INTERSECTION,
    },
    Row {
        name: "intersection_for",
        id: INTERSECTION_FOR,
    },
    Row {
        name: "let",
        id: LET,
    },
    Row {
        name: "linear_extrude",
        id: LINEAR_EXTRUDE,
    },
    Row {
        name: "minkowski",
        id: LEFT_OUT,
    },
    Row {
        name: "mirror",
        id: MIRROR,
    },
    Row {
        name: "multmatrix",
        id: MULTMATRIX,
    },
    Row {
        name: "offset",
        id: LEFT_OUT,
    },
    Row {
        name: "polygon",
        id: POLYGON,
    },
    Row {
        name: "polyhedron",
        id: POLYHEDRON,
    },
    Row {
        name: "projection",
        id: LEFT_OUT,
    },
    Row {
        name: "render",
        id: UNION,
    },
    Row {
        name: "resize",
        id: LEFT_OUT,
    },
    Row {
        name: "rotate",
        id: ROTATE,
    },
    Row {
        name: "rotate_extrude",
        id: ROTATE_EXTRUDE,
    },
    Row {
        name: "scale",
        id: SCALE,
    },
    Row {
        name: "sphere",
        id: SPHERE,
    },
    Row {
        name: "square",
        id: SQUARE,
    },
    Row {
        name: "surface",
        id: LEFT_OUT,
    },
    Row {
        name: "text",
        id: LEFT_OUT,
    },
    Row {
        name: "translate",
        id: TRANSLATE,
    },
    Row {
        name: "union",
        id: UNION,
    },
];

/// The names in byte order.
fn names() -> &'static [Row]
    ensures ascends { IsTrue (ascends (entries result.now)) }
    ensures entries { entries result.now ≡ name_table }
{
    &NAMES
}

#[tactic(auto, unfolding(crate::specs::Ids::numbered_name))]
fn numbered_name(number: u16) -> Name
    ensures { result ≡ numbered_name number }
{
    match number {
        CUBE => Name::Known(Module::Shape(Shape::Cube)),
        SPHERE => Name::Known(Module::Shape(Shape::Sphere)),
        CYLINDER => Name::Known(Module::Shape(Shape::Cylinder)),
        POLYHEDRON => Name::Known(Module::Shape(Shape::Polyhedron)),
        SQUARE => Name::Known(Module::Flat(Flat::Square)),
        CIRCLE => Name::Known(Module::Flat(Flat::Circle)),
        POLYGON => Name::Known(Module::Flat(Flat::Polygon)),
        LINEAR_EXTRUDE => Name::Known(Module::Extrusion(Extrusion::Linear)),
        ROTATE_EXTRUDE => Name::Known(Module::Extrusion(Extrusion::Rotate)),
        TRANSLATE => Name::Known(Module::Transform(Transform::Translate)),
        SCALE => Name::Known(Module::Transform(Transform::Scale)),
        ROTATE => Name::Known(Module::Transform(Transform::Rotate)),
        MIRROR => Name::Known(Module::Transform(Transform::Mirror)),
        MULTMATRIX => Name::Known(Module::Transform(Transform::Multmatrix)),
        UNION => Name::Known(Module::Union),
        DIFFERENCE => Name::Known(Module::Difference),
        INTERSECTION => Name::Known(Module::Intersection),
        FOR => Name::For,
        INTERSECTION_FOR => Name::IntersectionFor,
        LET => Name::Let,
        CHILDREN => Name::Known(Module::Children),
        ECHO => Name::Known(Module::Echo),
        ASSERT => Name::Known(Module::Assert),
        LEFT_OUT => Name::LeftOut,
        HULL => Name::Known(Module::Hull),
        _ => Name::Unknown,
    }
}

/// What a name means where a module is called and the program defines none of this name.
pub fn meaning_of(name: &[u8]) -> Name
    ensures { result ≡ meaning_of name.now }
{
    match find(names(), name) {
        Some(number) => numbered_name(number),
        None => Name::Unknown,
    }
}
