//! The ids of the modules' names.

pub(crate) const CUBE: u16 = 0;

pub(crate) const SPHERE: u16 = 1;

pub(crate) const CYLINDER: u16 = 2;

pub(crate) const POLYHEDRON: u16 = 3;

pub(crate) const SQUARE: u16 = 4;

pub(crate) const CIRCLE: u16 = 5;

pub(crate) const POLYGON: u16 = 6;

pub(crate) const LINEAR_EXTRUDE: u16 = 7;

pub(crate) const ROTATE_EXTRUDE: u16 = 8;

pub(crate) const TRANSLATE: u16 = 9;

pub(crate) const SCALE: u16 = 10;

pub(crate) const ROTATE: u16 = 11;

pub(crate) const MIRROR: u16 = 12;

pub(crate) const MULTMATRIX: u16 = 13;
/// Of `color`, `render`, `group` and `union`.
pub(crate) const UNION: u16 = 14;

pub(crate) const DIFFERENCE: u16 = 15;

pub(crate) const INTERSECTION: u16 = 16;

pub(crate) const FOR: u16 = 17;

pub(crate) const INTERSECTION_FOR: u16 = 18;

pub(crate) const LET: u16 = 19;

pub(crate) const CHILDREN: u16 = 20;

pub(crate) const ECHO: u16 = 21;

pub(crate) const ASSERT: u16 = 22;
/// Of each name that the language leaves out.
pub(crate) const LEFT_OUT: u16 = 23;

pub(crate) const HULL: u16 = 24;
