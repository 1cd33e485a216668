//! Points, edges and outlines of a layer and points of a solid in whole micrometres, and exact arithmetic on them.
//!
//! The contracts promise winding numbers, areas, set membership and roundings by their definitions, and the
//! exact result of each comparison of heights and edges and of each operation of signed arithmetic.
#![tactic(auto, using(crate::proofs::Casts::casts))]

mod area;
mod compare;
mod half;
pub mod laws;
mod level;
pub mod line;
mod loops;
mod membership;
mod nearness;
mod paths;
mod point;
mod point3;
mod round;
mod shape;
pub mod whole;
pub mod wide;
mod winding_number;

pub use area::twice_area;
pub use compare::{cmp_level, cmp_point, cmp_slope, cmp_x_at, side};
pub use half::Half;
pub use level::{LeafEdge, Level};
pub use loops::Loop;
pub use membership::holds;
pub use nearness::box_meets;
pub use paths::Path;
pub use point::{COORDINATE_LIMIT, Edge, Pt};
pub use point3::{POINT_LIMIT, Pt3, is_in_range};
pub use round::round_half_down;
pub use shape::Shape;
pub use winding_number::winding;
