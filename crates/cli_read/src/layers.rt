//! Layers that were read.
ghost use Rattle.std.specs.Prelude.{◌≡◌, List};
ghost use Rattle.scad_geom.specs.declared.point.Pt.{Pt};
ghost use Rattle.scad_geom.specs.declared.point.Edge.{Edge};
ghost use Rattle.cli_read.specs.declared.layers.CliLayer.{CliLayer};

use scad_geom::{Edge, Loop};
use std::marker::Model;

/// The outlines of a layer.
#[derive(Drop)]
pub struct Loops {
    loops: Vec<Loop>,
}

impl Model for Loops {
    ghost use Rattle.std.specs.Prelude.{List};
    ghost use Rattle.scad_geom.specs.declared.point.Pt.{Pt};

    ghost Value = { List (List Pt) };

    ghost view = { λ l. l.loops.items };
}

impl Loops {
    ghost use Rattle.std.specs.Prelude.{◌≡◌};

    /// The outlines of the vector, without taking memory.
    pub fn from_vec(loops: Vec<Loop>) -> Self
        ensures { result ≡ loops.items }
    {
        Loops { loops }
    }

    /// The outlines, in the order of the text.
    pub fn as_slice(&self) -> &[Loop]
        ensures { result.now ≡ self.now }
    {
        self.loops.as_slice()
    }
}

/// The hatches of a layer.
#[derive(Drop)]
pub struct Hatches {
    hatches: Vec<Edge>,
}

impl Model for Hatches {
    ghost use Rattle.std.specs.Prelude.{List};
    ghost use Rattle.scad_geom.specs.declared.point.Edge.{Edge};

    ghost Value = { List Edge };

    ghost view = { λ h. h.hatches.items };
}

impl Hatches {
    ghost use Rattle.std.specs.Prelude.{◌≡◌};

    /// The hatches of the vector, without taking memory.
    pub fn from_vec(hatches: Vec<Edge>) -> Self
        ensures { result ≡ hatches.items }
    {
        Hatches { hatches }
    }

    /// The hatches, in the order of the text.
    pub fn as_slice(&self) -> &[Edge]
        ensures { result.now ≡ self.now }
    {
        self.hatches.as_slice()
    }
}

/// A layer: the height of its upper surface in micrometres, its outlines, each without its first point repeated, and its
/// hatches, each from `a` to `b`.
#[derive(Drop)]
pub struct CliLayer {
    pub z: u32,
    pub loops: Loops,
    pub hatches: Hatches,
}

/// The layers of a file, upwards.
#[derive(Drop)]
pub struct CliLayers {
    layers: Vec<CliLayer>,
}

impl Model for CliLayers {
    ghost use Rattle.std.specs.Prelude.{List};
    ghost use Rattle.cli_read.specs.declared.layers.CliLayer.{CliLayer};

    ghost Value = { List CliLayer };

    ghost view = { λ l. l.layers.items };
}

impl CliLayers {
    ghost use Rattle.std.specs.Prelude.{◌≡◌};

    /// The layers of the vector, without taking memory.
    pub fn from_vec(layers: Vec<CliLayer>) -> Self
        ensures { result ≡ layers.items }
    {
        CliLayers { layers }
    }

    /// The layers, in the order of the text.
    pub fn as_slice(&self) -> &[CliLayer]
        ensures { result.now ≡ self.now }
    {
        self.layers.as_slice()
    }
}

/// What a text says.
#[derive(Drop)]
pub struct Cli {
    pub layers: CliLayers,
}
