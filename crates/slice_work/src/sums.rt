//! What is counted of layers that were written.
ghost use Rattle.std.specs.Prelude.{◌≡◌, ◌+◌, ◌++◌, ◌≤◌, IfSome};
ghost use Rattle.gcode_text.specs.Amount.{filament};
ghost use Rattle.slice_work.specs.Part.{move_count};

use crate::summary::Summary;
use gcode_text::Rates;
use scad_geom::Path;

/// What is counted of layers that were written: outlines, moves, the volume of the moves in cubic micrometres, and
/// the bytes of both outputs. No memory holds more than these numbers count.
#[derive(Clone, Copy)]
pub struct Sums {
    pub loops: u64,
    pub moves: u64,
    pub volume: u128,
    pub cli: u64,
    pub gcode: u64,
}

impl Sums {
    /// No layer was written.
    pub const NONE: Sums = Sums {
        loops: 0,
        moves: 0,
        volume: 0,
        cli: 0,
        gcode: 0,
    };

    /// So many outlines more, whose lines have so many bytes.
    pub fn with_outlines(self, loops: usize, bytes: usize) -> Option<Sums>
        ensures { IfSome result (λ s. s ≡ record self { loops = self.loops + loops; cli = self.cli + bytes }) }
    {
        Some(Sums {
            loops: self.loops.checked_add(loops as u64)?,
            cli: self.cli.checked_add(bytes as u64)?,
            ..self
        })
    }

    /// So many moves more, up to this volume, whose lines have so many bytes.
    pub fn with_moves(self, moves: u64, volume: u128, bytes: usize) -> Option<Sums>
        ensures { IfSome result (λ s. s ≡ record self {
          moves = self.moves + moves;
          volume = volume;
          gcode = self.gcode + bytes;
        }) }
    {
        Some(Sums {
            moves: self.moves.checked_add(moves)?,
            volume,
            gcode: self.gcode.checked_add(bytes as u64)?,
            ..self
        })
    }

    /// What is told of so many layers.
    #[tactic(auto, unfolding(gcode_text::specs::Amount::filament))]
    pub fn summary(self, layers: u32, rates: &Rates) -> Option<Summary>
        requires { 1 ≤ rates.now.filament_area }
        ensures { IfSome result (λ s. s ≡ record {
          layers = layers;
          loops = self.loops;
          moves = self.moves;
          e = filament rates.now self.volume;
          cli = self.cli;
          gcode = self.gcode;
        }) }
    {
        let e = self.volume.checked_mul(100)? / u128::from(rates.filament_area);
        Some(Summary {
            layers,
            loops: self.loops,
            moves: self.moves,
            e: u64::try_from(e).ok()?,
            cli: self.cli,
            gcode: self.gcode,
        })
    }
}

/// The moves along paths and further ones: one from each point to the next.
pub fn moves_of_both(paths: &[Path], more: &[Path]) -> Option<u64>
    ensures { IfSome result (λ n. n ≡ move_count (paths.now ++ more.now)) }
{
    moves_of(paths)?.checked_add(moves_of(more)?)
}

fn moves_of(paths: &[Path]) -> Option<u64>
    ensures { IfSome result (λ n. n ≡ move_count paths.now) }
{
    let mut moves: u64 = 0;
    'paths: for path in paths {
        moves = moves.checked_add(path.as_slice().len().saturating_sub(1) as u64)?;
    }
    Some(moves)
}
