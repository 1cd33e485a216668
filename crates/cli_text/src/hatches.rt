//! The line of a layer's hatches.
ghost use Rattle.std.specs.List.{flat_map};
ghost use Rattle.text_scan.specs.Printing.{Adds};
ghost use Rattle.cli_text.specs.Cli.{hatch_text, hatches_start, hatches_line, hatches_text};

use crate::polyline::push_point;
use scad_geom::Edge;
use text_scan::Printer;

/// Appends the line of a layer's hatches, where there are any.
pub fn push_hatches(out: &mut Printer, hatches: &[Edge])
    ensures { Adds (hatches_text hatches.now) out.old out.new }
{
    match hatches {
        [] => {}
        [_, ..] => {
            push_hatches_line(out, hatches);
            out.byte(b'\n');
        }
    }
}

// `$$HATCHES/1,n,sx,sy,ex,ey,..`
fn push_hatches_line(out: &mut Printer, hatches: &[Edge])
    ensures { Adds (hatches_line hatches.now) out.old out.new }
{
    push_hatches_start(out);
    out.number(hatches.len() as u64);
    push_each_hatch(out, hatches);
}

#[tactic(auto, unfolding(crate::specs::Cli::hatches_start))]
fn push_hatches_start(out: &mut Printer)
    ensures { Adds hatches_start out.old out.new }
{
    out.put(b"$$HATCHES/1,");
}

fn push_each_hatch(out: &mut Printer, hatches: &[Edge])
    ensures { Adds (flat_map hatch_text hatches.now) out.old out.new }
{
    'hatches: for hatch in hatches {
        push_hatch(out, *hatch);
    }
}

fn push_hatch(out: &mut Printer, hatch: Edge)
    ensures { Adds (hatch_text hatch) out.old out.new }
{
    push_point(out, hatch.a);
    push_point(out, hatch.b);
}
