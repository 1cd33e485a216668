//! The line of one outline.
ghost use Rattle.std.specs.Prelude.{◌≡◌};
ghost use Rattle.std.specs.List.{flat_map};
ghost use Rattle.text_scan.specs.Printing.{Adds};
ghost use Rattle.cli_text.specs.Cli.{direction, point_text, polyline_start, polyline_text, closed};

use scad_geom::{Pt, twice_area};
use text_scan::Printer;

// `$$POLYLINE/1,dir,n,x1,y1,..`
/// Appends the line of an outline, with its direction and its first point again at the end.
pub fn push_polyline(out: &mut Printer, points: &[Pt])
    ensures { Adds (polyline_text points.now) out.old out.new }
{
    push_polyline_start(out);
    out.number(direction(points));
    out.byte(b',');
    out.number(points.len() as u64 + 1);
    push_closed(out, points);
    out.byte(b'\n');
}

#[tactic(auto, unfolding(crate::specs::Cli::polyline_start))]
fn push_polyline_start(out: &mut Printer)
    ensures { Adds polyline_start out.old out.new }
{
    out.put(b"$$POLYLINE/1,");
}

fn direction(points: &[Pt]) -> u64
    ensures { result ≡ direction points.now }
{
    u64::from(twice_area(points) > 0)
}

// The points, and the first again.
fn push_closed(out: &mut Printer, points: &[Pt])
    ensures { Adds (flat_map point_text (closed points.now)) out.old out.new }
{
    push_points(out, points);
    match points {
        [] => {}
        [first, ..] => push_point(out, *first),
    }
}

fn push_points(out: &mut Printer, points: &[Pt])
    ensures { Adds (flat_map point_text points.now) out.old out.new }
{
    'points: for point in points {
        push_point(out, *point);
    }
}

/// Appends a point's coordinates, each behind a comma.
pub fn push_point(out: &mut Printer, point: Pt)
    ensures { Adds (point_text point) out.old out.new }
{
    out.byte(b',');
    out.number(point.x);
    out.byte(b',');
    out.number(point.y);
}
