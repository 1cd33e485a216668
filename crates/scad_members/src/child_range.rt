//! The part of a range whose numbers can name children.

ghost use Rattle.std.specs.Prelude.{◌<ℤ◌, pos};
ghost use Rattle.scad_ast.specs.Scope.{items};
ghost use Rattle.scad_ast.specs.Tree.{Items};
ghost use Rattle.scad_value.specs.Datum.{range};
ghost use Rattle.scad_expr.specs.Runs.{items as run_over};
ghost use Rattle.scad_members.specs.ChildRange.{NameAlike, IsReached, IsEnough, IsBehind};

use crate::item::statements;
use scad_ast::Scope;
use scad_num::{Num, ONE};

/// Where a scope has fewer statements, the number behind its last child is in the range of numbers.
const CHILD_LIMIT: usize = scad_machine::CHILD_LIMIT as usize;

/// The number that steps upwards reach from a start: the last one up to -1, or the start where that is more.
fn first_up(start: Num, step: Num) -> Num
    requires { pos 0 <ℤ step }
    ensures { (scope : Items) → IsReached scope start step result }
{
    let n = start.millionths();
    if n >= -1_000_000 {
        return start;
    }
    let gap = (-1_000_000 - n).unsigned_abs();
    let left = gap % step.millionths().unsigned_abs();
    Num::within(-1_000_000 - left as i64)
}

/// The number that steps downwards reach from a start: the last one down to the number behind the last child,
/// or the start where that is less.
fn first_down(start: Num, step: Num, high: Num) -> Num
    requires { step <ℤ pos 0 }
    ensures { (scope : Items) → IsBehind scope high → IsReached scope start step result }
{
    let n = start.millionths();
    let behind = high.millionths();
    if n <= behind {
        return start;
    }
    let gap = (n - behind).unsigned_abs();
    let left = gap % step.millionths().unsigned_abs();
    Num::within(behind + left as i64)
}

/// The end of steps upwards, at most the number behind the last child.
fn last_up(step: Num, end: Num, high: Num) -> Num
    requires { pos 0 <ℤ step }
    ensures { (scope : Items) → IsBehind scope high → IsEnough scope step end result }
{
    if high.millionths() < end.millionths() {
        high
    } else {
        end
    }
}

/// The end of steps downwards, at least -1.
fn last_down(step: Num, end: Num) -> Num
    requires { step <ℤ pos 0 }
    ensures { (scope : Items) → IsEnough scope step end result }
{
    if end.millionths() < -1_000_000 {
        Num::within(-1_000_000)
    } else {
        end
    }
}

/// The start and the end of a range of the same steps that names the same children, most of whose numbers
/// name one.
pub(crate) fn child_bounds(scope: &Scope, start: Num, step: Num, end: Num) -> (Num, Num)
    ensures { NameAlike (items scope.now.items) (run_over (range result.0 step result.1))
        (run_over (range start step end)) }
{
    let count = statements(scope);
    if count >= CHILD_LIMIT {
        return (start, end);
    }
    let high = Num::within(count as i64 * ONE);
    if step.millionths() > 0 {
        (first_up(start, step), last_up(step, end, high))
    } else if step.millionths() < 0 {
        (first_down(start, step, high), last_down(step, end))
    } else {
        (start, end)
    }
}
