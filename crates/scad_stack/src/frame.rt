//! What waits on the stack for a value.

ghost use Rattle.scad_stack.specs.Stack.{GoesOn, Lessens};

use scad_ast::{Arg, BinOp, Elem, Expr, Param};
use scad_fault::Place;
use scad_machine::EvalFault;
use scad_operations::{Bounds, Operation, Part, Remainder};
use scad_value::Value;

/// A call as it is written: its place, its name and its arguments.
#[derive(Clone, Copy)]
pub struct Written<'p> {
    pub at: Place,
    pub word: &'p [u8],
    pub args: &'p [Arg],
}

/// A call of a function of the program whose frames are opened: the parameters that take their defaults, of which those from
/// `next` on are left, the function's expression, the number of its frame, and of that from which names were sought before.
#[derive(Drop)]
pub struct Opening<'p> {
    pub missing: Vec<&'p Param>,
    pub next: usize,
    pub body: &'p Expr,
    pub inner: u32,
    pub back: u32,
    pub depth: u32,
}

/// A `for` with start, test and step, and how many turns its count has left.
#[derive(Clone, Copy)]
pub struct Loop<'p> {
    pub at: Place,
    pub test: &'p Expr,
    pub steps: &'p [Arg],
    pub body: &'p Elem,
    pub turns: u32,
}

/// What stands inside names that are bound.
#[derive(Drop)]
pub enum Inside<'p> {
    Value(&'p Expr),
    Element(&'p Elem),
    Turns(Box<Loop<'p>>),
}

/// What stands inside, the number of the frame from which names were sought before, and how many levels of depth its parts
/// have.
#[derive(Drop)]
pub struct Within<'p> {
    pub inside: Inside<'p>,
    pub back: u32,
    pub depth: u32,
}

/// A variable of a `for`: its name, the variables that follow, and the element.
#[derive(Clone, Copy)]
pub struct Variable<'p> {
    pub at: Place,
    pub name: &'p [u8],
    pub more: &'p [Arg],
    pub body: &'p Elem,
    pub depth: u32,
}

/// A variable, what it still runs over, and the number of the frame from which names were sought before the turn that goes on.
#[derive(Drop)]
pub struct Turning<'p> {
    pub variable: Variable<'p>,
    pub left: Remainder,
    pub back: u32,
}

/// An operator and its right side.
#[derive(Clone, Copy)]
pub struct Right<'p> {
    pub at: Place,
    pub op: BinOp,
    pub b: &'p Expr,
}

/// An expression that goes on with another part of it once one has its value.
#[derive(Drop)]
pub enum Further<'p> {
    /// The end of a range without a step.
    RangeEnd(&'p Expr),
    /// The step and the end of a range.
    StepAndEnd(Place, &'p Expr, &'p Expr),
    /// A range with its start, and its end.
    SteppedEnd(Place, Box<Bounds>, &'p Expr),
    /// An operator and its right side.
    Right(Right<'p>),
    /// The sides of a choice.
    Sides(&'p Expr, &'p Expr),
    /// An index.
    IndexOf(&'p Expr),
}

/// What waits in a vector that is being made. A last number tells how many levels of depth its parts have.
#[derive(Drop)]
pub enum Gathering<'p> {
    /// A vector of what was added, and what was added to the one around it.
    Vector(Place, Vec<Part>),
    /// Elements that follow.
    Elements(&'p [Elem], u32),
    /// An expression that is an element.
    Item,
    /// What was added before an `each`.
    Each(Vec<Part>),
    /// The element of an `if`, and that of its `else`, where it has one.
    If(&'p Elem, Option<&'p Elem>, u32),
}

/// What waits in a `for`.
#[derive(Drop)]
pub enum Round<'p> {
    /// A variable that runs over the value.
    Over(Box<Turning<'p>>),
    /// The turns of a variable that are left, behind the one that goes on.
    Turns(Box<Turning<'p>>),
    /// The test of a loop, the frame from which names were sought before, and the depth of its parts.
    Test(Box<Loop<'p>>, u32, u32),
    /// The element of a loop, and the same two.
    Body(Box<Loop<'p>>, u32, u32),
}

/// What waits for the value of a part. A last number tells how many levels of depth its other parts have. A frame is moved
/// several times, so what is large and rare stands in a box. One that lies in another has a tag of its own, so what takes
/// the most room lies in none: a frame has 48 bytes.
#[derive(Drop)]
pub enum Frame<'p> {
    /// An operator with its left operand.
    Operand(Place, BinOp, Value),
    /// What gives a value right away.
    Operation(Operation<'p>),
    /// An expression that goes on with another part.
    Further(Further<'p>, u32),
    /// The next argument of a call, an `assert` or an `echo`, with the values of those before it.
    Arguments(&'p Expr, Vec<Value>, u32),
    /// A parameter that takes its default.
    Default(&'p [u8], Box<Opening<'p>>),
    /// Frames of names are left.
    Leave(u32),
    /// Names that are bound, of which the first takes the value.
    Bind(&'p [Arg], Within<'p>),
    /// Elements of a vector.
    Gathering(Gathering<'p>),
    /// A `for`.
    Round(Round<'p>),
}

/// What is at work.
#[derive(Drop)]
pub enum Focus<'p> {
    /// An expression that has so many levels of depth.
    Part(&'p Expr, u32),
    /// An element that has so many levels of depth.
    Element(&'p Elem, u32),
    /// A value, for the frame on the top.
    Given(Value),
}

/// A value that was given is at work.
#[inline(always)]
#[tactic(auto, unfolding(crate::specs::Stack::goes_on))]
pub fn at_work<'p>(value: Result<Value, EvalFault>) -> Result<Focus<'p>, EvalFault>
    ensures goes { GoesOn value result }
    ensures less { Lessens value result }
{
    match value {
        Ok(value) => Ok(Focus::Given(value)),
        Err(why) => Err(why),
    }
}
