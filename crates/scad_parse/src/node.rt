//! The nodes of the tree. Where there is no memory for what a node holds, the reader remembers it, and the node is of
//! no meaning.

ghost use Rattle.std.specs.Prelude.{◌≡◌, IfOk};
ghost use Rattle.scad_ast.specs.Tree.{number as number_tree, name as name_tree, call as call_tree};
ghost use Rattle.scad_ast.specs.Tree.{vector as vector_tree, string, unary, binary, choose, index, member, range};
ghost use Rattle.scad_ast.specs.Tree.{stepped, each, for_each, for_loop, if_element, if_else};
ghost use Rattle.scad_ast.specs.View.{expression_of, element_of, arguments, elements};
ghost use Rattle.scad_grammar.specs.Behind.{keyed_tree};
ghost use Rattle.scad_grammar.specs.Lists.{let_of};
ghost use Rattle.scad_parse.specs.Reading.{keyed};
ghost use Rattle.scad_parse.specs.Standing.{Reads, nothing_read};

use crate::reader::Reader;
use scad_ast::{Args, BinOp, Elem, Elems, Expr, Node, UnOp};
use scad_fault::{Chars, Place, Text};
use scad_num::Num;
use std::alloc::{AllocError, Global};

/// A keyword that stands with arguments before an expression.
#[derive(Clone, Copy)]
pub(crate) enum Binder {
    Let,
    Assert,
    Echo,
}

/// What stands in the place of a tree that wasn't read.
pub(crate) fn nothing(at: Place) -> Expr {
    Expr {
        at,
        node: Node::Undef,
    }
}

/// What stands in the place of an element that wasn't read.
pub(crate) fn no_element(at: Place) -> Elem {
    Elem::Item(nothing(at))
}

pub(crate) fn number(at: Place, number: Num) -> Expr
    ensures { expression_of result ≡ number_tree at number }
{
    Expr {
        at,
        node: Node::Number(number),
    }
}

pub(crate) fn name(at: Place, word: Text) -> Expr
    ensures { expression_of result ≡ name_tree at word }
{
    Expr {
        at,
        node: Node::Name(word),
    }
}

pub(crate) fn call(at: Place, word: Text, args: Args) -> Expr
    ensures { expression_of result ≡ call_tree at word (arguments args.items) }
{
    Expr {
        at,
        node: Node::Call(word, args),
    }
}

pub(crate) fn vector(at: Place, all: Elems) -> Expr
    ensures { expression_of result ≡ vector_tree at (elements all.items) }
{
    Expr {
        at,
        node: Node::List(all),
    }
}

pub(crate) fn string(alloc: Global, at: Place, chars: &Chars) -> Result<Expr, AllocError>
    ensures { IfOk result (λ e. expression_of e ≡ string at chars.now) }
{
    let chars = Chars::of(alloc, chars.as_slice())?;
    Ok(Expr {
        at,
        node: Node::Str(chars),
    })
}

pub(crate) fn unary(reader: &mut Reader<'_>, at: Place, op: UnOp, e: Expr) -> Expr
    ensures { Reads (nothing_read (unary at op (expression_of e))) reader.old reader.new (expression_of result) }
{
    let e = reader.boxed(e);
    let Some(e) = e else {
        return nothing(at);
    };
    Expr {
        at,
        node: Node::Unary(op, e),
    }
}

pub(crate) fn binary(reader: &mut Reader<'_>, at: Place, op: BinOp, left: Expr, right: Expr) -> Expr
    ensures { Reads (nothing_read (binary at op (expression_of left) (expression_of right))) reader.old reader.new
        (expression_of result) }
{
    let left = reader.boxed(left);
    let right = reader.boxed(right);
    let (Some(left), Some(right)) = (left, right) else {
        return nothing(at);
    };
    Expr {
        at,
        node: Node::Binary(op, left, right),
    }
}

pub(crate) fn choose(
    reader: &mut Reader<'_>,
    at: Place,
    test: Expr,
    chosen: Expr,
    other: Expr,
) -> Expr
    ensures { Reads (nothing_read (choose at (expression_of test) (expression_of chosen) (expression_of other))) reader.old
        reader.new (expression_of result) }
{
    let test = reader.boxed(test);
    let chosen = reader.boxed(chosen);
    let other = reader.boxed(other);
    let (Some(test), Some(chosen), Some(other)) = (test, chosen, other) else {
        return nothing(at);
    };
    Expr {
        at,
        node: Node::Choose(test, chosen, other),
    }
}

pub(crate) fn index(reader: &mut Reader<'_>, at: Place, value: Expr, i: Expr) -> Expr
    ensures { Reads (nothing_read (index at (expression_of value) (expression_of i))) reader.old reader.new
        (expression_of result) }
{
    let value = reader.boxed(value);
    let i = reader.boxed(i);
    let (Some(value), Some(i)) = (value, i) else {
        return nothing(at);
    };
    Expr {
        at,
        node: Node::Index(value, i),
    }
}

pub(crate) fn member(reader: &mut Reader<'_>, at: Place, value: Expr, name: Text) -> Expr
    ensures { Reads (nothing_read (member at (expression_of value) name)) reader.old reader.new (expression_of result) }
{
    let value = reader.boxed(value);
    let Some(value) = value else {
        return nothing(at);
    };
    Expr {
        at,
        node: Node::Member(value, name),
    }
}

pub(crate) fn bound(
    reader: &mut Reader<'_>,
    at: Place,
    binder: Binder,
    args: Args,
    body: Expr,
) -> Expr
    ensures { Reads (nothing_read (keyed_tree (keyed binder) at (arguments args.items) (expression_of body))) reader.old
        reader.new (expression_of result) }
{
    let body = reader.boxed(body);
    let Some(body) = body else {
        return nothing(at);
    };
    match binder {
        Binder::Let => Expr {
            at,
            node: Node::Let(args, body),
        },
        Binder::Assert => Expr {
            at,
            node: Node::Assert(args, body),
        },
        Binder::Echo => Expr {
            at,
            node: Node::Echo(args, body),
        },
    }
}

/// The range from start to end.
pub(crate) fn range(reader: &mut Reader<'_>, at: Place, start: Expr, last: Expr) -> Expr
    ensures { Reads (nothing_read (range at (expression_of start) (expression_of last))) reader.old reader.new
        (expression_of result) }
{
    let start = reader.boxed(start);
    let last = reader.boxed(last);
    let (Some(start), Some(last)) = (start, last) else {
        return nothing(at);
    };
    Expr {
        at,
        node: Node::Range(start, None, last),
    }
}

/// The range from start to end by a step.
pub(crate) fn stepped(
    reader: &mut Reader<'_>,
    at: Place,
    start: Expr,
    step: Expr,
    last: Expr,
) -> Expr
    ensures { Reads (nothing_read (stepped at (expression_of start) (expression_of step) (expression_of last))) reader.old
        reader.new (expression_of result) }
{
    let start = reader.boxed(start);
    let step = reader.boxed(step);
    let last = reader.boxed(last);
    let (Some(start), Some(step), Some(last)) = (start, step, last) else {
        return nothing(at);
    };
    Expr {
        at,
        node: Node::Range(start, Some(step), last),
    }
}

pub(crate) fn each(reader: &mut Reader<'_>, at: Place, e: Elem) -> Elem
    ensures { Reads (nothing_read (each at (element_of e))) reader.old reader.new (element_of result) }
{
    let e = reader.boxed(e);
    let Some(e) = e else {
        return no_element(at);
    };
    Elem::Each(e, at)
}

pub(crate) fn for_each(reader: &mut Reader<'_>, at: Place, args: Args, e: Elem) -> Elem
    ensures { Reads (nothing_read (for_each at (arguments args.items) (element_of e))) reader.old reader.new
        (element_of result) }
{
    let e = reader.boxed(e);
    let Some(e) = e else {
        return no_element(at);
    };
    Elem::For(args, e, at)
}

pub(crate) fn for_loop(
    reader: &mut Reader<'_>,
    at: Place,
    init: Args,
    test: Expr,
    step: Args,
    e: Elem,
) -> Elem
    ensures { Reads (nothing_read (for_loop at (arguments init.items) (expression_of test) (arguments step.items)
        (element_of e))) reader.old reader.new (element_of result) }
{
    let e = reader.boxed(e);
    let Some(e) = e else {
        return no_element(at);
    };
    Elem::Loop(init, test, step, e, at)
}

/// Behind `let (..)` in a vector: an expression with these bindings, or a comprehension.
pub(crate) fn let_element(reader: &mut Reader<'_>, at: Place, args: Args, e: Elem) -> Elem
    ensures { Reads (nothing_read (let_of at (arguments args.items) (element_of e))) reader.old reader.new (element_of result) }
{
    match e {
        Elem::Item(body) => Elem::Item(bound(reader, at, Binder::Let, args, body)),
        e => {
            let Some(e) = reader.boxed(e) else {
                return no_element(at);
            };
            Elem::Let(args, e, at)
        }
    }
}

pub(crate) fn if_element(reader: &mut Reader<'_>, at: Place, test: Expr, held: Elem) -> Elem
    ensures { Reads (nothing_read (if_element at (expression_of test) (element_of held))) reader.old reader.new
        (element_of result) }
{
    let held = reader.boxed(held);
    let Some(held) = held else {
        return no_element(at);
    };
    Elem::If(test, held, None, at)
}

pub(crate) fn if_else(
    reader: &mut Reader<'_>,
    at: Place,
    test: Expr,
    held: Elem,
    other: Elem,
) -> Elem
    ensures { Reads (nothing_read (if_else at (expression_of test) (element_of held) (element_of other))) reader.old reader.new
        (element_of result) }
{
    let held = reader.boxed(held);
    let other = reader.boxed(other);
    let (Some(held), Some(other)) = (held, other) else {
        return no_element(at);
    };
    Elem::If(test, held, Some(other), at)
}
