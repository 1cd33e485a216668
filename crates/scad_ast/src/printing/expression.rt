//! Expressions, arguments and elements.
ghost use Rattle.std.specs.Prelude.{◌≡◌, ◌++◌, codes, true};
ghost use Rattle.scad_fault.specs.declared.place.Place.{Place};
ghost use Rattle.scad_ast.specs.Text.{spaced, expression_text, enclosed, in_parentheses, stands_alone, arguments_text, elements_text, element_text, argument_name};
ghost use Rattle.scad_ast.specs.View.{expression_of, expression_at, arguments, elements, element_of};
ghost use Rattle.text_scan.specs.Printing.{Adds};

use super::token::{
    write_boolean, write_number, write_operator, write_prefix, write_separator, write_string,
    write_token, write_word,
};
use crate::expression::{Args, Elem, Elems, Expr, Node};
use scad_fault::Text;
use text_scan::Printer;

/// Appends the text of an expression.
#[cycle(expressions)]
pub fn write_expression(out: &mut Printer, e: &Expr)
    ensures { Adds (expression_text (expression_of e.now)) out.old out.new }
{
    match &e.node {
        Node::Undef => write_token(out, b"undef"),
        Node::Bool(b) => write_boolean(out, *b),
        Node::Number(number) => write_number(out, *number),
        Node::Str(chars) => write_string(out, chars),
        Node::Name(word) => write_word(out, word),
        Node::List(elems) => {
            write_token(out, b"[");
            write_elements(out, elems);
            write_token(out, b"]");
        }
        Node::Range(start, step, end) => {
            write_within(out, b"[", start, b":");
            match step {
                None => {
                    write_expression(out, end);
                    write_token(out, b"]");
                }
                Some(step) => {
                    write_expression(out, step);
                    write_within(out, b":", end, b"]");
                }
            }
        }
        Node::Unary(op, operand) => {
            write_prefix(out, *op);
            write_operand(out, operand);
        }
        Node::Binary(op, left, right) => {
            write_operand(out, left);
            write_operator(out, *op);
            write_operand(out, right);
        }
        Node::Choose(test, chosen, other) => {
            write_operand(out, test);
            write_within(out, b"?", chosen, b":");
            write_expression(out, other);
        }
        Node::Index(base, index) => {
            write_operand(out, base);
            write_within(out, b"[", index, b"]");
        }
        Node::Member(base, word) => {
            write_operand(out, base);
            write_token(out, b".");
            write_word(out, word);
        }
        Node::Call(word, args) => write_call(out, word.as_slice(), args),
        Node::Let(args, body) => {
            write_call(out, b"let", args);
            write_expression(out, body);
        }
        Node::Assert(args, body) => {
            write_call(out, b"assert", args);
            write_expression(out, body);
        }
        Node::Echo(args, body) => {
            write_call(out, b"echo", args);
            write_expression(out, body);
        }
    }
}

// An expression between two tokens.
#[cycle(expressions)]
fn write_within(out: &mut Printer, before: &[u8], e: &Expr, behind: &[u8])
    ensures { Adds (spaced before.now ++ expression_text (expression_of e.now) ++ spaced behind.now) out.old out.new }
{
    write_token(out, before);
    write_expression(out, e);
    write_token(out, behind);
}

// `word(arguments)`
/// Appends a word and arguments in parentheses.
#[cycle(expressions)]
pub fn write_call(out: &mut Printer, word: &[u8], args: &Args)
    ensures { Adds (spaced word.now ++ in_parentheses (arguments_text true (arguments args.now.items)))
        out.old out.new }
{
    write_token(out, word);
    write_token(out, b"(");
    write_arguments(out, args);
    write_token(out, b")");
}

// An operand, in parentheses unless it may stand alone.
#[cycle(expressions)]
fn write_operand(out: &mut Printer, e: &Expr)
    ensures { Adds (enclosed (expression_of e.now) (expression_text (expression_of e.now))) out.old out.new }
{
    if may_stand_alone(&e.node) {
        write_expression(out, e);
    } else {
        write_within(out, b"(", e, b")");
    }
}

fn may_stand_alone(node: &Node) -> bool
    ensures { (at : Place) → result ≡ stands_alone (expression_at at node.now) }
{
    !matches!(
        node,
        Node::Unary(..)
            | Node::Binary(..)
            | Node::Choose(..)
            | Node::Let(..)
            | Node::Assert(..)
            | Node::Echo(..)
    )
}

#[cycle(expressions)]
fn write_arguments(out: &mut Printer, args: &Args)
    ensures { Adds (arguments_text true (arguments args.now.items)) out.old out.new }
{
    let mut first = true;
    'arguments: for arg in args {
        write_separator(out, first);
        write_argument_name(out, &arg.name);
        write_expression(out, &arg.value);
        first = false;
    }
}

// `name =`, where there is one.
fn write_argument_name(out: &mut Printer, name: &Option<Text>)
    ensures { Adds (argument_name name.now) out.old out.new }
{
    match name {
        None => {}
        Some(word) => {
            write_word(out, word);
            write_token(out, b"=");
        }
    }
}

#[cycle(expressions)]
fn write_elements(out: &mut Printer, elems: &Elems)
    ensures { Adds (elements_text true (elements elems.now.items)) out.old out.new }
{
    let mut first = true;
    'elements: for elem in elems {
        write_separator(out, first);
        write_element(out, elem);
        first = false;
    }
}

#[cycle(expressions)]
fn write_element(out: &mut Printer, elem: &Elem)
    ensures { Adds (element_text (element_of elem.now)) out.old out.new }
{
    match elem {
        Elem::Item(e) => write_expression(out, e),
        Elem::Each(elem, _) => {
            write_token(out, b"each");
            write_element(out, elem);
        }
        Elem::For(args, elem, _) => {
            write_call(out, b"for", args);
            write_element(out, elem);
        }
        Elem::Loop(starts, test, steps, elem, _) => {
            out.put(b"for ( ");
            write_arguments(out, starts);
            write_token(out, b";");
            write_expression(out, test);
            write_token(out, b";");
            write_arguments(out, steps);
            write_token(out, b")");
            write_element(out, elem);
        }
        Elem::Let(args, elem, _) => {
            write_call(out, b"let", args);
            write_element(out, elem);
        }
        Elem::If(test, held, other, _) => {
            write_test(out, test);
            write_element(out, held);
            match other {
                None => {}
                Some(other) => {
                    write_token(out, b"else");
                    write_element(out, other);
                }
            }
        }
    }
}

// `if (test)`
/// Appends `if` and its test.
#[cycle(expressions)]
pub fn write_test(out: &mut Printer, test: &Expr)
    ensures { Adds (codes "if " ++ in_parentheses (expression_text (expression_of test.now))) out.old out.new }
{
    write_token(out, b"if");
    write_within(out, b"(", test, b")");
}
