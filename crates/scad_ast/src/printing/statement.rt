//! Statements, definitions and scopes.
ghost use Rattle.std.specs.Prelude.{◌++◌, codes, map, true};
ghost use Rattle.scad_ast.specs.Text.{spaced, in_parentheses, expression_text, default_text, parameters_text, in_braces, body, otherwise, items_text, item_text};
ghost use Rattle.scad_ast.specs.View.{expression_of};
ghost use Rattle.scad_ast.specs.Scope.{item_of, body_of, items, parameter};
ghost use Rattle.text_scan.specs.Printing.{Adds};

use super::expression::{write_call, write_expression, write_test};
use super::token::{write_marks, write_separator, write_token, write_word};
use crate::expression::Expr;
use crate::statement::{Item, Param, Params, Scope, Stmt, StmtBody};
use scad_fault::Text;
use text_scan::Printer;

/// Appends the text of a scope's items.
#[cycle(statements)]
pub fn write_items(out: &mut Printer, scope: &Scope)
    ensures { Adds (items_text (items scope.now.items)) out.old out.new }
{
    'items: for item in scope {
        write_item(out, item);
    }
}

#[cycle(statements)]
fn write_item(out: &mut Printer, item: &Item)
    ensures { Adds (item_text (item_of item.now)) out.old out.new }
{
    match item {
        Item::Assign(word, value, _) => {
            write_word(out, word);
            write_value(out, value);
        }
        Item::Module(word, params, scope, _) => {
            write_signature(out, b"module", word, params);
            write_body(out, scope);
        }
        Item::Function(word, params, value, _) => {
            write_signature(out, b"function", word, params);
            write_value(out, value);
        }
        Item::Run(statement) => write_statement(out, statement),
    }
}

// `= expression;`
fn write_value(out: &mut Printer, value: &Expr)
    ensures { Adds (codes "= " ++ expression_text (expression_of value.now) ++ codes ";\n") out.old out.new }
{
    write_token(out, b"=");
    write_expression(out, value);
    out.put(b";\n");
}

// `module name (parameters)` and `function name (parameters)`
fn write_signature(out: &mut Printer, key: &[u8], word: &Text, params: &Params)
    ensures { Adds (spaced key.now ++ spaced word.now
        ++ in_parentheses (parameters_text true (map parameter params.now.items))) out.old out.new }
{
    write_token(out, key);
    write_word(out, word);
    write_token(out, b"(");
    write_params(out, params);
    write_token(out, b")");
}

fn write_params(out: &mut Printer, params: &Params)
    ensures { Adds (parameters_text true (map parameter params.now.items)) out.old out.new }
{
    let mut first = true;
    'params: for param in params {
        write_separator(out, first);
        write_word(out, &param.name);
        write_default(out, param);
        first = false;
    }
}

fn write_default(out: &mut Printer, param: &Param)
    ensures { Adds (default_text (parameter param.now).default) out.old out.new }
{
    match &param.default {
        None => {}
        Some(value) => {
            write_token(out, b"=");
            write_expression(out, value);
        }
    }
}

#[cycle(statements)]
fn write_in_braces(out: &mut Printer, scope: &Scope)
    ensures { Adds (in_braces (items_text (items scope.now.items))) out.old out.new }
{
    out.put(b"{\n");
    write_items(out, scope);
    out.put(b"}\n");
}

// The statements of a scope in braces, or `;` where there are none.
#[cycle(statements)]
fn write_body(out: &mut Printer, scope: &Scope)
    ensures { Adds (body (items scope.now.items) (items_text (items scope.now.items))) out.old out.new }
{
    if scope.is_empty() {
        out.put(b";\n");
    } else {
        write_in_braces(out, scope);
    }
}

// The branch behind an `else`, where there is one.
#[cycle(statements)]
fn write_otherwise(out: &mut Printer, scope: &Scope)
    ensures { Adds (otherwise (items scope.now.items) (items_text (items scope.now.items))) out.old out.new }
{
    if !scope.is_empty() {
        write_token(out, b"else");
        write_in_braces(out, scope);
    }
}

#[cycle(statements)]
fn write_statement(out: &mut Printer, statement: &Stmt)
    ensures { Adds (item_text (body_of statement.now.at statement.now.percent statement.now.hash statement.now.body))
        out.old out.new }
{
    write_marks(out, statement.percent, statement.hash);
    match &statement.body {
        StmtBody::Call(word, args, children) => {
            write_call(out, word.as_slice(), args);
            write_body(out, children);
        }
        StmtBody::If(test, held, other) => {
            write_test(out, test);
            write_body(out, held);
            write_otherwise(out, other);
        }
    }
}
