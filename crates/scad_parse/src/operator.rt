//! Which tokens are operators and literals.

ghost use Rattle.std.specs.Prelude.{◌≡◌, ◌<◌, Some, None, option_map, is_some, IfOk, IfSome};
ghost use Rattle.scad_ast.specs.View.{expression_of};
ghost use Rattle.scad_grammar.specs.Tokens.{operator_sign, on_line, line_of, operator_kind, operator};
ghost use Rattle.scad_grammar.specs.Steps.{literal_kind, literal};
ghost use Rattle.scad_parse.specs.Reading.{is_operator_kind, is_operator};
ghost use Rattle.scad_parse.specs.Standing.{standing, Opens, operator_at, stands_at};
ghost use Rattle.scad_lex.specs.declared.token.TokenKind.TheVariants.{Key as KeyKind};

use crate::node;
use crate::reader::{Open, Reader};
use scad_ast::{BinOp, Expr, Node};
use scad_fault::Place;
use scad_lex::{Key, Sign, Token, TokenKind};
use std::alloc::{AllocError, Global};

/// The binary operator that a sign is.
fn operator_sign(sign: Sign) -> Option<BinOp>
    ensures { result ≡ operator_sign sign }
{
    match sign {
        Sign::OrOr => Some(BinOp::Or),
        Sign::AndAnd => Some(BinOp::And),
        Sign::Equal => Some(BinOp::Eq),
        Sign::NotEqual => Some(BinOp::Ne),
        Sign::Less => Some(BinOp::Lt),
        Sign::LessEqual => Some(BinOp::Le),
        Sign::Greater => Some(BinOp::Gt),
        Sign::GreaterEqual => Some(BinOp::Ge),
        Sign::Plus => Some(BinOp::Add),
        Sign::Minus => Some(BinOp::Sub),
        Sign::Star => Some(BinOp::Mul),
        Sign::Slash => Some(BinOp::Div),
        Sign::Percent => Some(BinOp::Rem),
        _ => None,
    }
}

/// The number of lines of binary operators in the grammar.
pub(crate) const LINES: u8 = 6;

/// The line of an operator in the grammar, from the tightest.
fn line_of(op: BinOp) -> u8
    ensures { result ≡ line_of op }
{
    match op {
        BinOp::Or => 5,
        BinOp::And => 4,
        BinOp::Eq | BinOp::Ne => 3,
        BinOp::Lt | BinOp::Le | BinOp::Gt | BinOp::Ge => 2,
        BinOp::Add | BinOp::Sub => 1,
        BinOp::Mul | BinOp::Div | BinOp::Rem => 0,
    }
}

fn on_line(line: u8, op: Option<BinOp>) -> Option<BinOp>
    ensures { result ≡ on_line line op }
{
    match op {
        Some(op) => { if line_of(op) == line { Some(op) } else { None } }
        None => None,
    }
}

fn operator_kind(line: u8, kind: &TokenKind) -> Option<BinOp>
    ensures { result ≡ operator_kind line kind.now }
{
    match kind {
        TokenKind::Sign(sign) => on_line(line, operator_sign(*sign)),
        TokenKind::Number(_) | TokenKind::Str(_) | TokenKind::Word(_) | TokenKind::Key(_) => None,
    }
}

/// The operator of this line that a token is.
pub(crate) fn operator(line: u8, token: &Token) -> Option<BinOp>
    ensures { result ≡ operator line token.now }
{
    operator_kind(line, &token.kind)
}

fn is_operator_kind(kind: &TokenKind) -> bool
    ensures { result ≡ is_operator_kind kind.now }
{
    match kind {
        TokenKind::Sign(sign) => operator_sign(*sign).is_some(),
        TokenKind::Number(_) | TokenKind::Str(_) | TokenKind::Word(_) | TokenKind::Key(_) => false,
    }
}

/// An operator of any line stands at the front.
pub(crate) fn begins_with_operator(reader: &Reader<'_>) -> bool
    ensures { result ≡ stands_at is_operator (standing reader.now) }
{
    match reader.front() {
        Some(token) => is_operator_kind(&token.kind),
        None => false,
    }
}

/// An operator between operands, and the construct that it opens.
#[derive(Clone, Copy)]
pub(crate) struct Link {
    pub(crate) op: BinOp,
    pub(crate) open: Open,
}

/// The operator of this line, where one comes and there is room.
pub(crate) fn opens_operator(reader: &mut Reader<'_>, line: u8, room: u32) -> Option<Link>
    ensures opens { Opens (λ t. is_some (operator line t)) room reader.old reader.new
        (option_map (λ link. link.open) result) }
    ensures op { IfSome result (λ link. Some link.op ≡ operator_at line (standing reader.old)) }
    ensures less { IfSome result (λ link. link.open.room < room) }
{
    let Some(token) = reader.front() else {
        return None;
    };
    let Some(op) = operator(line, token) else {
        return None;
    };
    let Some(open) = reader.open(room) else {
        return None;
    };
    Some(Link { op, open })
}

/// The constant that a keyword is.
fn constant(at: Place, key: Key) -> Option<Expr>
    ensures { option_map expression_of result ≡ literal_kind at (KeyKind key) }
{
    match key {
        Key::True => Some(Expr {
            at,
            node: Node::Bool(true),
        }),
        Key::False => Some(Expr {
            at,
            node: Node::Bool(false),
        }),
        Key::Undef => Some(Expr {
            at,
            node: Node::Undef,
        }),
        _ => None,
    }
}

fn literal_kind(alloc: Global, at: Place, kind: &TokenKind) -> Result<Option<Expr>, AllocError>
    ensures { IfOk result (λ e. option_map expression_of e ≡ literal_kind at kind.now) }
{
    match kind {
        TokenKind::Number(number) => Ok(Some(node::number(at, *number))),
        TokenKind::Str(chars) => Ok(Some(node::string(alloc, at, chars)?)),
        TokenKind::Key(key) => Ok(constant(at, *key)),
        TokenKind::Word(_) | TokenKind::Sign(_) => Ok(None),
    }
}

/// The number, string or constant that a token is.
pub(crate) fn literal(alloc: Global, token: &Token) -> Result<Option<Expr>, AllocError>
    ensures { IfOk result (λ e. option_map expression_of e ≡ literal token.now) }
{
    literal_kind(alloc, token.at, &token.kind)
}
