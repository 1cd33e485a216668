//! Products of vectors and matrices.

ghost use Rattle.std.specs.Prelude.{◌≡◌};
ghost use Rattle.scad_value.specs.Products.{amount, numbers_in, width, is_wide, all_wide, columns_in, factor, nth, elements_in, plus_product, dot, column};
ghost use Rattle.scad_value.specs.View.{datum_of, elements};

use crate::kind::{elements_of, number_of};
use crate::value::Value;
use scad_num::{Num, NumFault};

/// What the elements of a vector are to a product.
#[derive(Clone, Copy)]
pub(crate) enum Factor {
    /// So many numbers, one at least.
    Numbers(usize),
    /// So many rows of so many numbers, one at least each.
    Matrix(usize, usize),
    /// Neither.
    Other,
}

/// How many numbers there are, where there is one and all elements are numbers.
#[tactic(auto, using(crate::proofs::Rows::counted))]
pub fn numbers_in(all: &[Value]) -> Option<usize>
    ensures { result ≡ numbers_in (elements all.now) }
{
    if all.is_empty() {
        return None;
    }
    'elements: for v in all {
        if number_of(v).is_none() {
            return None;
        }
    }
    Some(all.len())
}

/// The same of a value's elements.
fn width(v: &Value) -> Option<usize>
    ensures { result ≡ width (datum_of v.now) }
{
    numbers_in(elements_of(v)?)
}

#[tactic(auto, using(crate::proofs::Access::places))]
fn first_width(all: &[Value]) -> Option<usize>
    ensures { result ≡ width (nth (elements all.now) 0) }
{
    if all.is_empty() { None } else { width(&all[0]) }
}

/// Whether the row is a vector of so many numbers.
fn is_wide(n: usize, row: &Value) -> bool
    ensures { result ≡ is_wide n (width (datum_of row.now)) }
{
    match width(row) {
        Some(m) => m == n,
        None => false,
    }
}

/// Whether all rows are vectors of so many numbers.
#[tactic(auto, using(crate::proofs::Rows::left))]
fn all_wide(n: usize, all: &[Value]) -> bool
    ensures { result ≡ all_wide n (elements all.now) }
{
    'rows: for row in all {
        if !is_wide(n, row) {
            return false;
        }
    }
    true
}

/// The length of the rows, where all are vectors of equally many numbers, one at least.
fn columns_in(all: &[Value]) -> Option<usize>
    ensures { result ≡ columns_in (elements all.now) }
{
    match first_width(all) {
        Some(n) => { if all_wide(n, all) { Some(n) } else { None } }
        None => None,
    }
}

#[tactic(auto, using(crate::proofs::Rows::counted))]
pub(crate) fn factor_of(all: &[Value]) -> Factor
    ensures { result ≡ factor (elements all.now) }
{
    match numbers_in(all) {
        Some(n) => Factor::Numbers(n),
        None => match columns_in(all) {
            Some(columns) => Factor::Matrix(all.len(), columns),
            None => Factor::Other,
        },
    }
}

/// A number's value, and 0 for any other value.
fn amount(v: &Value) -> Num
    ensures { result ≡ amount (datum_of v.now) }
{
    match v {
        Value::Number(n) => *n,
        _ => Num::within(0),
    }
}

#[tactic(auto, using(crate::proofs::Access::places))]
fn amount_at(all: &[Value], j: usize) -> Num
    ensures { result ≡ amount (nth (elements all.now) j) }
{
    if j < all.len() {
        amount(&all[j])
    } else {
        Num::within(0)
    }
}

/// The element at a place of a vector, as a number.
fn entry(row: &Value, j: usize) -> Num
    ensures { result ≡ amount (nth (elements_in (datum_of row.now)) j) }
{
    match elements_of(row) {
        Some(all) => amount_at(all, j),
        None => Num::within(0),
    }
}

/// A sum and a product, each rounded and in range.
fn plus_product(sum: Num, x: Num, y: Num) -> Result<Num, NumFault>
    ensures { result ≡ plus_product sum x y }
{
    match x.mul(y) {
        Ok(product) => sum.add(product),
        Err(fault) => Err(fault),
    }
}

/// The products of each two numbers, summed from left to right.
#[tactic(auto, using(crate::proofs::Rows::left))]
pub(crate) fn dot(xs: &[Value], ys: &[Value]) -> Result<Num, NumFault>
    ensures { result ≡ dot (elements xs.now) (elements ys.now) }
{
    let mut sum = Num::within(0);
    'pairs: for (i, x) in xs.iter().enumerate() {
        if i >= ys.len() {
            return Ok(sum);
        }
        match plus_product(sum, amount(x), amount(&ys[i])) {
            Ok(next) => sum = next,
            Err(fault) => return Err(fault),
        }
    }
    Ok(sum)
}

/// The same with a column of a matrix.
#[tactic(auto, using(crate::proofs::Rows::left))]
pub(crate) fn dot_column(xs: &[Value], rows: &[Value], j: usize) -> Result<Num, NumFault>
    ensures { result ≡ dot (elements xs.now) (column j (elements rows.now)) }
{
    let mut sum = Num::within(0);
    'pairs: for (i, x) in xs.iter().enumerate() {
        if i >= rows.len() {
            return Ok(sum);
        }
        match plus_product(sum, amount(x), entry(&rows[i], j)) {
            Ok(next) => sum = next,
            Err(fault) => return Err(fault),
        }
    }
    Ok(sum)
}
