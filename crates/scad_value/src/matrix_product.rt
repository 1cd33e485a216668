//! The rows and columns of a product.

ghost use Rattle.std.specs.Prelude.{◌≡◌, Ok, IfOk, IfErr};
ghost use Rattle.scad_value.specs.Elementwise.{as_number};
ghost use Rattle.scad_value.specs.Faults.{Refuses};
ghost use Rattle.scad_value.specs.Memory.{begins_list, TakesMemoryFor};
ghost use Rattle.scad_value.specs.Products.{elements_in, dot, by_columns, by_rows, by_rows_and_columns, product_of_factors, product_of_vectors};
ghost use Rattle.scad_value.specs.declared.product.Factor.TheVariants.{Numbers, Matrix};
ghost use Rattle.scad_value.specs.View.{datum_of, elements};

use crate::elementwise::as_number;
use crate::fault::ValueFault;
use crate::kind::elements_of;
use crate::product::{Factor, dot, dot_column, factor_of};
use crate::value::{Value, Values};
use std::alloc::Global;

/// The elements of a vector, and none of any other value.
fn elements_in(row: &Value) -> &[Value]
    ensures { elements result.now ≡ elements_in (datum_of row.now) }
{
    match elements_of(row) {
        Some(all) => all,
        None => &[],
    }
}

/// A vector times each of so many columns.
fn by_columns(
    alloc: Global,
    columns: usize,
    xs: &[Value],
    rows: &[Value],
) -> Result<Values, ValueFault>
    ensures found { IfOk result
        (λ made. by_columns columns 0 (elements xs.now) (elements rows.now) ≡ Ok (elements made.items)) }
    ensures refused { IfErr result
        (Refuses (by_columns columns 0 (elements xs.now) (elements rows.now))) }
{
    let mut made = Vec::new(alloc);
    'columns: for j in 0..columns {
        match as_number(dot_column(xs, rows, j)) {
            Ok(number) => made.push(number)?,
            Err(fault) => return Err(fault),
        }
    }
    Ok(made)
}

/// Each row times a vector.
fn by_rows(alloc: Global, rows: &[Value], ys: &[Value]) -> Result<Values, ValueFault>
    ensures found { IfOk result
        (λ made. by_rows (elements rows.now) (elements ys.now) ≡ Ok (elements made.items)) }
    ensures refused { IfErr result (Refuses (by_rows (elements rows.now) (elements ys.now))) }
{
    let mut made = Vec::with_capacity(alloc, rows.len())?;
    'rows: for row in rows {
        match as_number(dot(elements_in(row), ys)) {
            Ok(number) => made.push(number)?,
            Err(fault) => return Err(fault),
        }
    }
    Ok(made)
}

/// Each row times each of so many columns.
fn by_rows_and_columns(
    alloc: Global,
    columns: usize,
    rows: &[Value],
    ys: &[Value],
) -> Result<Values, ValueFault>
    ensures found { IfOk result
        (λ made. by_rows_and_columns columns (elements rows.now) (elements ys.now)
        ≡ Ok (elements made.items)) }
    ensures refused { IfErr result
        (Refuses (by_rows_and_columns columns (elements rows.now) (elements ys.now))) }
{
    let mut made = Vec::with_capacity(alloc, rows.len())?;
    'rows: for row in rows {
        match by_columns(alloc, columns, elements_in(row), ys) {
            Ok(row_made) => made.push(Value::vector(alloc, row_made)?)?,
            Err(fault) => return Err(fault),
        }
    }
    Ok(made)
}

/// A vector or a matrix times a vector of so many numbers.
fn times_vector(
    alloc: Global,
    left: Factor,
    length: usize,
    xs: &[Value],
    ys: &[Value],
) -> Result<Value, ValueFault>
    ensures found { IfOk result
        (λ v. product_of_factors left (Numbers length) (elements xs.now) (elements ys.now)
        ≡ Ok (datum_of v)) }
    ensures refused { IfErr result
        (Refuses (product_of_factors left (Numbers length) (elements xs.now) (elements ys.now))) }
    ensures memory { TakesMemoryFor
        (begins_list (product_of_factors left (Numbers length) (elements xs.now) (elements ys.now))) result }
{
    match left {
        Factor::Numbers(n) => {
            if n != length {
                return Ok(Value::Undef);
            }
            as_number(dot(xs, ys))
        }
        Factor::Matrix(_, n) => {
            if n != length {
                return Ok(Value::Undef);
            }
            match by_rows(alloc, xs, ys) {
                Ok(made) => Ok(Value::vector(alloc, made)?),
                Err(fault) => Err(fault),
            }
        }
        Factor::Other => Ok(Value::Undef),
    }
}

/// A vector or a matrix times a matrix of so many rows and columns.
fn times_matrix(
    alloc: Global,
    left: Factor,
    rows: usize,
    columns: usize,
    xs: &[Value],
    ys: &[Value],
) -> Result<Value, ValueFault>
    ensures found { IfOk result
        (λ v. product_of_factors left (Matrix rows columns) (elements xs.now) (elements ys.now)
        ≡ Ok (datum_of v)) }
    ensures refused { IfErr result
        (Refuses (product_of_factors left (Matrix rows columns) (elements xs.now) (elements ys.now))) }
    ensures memory { TakesMemoryFor
        (begins_list (product_of_factors left (Matrix rows columns) (elements xs.now) (elements ys.now))) result }
{
    match left {
        Factor::Numbers(n) => {
            if n != rows {
                return Ok(Value::Undef);
            }
            match by_columns(alloc, columns, xs, ys) {
                Ok(made) => Ok(Value::vector(alloc, made)?),
                Err(fault) => Err(fault),
            }
        }
        Factor::Matrix(_, n) => {
            if n != rows {
                return Ok(Value::Undef);
            }
            match by_rows_and_columns(alloc, columns, xs, ys) {
                Ok(made) => Ok(Value::vector(alloc, made)?),
                Err(fault) => Err(fault),
            }
        }
        Factor::Other => Ok(Value::Undef),
    }
}

/// The product of two vectors or matrices.
pub(crate) fn product_of_vectors(
    alloc: Global,
    xs: &[Value],
    ys: &[Value],
) -> Result<Value, ValueFault>
    ensures found { IfOk result
        (λ v. product_of_vectors (elements xs.now) (elements ys.now) ≡ Ok (datum_of v)) }
    ensures refused { IfErr result
        (Refuses (product_of_vectors (elements xs.now) (elements ys.now))) }
    ensures memory { TakesMemoryFor
        (begins_list (product_of_vectors (elements xs.now) (elements ys.now))) result }
{
    let left = factor_of(xs);
    match factor_of(ys) {
        Factor::Numbers(n) => times_vector(alloc, left, n, xs, ys),
        Factor::Matrix(rows, columns) => times_matrix(alloc, left, rows, columns, xs, ys),
        Factor::Other => Ok(Value::Undef),
    }
}
