//! Sources of expressions with what they give.

use crate::budgets::BUDGETS;
use crate::cases::expect;
use crate::comprehensions::COMPREHENSIONS;
use crate::operators::OPERATORS;
use crate::scopes::SCOPES;
use crate::value_answer::answer;
use std::alloc::Global;
use std::process::Abort;

/// The source of a row gives what stands behind `~`.
fn gives(alloc: Global, row: &str) -> bool {
    let (source, wanted) = row.split_once(" ~ ").unwrap_or((row, ""));
    let source = source.as_bytes();
    source.len() < 10000
        && match answer(alloc, source) {
            Ok(given) => given.as_slice() == wanted.as_bytes(),
            Err(_) => false,
        }
}

/// Each row has a program, and behind `~` what its last variable gives.
fn all_give(rt: &(impl Abort + AllocGlobal), rows: &str) {
    for row in rows.lines() {
        expect(rt, gives(rt.alloc(), row), row);
    }
}

#[test]
fn expressions_give_what_they_should(rt: HostRuntime) {
    all_give(&rt, OPERATORS);
    all_give(&rt, COMPREHENSIONS);
    all_give(&rt, SCOPES);
}

#[test]
fn budgets_are_passed_where_they_should(rt: HostRuntime) {
    all_give(&rt, BUDGETS);
}
