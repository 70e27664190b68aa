//! Calendar expressions: the error for each kind of invalid expression, and the normal form of valid ones.

use crate::shared::{ensure, expr};
use cal_spec::{SpecFault, normal_text, read_expr};
use std::alloc::Global;
use std::test::Fail;

mod counts;
mod faults;
mod fields;
mod normal_texts;
mod offsets;
mod refusals;

/// Expects `text` to be a valid expression with this normal form.
fn expect_normal_text(alloc: Global, text: &str, normal: &str) -> Result<(), Fail> {
    let found = normal_text(alloc, &expr(alloc, text)?)?;
    ensure(found.as_str() == normal, text)
}

/// Expects `text` to be rejected with this error.
fn expect_fault(alloc: Global, text: &str, fault: SpecFault) -> Result<(), Fail> {
    ensure(read_expr(alloc, text).err() == Some(fault), text)
}
