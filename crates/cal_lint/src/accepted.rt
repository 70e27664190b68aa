//! Expressions to suggest. In this file, "systemd 252 accepts" means that the expression is valid here and that no rule
//! of `Systemd252` rejects it.

ghost use Rattle.std.specs.Prelude.{◌≡◌, IfOk, IfSome, Ok, string_bytes};
ghost use Rattle.cal_spec.specs.computed.Expr.{expr_in};
ghost use Rattle.cal_spec.specs.rules.ExprText.{expr_text};
ghost use Rattle.cal_lint.specs.rules.Systemd252.{IsNotRejected};

use crate::older_systemd::systemd_252;
use cal_spec::laws::normal_texts_read_back;
use cal_spec::{Expr, SpecFault, normal_text, read_expr};
use std::alloc::{AllocError, Global};

/// Returns an expression with the same meaning that systemd 252 accepts: `text` itself, or otherwise its normal form.
/// Returns `None` if systemd 252 accepts neither, or if `text` is not a valid expression. Fails only if allocation
/// fails.
pub(crate) fn accepted_text(alloc: Global, text: String) -> Result<Option<String>, AllocError>
    ensures accepted { IfOk result (λ found. IfSome found (λ form. IsNotRejected (string_bytes form))) }
    ensures same { IfOk result (λ found. IfSome found (λ form.
        expr_in (string_bytes form) ≡ expr_in (string_bytes text))) }
{
    match systemd_252(alloc, text.as_str()) {
        Ok(None) => Ok(Some(text)),
        Ok(Some(_)) => accepted_form(alloc, text.as_str()),
        Err(SpecFault::NoMemory) => Err(AllocError),
        Err(_) => Ok(None),
    }
}

/// Returns the normal form of a valid expression. Returns `None` if systemd 252 rejects the normal form, or if `text`
/// is not a valid expression. Fails only if allocation fails.
pub(crate) fn accepted_form(alloc: Global, text: &str) -> Result<Option<String>, AllocError>
    ensures accepted { IfOk result (λ found. IfSome found (λ form. IsNotRejected (string_bytes form))) }
    ensures same { IfOk result (λ found. IfSome found (λ form. expr_in (string_bytes form) ≡ expr_in text.now)) }
{
    let normal = match read_expr(alloc, text) {
        Ok(expr) => {
            reads_back(&expr);
            normal_text(alloc, &expr)?
        }
        Err(SpecFault::NoMemory) => return Err(AllocError),
        Err(_) => return Ok(None),
    };
    match systemd_252(alloc, normal.as_str()) {
        Ok(None) => Ok(Some(normal)),
        Err(SpecFault::NoMemory) => Err(AllocError),
        _ => Ok(None),
    }
}

/// Does nothing. Its contract says that parsing the normal form of an expression returns the expression.
#[tactic(auto, unfolding(cal_spec::specs::computed::Expr::expr_in))]
fn reads_back(expr: &Expr)
    ensures { expr_in (expr_text expr.now) ≡ Ok expr.now }
{
    let _weekdays = expr.weekdays();
    normal_texts_read_back();
}
