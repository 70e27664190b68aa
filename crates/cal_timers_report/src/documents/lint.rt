//! The document of `lint`: the problems in files.

ghost use Rattle.std.specs.Prelude.{◌≡◌, ◌++◌, ◌∷◌, [], IfOk, OnOk, codes, map, string_bytes};
ghost use Rattle.json.specs.Json.{string};
ghost use Rattle.json.specs.Token.{key};
ghost use Rattle.json.specs.Tree.{json_tokens};
ghost use Rattle.cal_timers_report.specs.rules.Documents.{kind_of, lint_document, problem_json};
ghost use Rattle.cal_timers_report.specs.rules.JsonParts.{list_of};
ghost use Rattle.cal_timers_report.specs.rules.ReportView.{problem_seen};

use crate::documents::to_json::{document_text, put_member};
use crate::report::ProblemRow;
use json::{Pretty, Token};
use std::alloc::{AllocError, Global};

/// Returns the document of `lint`: an array with an object for each problem, in the order given.
///
/// The members of an object are `file`, `line`, `column`, `kind` (`error` or `warning`), `message` and `suggestion`.
/// `line`, `column` and `suggestion` are `null` if the problem doesn't have them. Fails only if allocation fails.
pub fn lint_json(alloc: Global, rows: &[ProblemRow<'_>]) -> Result<String, AllocError>
    ensures { IfOk result (λ text. string_bytes text ≡ lint_document (map problem_seen rows.now)) }
{
    let mut out = Pretty::new(alloc);
    put_problems(&mut out, rows)?;
    document_text(out)
}

fn put_problems(out: &mut Pretty, rows: &[ProblemRow<'_>]) -> Result<(), AllocError>
    ensures { OnOk result (out.new ≡ out.old ++ json_tokens (list_of problem_json (map problem_seen rows.now))) }
{
    out.token(Token::BeginArray)?;
    for row in rows {
        put_problem(out, row)?;
    }
    out.token(Token::EndArray)
}

fn put_problem(out: &mut Pretty, row: &ProblemRow<'_>) -> Result<(), AllocError>
    ensures { OnOk result (out.new ≡ out.old ++ json_tokens (problem_json (problem_seen row.now))) }
{
    out.token(Token::BeginObject)?;
    put_member(out, "file", &row.file)?;
    put_member(out, "line", &row.line)?;
    put_member(out, "column", &row.column)?;
    put_kind(out, row.is_error)?;
    put_member(out, "message", &row.message)?;
    put_member(out, "suggestion", &row.suggestion)?;
    out.token(Token::EndObject)
}

fn put_kind(out: &mut Pretty, is_error: bool) -> Result<(), AllocError>
    ensures { OnOk result (out.new ≡ out.old ++ key (codes "kind") ∷ [] ++ json_tokens (string (kind_of is_error))) }
{
    if is_error {
        put_member(out, "kind", &"error")
    } else {
        put_member(out, "kind", &"warning")
    }
}
