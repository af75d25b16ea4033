//! Answers that show a table or a status.

ghost use Rattle.std.specs.Prelude.{◌≡◌, IfOk};
ghost use Rattle.std.specs.FinMap as map;
ghost use Rattle.cg_tokens.specs.Ring.{ring, replicas as replicas_of};
ghost use Rattle.cg_status.specs.Status as status_spec;
ghost use Rattle.cg_status.specs.Metrics as metrics_spec;
ghost use Rattle.cg_operator.specs.Shown.{table_lines};
ghost use Rattle.cg_web.specs.Answers.{answer_of, plain};
ghost use Rattle.cg_web.specs.Shown.{IsJson, page_answer};
ghost use Rattle.cg_web.specs.declared.answer.Form.TheVariants as forms;

use crate::answer::{Answer, Form, found, told};
use crate::policy::policy;
use bytes::Bytes;
use cg_operator::table_text;
use cg_page::{SCRIPT, page as page_html};
use cg_status::{Status, metrics_text, replicas_json, status_json};
use cg_table::Table;
use cg_text::View;
use cg_tokens::{Ring, Token};
use http::{HeaderName, StatusCode};
use std::alloc::{AllocError, Global};

/// A view of a table.
pub fn printed(alloc: Global, table: &Table, view: View) -> Result<Answer, AllocError>
    ensures { IfOk result (λ a. a ≡ plain 200 (table_lines table.now view)) }
{
    told(table_text(alloc, table, view)?)
}

/// The status and the entries of a table, in JSON.
pub fn status(alloc: Global, status: &Status, table: &Table) -> Result<Answer, AllocError>
    ensures { IfOk result (IsJson (status_spec.status_json status.now (map.entries table.now.entries))) }
{
    let body = status_json(alloc, status, table)?;
    Ok(found(Form::Json, Bytes::from_vec(body)?))
}

/// The metrics.
pub fn metrics(alloc: Global, status: &Status) -> Result<Answer, AllocError>
    ensures { IfOk result (λ a. a ≡ answer_of 200 forms.Metrics (metrics_spec.metrics status.now)) }
{
    let body = metrics_text(alloc, status)?;
    Ok(found(Form::Metrics, Bytes::from_string(body)?))
}

/// The endpoints that keep the keys of a token, at most `rf` of them, in JSON.
pub fn replicas(alloc: Global, table: &Table, token: Token, rf: u64) -> Result<Answer, AllocError>
    ensures { IfOk result (IsJson (status_spec.endpoints_json
        (replicas_of (map.entries (ring table.now.entries)) token rf))) }
{
    let ring = Ring::of_table(alloc, table)?;
    let body = replicas_json(alloc, &ring, token, rf)?;
    Ok(found(Form::Json, Bytes::from_vec(body)?))
}

/// The page, with its policy.
pub fn page(alloc: Global, status: &Status, table: &Table) -> Result<Answer, AllocError>
    ensures { IfOk result (λ a. a ≡ page_answer status.now table.now) }
{
    let ring = Ring::of_table(alloc, table)?;
    let body = page_html(alloc, status, table, &ring)?;
    let policy = policy(alloc, SCRIPT)?;
    Ok(Answer {
        status: StatusCode::OK,
        form: Form::Page,
        more: Some((HeaderName::from_static("content-security-policy"), policy)),
        body: Bytes::from_vec(body)?,
    })
}
