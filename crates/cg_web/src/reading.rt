//! Answers to calls that read: by a pass, and by what is shown of the node.

ghost use Rattle.std.specs.Prelude.{◌≡◌, IfOk, IfErr};
ghost use Rattle.std.specs.FinMap as map;
ghost use Rattle.cg_types.specs.declared.fault.Fault.TheVariants as faults;
ghost use Rattle.cg_table.specs.Puts.{with_puts};
ghost use Rattle.cg_views.specs.Lists.{StartsWith};
ghost use Rattle.cg_http.specs.declared.call.Call.TheVariants as calls;
ghost use Rattle.cg_status.specs.declared.status.Status.{Status as StatusValue};
ghost use Rattle.cg_status.specs.Status.{status_json as status_of};
ghost use Rattle.cg_status.specs.Metrics.{metrics as metrics_of};
ghost use Rattle.cg_web.specs.Answers.{answer_of};
ghost use Rattle.cg_web.specs.Shown.{IsJson, page_answer, Shows, Lacks};
ghost use Rattle.cg_web.specs.declared.answer.Form.TheVariants as forms;

use crate::answer::Answer;
use crate::shown::{metrics, page, printed, replicas, status};
use crate::watch::Watch;
use cg_locked::Name;
use cg_status::Status;
use cg_text::View;
use cg_tokens::Token;
use cg_types::Fault;
use cg_views::Pass;
use std::alloc::Global;
use std::ops::Deref;
use std::sync::Arc;

// The status that was published last. `NoSuchNode` if none was.
fn last_status<S: Watch>(watch: &mut S) -> Result<Arc<Status, Global>, Fault>
    ensures { IfErr result (λ f. f ≡ faults.NoSuchNode) }
{
    match watch.status() {
        Some(status) => Ok(status),
        None => Err(Fault::NoSuchNode),
    }
}

/// A view of the table that the pass reads.
pub(crate) fn read_view<N: Name>(
    alloc: Global,
    pass: &mut Pass<N>,
    view: View,
) -> Result<Answer, Fault>
    ensures later { StartsWith pass.new pass.old }
    ensures answer { IfOk result (Shows (with_puts N.opening pass.new) (calls.Printed view)) }
    ensures err { IfErr result Lacks }
{
    let snapshot = match pass.read() {
        Ok(snapshot) => snapshot,
        Err(fault) => return Err(fault),
    };
    match printed(alloc, snapshot.table(), view) {
        Ok(answer) => Ok(answer),
        Err(_) => Err(Fault::OutOfMemory),
    }
}

/// The endpoints that keep the keys of a token, of the table that the pass reads.
pub(crate) fn read_replicas<N: Name>(
    alloc: Global,
    pass: &mut Pass<N>,
    token: Token,
    rf: u64,
) -> Result<Answer, Fault>
    ensures later { StartsWith pass.new pass.old }
    ensures answer { IfOk result (Shows (with_puts N.opening pass.new) (calls.ReplicaList token rf)) }
    ensures err { IfErr result Lacks }
{
    let snapshot = match pass.read() {
        Ok(snapshot) => snapshot,
        Err(fault) => return Err(fault),
    };
    match replicas(alloc, snapshot.table(), token, rf) {
        Ok(answer) => Ok(answer),
        Err(_) => Err(Fault::OutOfMemory),
    }
}

// A status, with the entries of the table that the pass reads.
fn show_status<N: Name>(alloc: Global, pass: &mut Pass<N>, last: &Status) -> Result<Answer, Fault>
    ensures later { StartsWith pass.new pass.old }
    ensures answer { IfOk result
        (IsJson (status_of last.now (map.entries (with_puts N.opening pass.new).entries))) }
    ensures err { IfErr result Lacks }
{
    let snapshot = match pass.read() {
        Ok(snapshot) => snapshot,
        Err(fault) => return Err(fault),
    };
    match status(alloc, last, snapshot.table()) {
        Ok(answer) => Ok(answer),
        Err(_) => Err(Fault::OutOfMemory),
    }
}

/// The status, with the entries of the table that the pass reads.
pub(crate) fn read_status<N: Name, S: Watch>(
    alloc: Global,
    pass: &mut Pass<N>,
    watch: &mut S,
) -> Result<Answer, Fault>
    ensures later { StartsWith pass.new pass.old }
    ensures answer { IfOk result (Shows (with_puts N.opening pass.new) calls.Status) }
    ensures err { IfErr result Lacks }
{
    let last = match last_status(watch) {
        Ok(last) => last,
        Err(fault) => return Err(fault),
    };
    show_status(alloc, pass, last.deref())
}

// The page of a status and of the table that the pass reads.
fn show_page<N: Name>(alloc: Global, pass: &mut Pass<N>, last: &Status) -> Result<Answer, Fault>
    ensures later { StartsWith pass.new pass.old }
    ensures answer { IfOk result (λ a. a ≡ page_answer last.now (with_puts N.opening pass.new)) }
    ensures err { IfErr result Lacks }
{
    let snapshot = match pass.read() {
        Ok(snapshot) => snapshot,
        Err(fault) => return Err(fault),
    };
    match page(alloc, last, snapshot.table()) {
        Ok(answer) => Ok(answer),
        Err(_) => Err(Fault::OutOfMemory),
    }
}

/// The page of the status and of the table that the pass reads.
pub(crate) fn read_page<N: Name, S: Watch>(
    alloc: Global,
    pass: &mut Pass<N>,
    watch: &mut S,
) -> Result<Answer, Fault>
    ensures later { StartsWith pass.new pass.old }
    ensures answer { IfOk result (Shows (with_puts N.opening pass.new) calls.Page) }
    ensures err { IfErr result Lacks }
{
    let last = match last_status(watch) {
        Ok(last) => last,
        Err(fault) => return Err(fault),
    };
    show_page(alloc, pass, last.deref())
}

/// The metrics of the status.
pub(crate) fn read_metrics<S: Watch>(alloc: Global, watch: &mut S) -> Result<Answer, Fault>
    ensures answer { IfOk result (λ a. (s : StatusValue) × (a ≡ answer_of 200 forms.Metrics (metrics_of s))) }
    ensures err { IfErr result Lacks }
{
    let last = match last_status(watch) {
        Ok(last) => last,
        Err(fault) => return Err(fault),
    };
    match metrics(alloc, last.deref()) {
        Ok(answer) => Ok(answer),
        Err(_) => Err(Fault::OutOfMemory),
    }
}
