//! All lives of an endpoint.

ghost use Rattle.std.specs.Prelude.{◌≡◌, ◌↔◌, ◌==◌, map, None, IsTrue, IfOk, IfSome, IsSome, OnErr, OnOk};
ghost use Rattle.std.specs.Bool.{OnTrue};
ghost use Rattle.cg_types.specs.Rising.{rise_past};
ghost use Rattle.std.specs.List.{list_any, AllByRecursion};
ghost use Rattle.cg_audit.specs.Items.{LivesValue, IsLife, generation_of};
ghost use Rattle.cg_audit.specs.LivesCode as lives_code_spec;
ghost use Rattle.cg_audit.specs.Lives as lives_spec;
ghost use Rattle.cg_audit.specs.Lives.{differ, lone_life, then_life};

use cg_history::History;
use cg_types::{Endpoint, Generation, Shows};
use std::alloc::{AllocError, Global};
use std::marker::Model;

/// All lives of an endpoint, the first one first.
#[derive(Drop)]
pub struct Lives {
    endpoint: Endpoint,
    histories: Vec<History>,
}

/// A contract sees the endpoint and the histories, each of which began with a start of that endpoint.
impl Model for Lives {
    ghost use Rattle.std.specs.List.{AllByRecursion};
    ghost use Rattle.cg_audit.specs.Items.{LivesValue, IsLife};
    ghost use Rattle.cg_audit.specs.LivesCode.{lives_code};

    ghost Value = { LivesValue };

    ghost coded = { lives_code };

    ghost view = { λ l. record { endpoint = l.endpoint; histories = l.histories.items } };

    ghost invariant = { λ l. AllByRecursion (IsLife l.endpoint) l.histories.items };
}

impl Shows for Lives {
    ghost use Rattle.std.specs.List.{AllByRecursion};
    ghost use Rattle.cg_audit.specs.Items.{IsLife};

    ghost Shown = { λ l. AllByRecursion (IsLife l.endpoint) l.histories };

    #[inline(always)]
    fn show(&self) {
        self.histories();
    }
}

fn is_of(endpoint: Endpoint, history: &History) -> bool
    ensures value { result ≡ (history.now.base.table.own == endpoint) }
    ensures life { OnTrue result (IsLife endpoint history.now) }
{
    history.base().table().own() == endpoint
}

// Finds that a history that began with a node of the endpoint is a life of it.
fn show_life(endpoint: Endpoint, history: &History)
    requires { history.now.base.table.own ≡ endpoint }
    ensures { IsLife endpoint history.now }
{
    history.show();
}

// Returns `true` if each history began with a node of the endpoint; each is then a life of it.
fn are_of(endpoint: Endpoint, histories: &[History]) -> bool
    ensures value { result ≡ lives_code_spec.are_of endpoint histories.now }
    ensures lives { OnTrue result (AllByRecursion (IsLife endpoint) histories.now) }
{
    let mut rest = histories;
    while let Some((first, others)) = rest.split_first() {
        if !is_of(endpoint, first) {
            return false;
        }
        rest = others;
    }
    true
}

/// Returns the generation of a life.
pub(crate) fn generation(history: &History) -> Generation
    ensures { result ≡ generation_of history.now }
{
    history.base().table().own_entry().generation()
}

// Returns `true` if each life has a greater generation than the one before it.
fn rise(histories: &[History]) -> bool
    ensures { result ≡ rise_past None (map generation_of histories.now) }
{
    histories.is_sorted_by(|one, next| generation(one).get() < generation(next).get())
}

/// Returns `true` if the generations of each endpoint rise.
pub(crate) fn all_rise(lives: &[Lives]) -> bool
    ensures { result ≡ lives_spec.all_rise lives.now }
{
    lives.iter().all(|one| rise(one.histories()))
}

// Returns `true` if no record of these histories is folded.
fn none_folded(histories: &[History]) -> bool
    ensures { result ≡ lives_spec.none_folded histories.now }
{
    histories.iter().all(|history| history.folded() == 0)
}

/// Returns `true` if no record of any life is folded.
pub(crate) fn are_whole(lives: &[Lives]) -> bool
    ensures { result ≡ lives_spec.are_whole lives.now }
{
    lives.iter().all(|one| none_folded(one.histories()))
}

// Returns `true` if some lives are of an endpoint.
fn is_here(endpoint: Endpoint, lives: &[Lives]) -> bool
    ensures { result ≡ list_any (λ (l : LivesValue). l.endpoint == endpoint) lives.now }
{
    lives.iter().any(|one| one.endpoint() == endpoint)
}

/// Returns `true` if no two of these are of one endpoint.
pub fn endpoints_differ(lives: &[Lives]) -> bool
    ensures { result ≡ differ lives.now }
{
    let mut rest = lives;
    while let Some((first, others)) = rest.split_first() {
        if is_here(first.endpoint(), others) {
            return false;
        }
        rest = others;
    }
    true
}

impl Lives {
    /// Makes the lives of an endpoint; `None` if a history did not begin with a node of the endpoint.
    pub fn new(endpoint: Endpoint, histories: Vec<History>) -> Option<Lives>
        ensures when { IsSome result ↔ IsTrue (lives_code_spec.are_of endpoint histories.items) }
        ensures value { IfSome result (λ l. l ≡ record { endpoint = endpoint; histories = histories.items }) }
    {
        if !are_of(endpoint, &histories) {
            return None;
        }
        Some(Lives {
            endpoint,
            histories,
        })
    }

    /// Makes the lives of the endpoint of a history, which is the only one.
    pub fn of(alloc: Global, history: History) -> Result<Lives, AllocError>
        ensures { IfOk result (λ l. l ≡ lone_life history) }
    {
        let endpoint = history.base().table().own();
        show_life(endpoint, &history);
        let mut histories = Vec::with_capacity(alloc, 1)?;
        histories.push(history)?;
        Ok(Lives {
            endpoint,
            histories,
        })
    }

    /// Adds a life behind the others. It has to have begun with a node of their endpoint.
    pub fn push(&mut self, history: History) -> Result<(), AllocError>
        requires { history.base.table.own ≡ self.old.endpoint }
        ensures ok { OnOk result (self.new ≡ then_life self.old history) }
        ensures err { OnErr result (self.new ≡ self.old) }
    {
        show_life(self.endpoint, &history);
        self.histories.push(history)?;
        Ok(())
    }

    /// The endpoint whose lives these are.
    pub fn endpoint(&self) -> Endpoint
        ensures { result ≡ self.now.endpoint }
    {
        self.endpoint
    }

    /// The histories of the lives, the first one first.
    pub fn histories(&self) -> &[History]
        ensures value { result.now ≡ self.now.histories }
        ensures lives { AllByRecursion (IsLife self.now.endpoint) self.now.histories }
    {
        &self.histories
    }
}
