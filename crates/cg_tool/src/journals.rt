//! Journals that are read one after the other, and the audit of all.

ghost use Rattle.std.specs.Prelude.{◌≡◌, [], IsTrue, OnErr, OnOk, nat_lt, option_copied, slice_get};
ghost use Rattle.std.specs.List.{prefix_len};
ghost use Rattle.cg_audit.specs.Items.{LivesValue};
ghost use Rattle.cg_audit.specs.Audit.{IsAudited};
ghost use Rattle.cg_tool.specs.Gathered.{with_life, is_of, IsPushed, GathersOne};

use crate::source::Source;
use cg_audit::{AuditFault, Lives, Order, audit};
use cg_history::History;
use cg_journal::Unread;
use cg_types::{Endpoint, Fault};
use std::alloc::{AllocError, Global};
use std::marker::Model;

/// The lives whose journals were read so far.
#[derive(Drop)]
pub struct Journals {
    lives: Vec<Lives>,
}

/// A contract sees the lives of each endpoint. The endpoints rise.
impl Model for Journals {
    ghost use Rattle.std.specs.Prelude.{List};
    ghost use Rattle.std.specs.Coded.{coded_list};
    ghost use Rattle.cg_audit.specs.Items.{LivesValue};
    ghost use Rattle.cg_audit.specs.LivesCode.{lives_code};
    ghost use Rattle.cg_tool.specs.Gathered.{EndpointsRise};

    ghost Value = { List LivesValue };

    ghost coded = { coded_list lives_code };

    ghost view = { λ j. j.lives.items };

    ghost invariant = { λ j. EndpointsRise j.lives.items };
}

// The number of the first lives whose endpoints come before this one.
fn before(lives: &[Lives], endpoint: Endpoint) -> usize
    ensures { result ≡ prefix_len (λ (l : LivesValue). nat_lt l.endpoint endpoint) lives.now }
{
    lives
        .iter()
        .take_while(|of_one| of_one.endpoint() < endpoint)
        .count()
}

fn lives_at(lives: &[Lives], place: usize) -> Option<&Lives>
    ensures { option_copied result ≡ slice_get lives.now place }
{
    lives.get(place)
}

// Returns `true` if the lives at a place are of an endpoint.
fn are_at(lives: &[Lives], place: usize, endpoint: Endpoint) -> bool
    ensures { result ≡ is_of endpoint (slice_get lives.now place) }
{
    match lives_at(lives, place) {
        Some(of_one) => of_one.endpoint() == endpoint,
        None => false,
    }
}

// Adds a history to the lives at a place, which are of its endpoint.
fn push_at(lives: &mut Vec<Lives>, place: usize, history: History) -> Result<(), AllocError>
    requires { IsTrue (is_of history.base.table.own (slice_get lives.old.items place)) }
    ensures ok { OnOk result (IsPushed lives.old.items place history lives.new.items) }
    ensures err { OnErr result (lives.new.items ≡ lives.old.items) }
{
    lives[place].push(history)
}

// Adds a history after the others of its endpoint.
fn add_life(lives: &mut Vec<Lives>, alloc: Global, history: History) -> Result<(), AllocError>
    ensures ok { OnOk result (lives.new.items ≡ with_life lives.old.items history) }
    ensures err { OnErr result (lives.new.items ≡ lives.old.items) }
{
    let endpoint = history.base().table().own();
    let place = before(lives, endpoint);
    if are_at(lives, place, endpoint) {
        return push_at(lives, place, history);
    }
    let of_one = Lives::of(alloc, history)?;
    lives.insert(place, of_one)?;
    Ok(())
}

impl Journals {
    /// Begins with no journals read.
    pub fn new(alloc: Global) -> Journals
        ensures { result ≡ [] }
    {
        Journals {
            lives: Vec::new(alloc),
        }
    }

    fn add(&mut self, alloc: Global, history: History) -> Result<(), AllocError>
        ensures ok { OnOk result (self.new ≡ with_life self.old history) }
        ensures err { OnErr result (self.new ≡ self.old) }
    {
        add_life(&mut self.lives, alloc, history)
    }

    /// Reads a journal, and adds its history as the next life of its endpoint.
    ///
    /// A journal that can't be read adds nothing, and its fault is returned with the line. Line 0 means that memory ran
    /// out once all lines were read.
    pub fn read<S: Source>(&mut self, alloc: Global, source: &mut S) -> Result<(), Unread>
        ensures { GathersOne S.reads S.fails source.old source.new self.old self.new result }
    {
        let history = match source.read_history(alloc) {
            Ok(history) => history,
            Err(unread) => return Err(unread),
        };
        match self.add(alloc, history) {
            Ok(()) => Ok(()),
            Err(_) => Err(Unread {
                line: 0,
                fault: Fault::OutOfMemory,
            }),
        }
    }

    /// Audits all that was read, by `audit`: returns the order of one run, or the fault if there is none.
    pub fn audit(&self, alloc: Global) -> Result<Order, AuditFault>
        ensures { IsAudited self.now result }
    {
        audit(alloc, &self.lives)
    }
}
