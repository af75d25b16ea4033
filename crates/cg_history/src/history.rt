//! A node with the records of all that it did.

ghost use Rattle.std.specs.Prelude.{◌≡◌, ◌<◌, ◌≤◌, IfOk, IsOk, MatchResult, OnOk, OnErr, length, take};
ghost use Rattle.cg_types.specs.Answer.{Answers};
ghost use Rattle.cg_core.specs.Step.{after_event};
ghost use Rattle.cg_history.specs.Confirming.{AreConfirmed, IsFirstUnconfirmed};
ghost use Rattle.cg_history.specs.History as spec;
ghost use Rattle.cg_history.specs.History.{IsReplayed, IsFoldOf, LAST_NUMBER, count_of, new_history, receipt_of, with_record, node_after, with_folded, unfolded};

use crate::confirming::confirms;
use crate::item::{Item, Receipt, UnconfirmedReceipt};
use crate::log::Log;
use cg_core::{Event, Node, Reply, Settings};
use cg_types::{Endpoint, Fault, Generation, Shows};
use std::alloc::{AllocError, Global};
use std::marker::Model;

/// A node with the records of all that it did since it started, of which the first may have been folded.
#[derive(Drop)]
pub struct History {
    start: Node,
    base: Node,
    folded: u64,
    items: Vec<Item>,
    node: Node,
}

/// A contract sees the node that started, the node before the records that are kept, the number of those folded, the
/// records that are kept, and the node to which they lead. They always lead there, and as many as were folded led from
/// the start to the base.
impl Model for History {
    ghost use Rattle.cg_history.specs.History.{HistoryValue, IsReplayed, history_code};

    ghost Value = { HistoryValue };

    ghost coded = { history_code };

    ghost view = { λ h.
        record { start = h.start; base = h.base; folded = h.folded; records = h.items.items; node = h.node } };

    ghost invariant = { λ h. IsReplayed
        (record { start = h.start; base = h.base; folded = h.folded; records = h.items.items; node = h.node }) };
}

// Returns the node after an event: a refused one leaves it as it is.
fn after(alloc: Global, node: &Node, event: &Event) -> Result<Node, AllocError>
    ensures { IfOk result (λ m. m ≡ after_event node.now event.now) }
{
    match node.stepped(alloc, event) {
        Ok((after, _)) => Ok(after),
        Err(Fault::OutOfMemory) => Err(AllocError),
        Err(_) => node.copy(),
    }
}

impl Shows for History {
    ghost use Rattle.cg_history.specs.History.{IsReplayed};

    ghost Shown = { IsReplayed };

    #[inline(always)]
    fn show(&self) {
        self.records();
    }
}

impl History {
    /// Begins the history of a node that starts. It has no records.
    pub fn begin(
        alloc: Global,
        own: Endpoint,
        generation: Generation,
        settings: Settings,
    ) -> Result<History, AllocError>
        ensures { IfOk result (λ h. h ≡ new_history own generation settings) }
    {
        generation.show();
        let node = Node::start(alloc, own, generation, settings)?;
        Ok(History {
            start: node.copy()?,
            base: node.copy()?,
            folded: 0,
            items: Vec::new(alloc),
            node,
        })
    }

    /// The node before the records that are kept. It is the one that the history began with, if none was folded; else
    /// the folded records led there.
    pub fn base(&self) -> &Node
        ensures value { result.now ≡ self.now.base }
        ensures replayed { IsReplayed self.now }
    {
        &self.base
    }

    /// The node after all records, to which those that are kept lead from the `base` node.
    pub fn node(&self) -> &Node
        ensures value { result.now ≡ self.now.node }
        ensures replayed { IsReplayed self.now }
    {
        &self.node
    }

    /// The records that are kept, the first one first; they are numbered from `folded` + 1.
    pub fn records(&self) -> &[Item]
        ensures value { result.now ≡ self.now.records }
        ensures replayed { IsReplayed self.now }
    {
        &self.items
    }

    /// The number of records that were folded.
    pub fn folded(&self) -> u64
        ensures value { result ≡ self.now.folded }
        ensures replayed { IsReplayed self.now }
    {
        self.folded
    }

    // The receipt of the next record.
    fn receipt(
        &self,
        alloc: Global,
        caller: u32,
        event: &Event,
        reply: &Reply,
    ) -> Result<Receipt, AllocError>
        requires { count_of self.now < LAST_NUMBER }
        ensures { IfOk result (λ r. r ≡ receipt_of self.now caller event.now reply.now) }
    {
        Ok(Receipt {
            caller,
            number: self.folded + self.items.len() as u64 + 1,
            event: event.copy(alloc)?,
            reply: reply.copy(alloc)?,
        })
    }

    // The node after an event, its record, and the receipt.
    fn record(
        &self,
        alloc: Global,
        caller: u32,
        event: Event,
    ) -> Result<(Node, Item, Receipt), Fault>
        ensures { Answers (λ x. (with_record self.now x.0 x.1, x.2)) (spec.apply self.now caller event) result }
    {
        if self.folded + self.items.len() as u64 == u64::MAX {
            return Err(Fault::VersionsSpent);
        }
        let (node, reply, puts) = self.node.stepped_with_puts(alloc, &event)?;
        let receipt = self.receipt(alloc, caller, &event, &reply)?;
        let item = Item {
            caller,
            event,
            reply,
            puts,
        };
        Ok((node, item, receipt))
    }

    /// Has the node do an event for a caller, keeps the record, and returns its receipt. If the event is refused,
    /// nothing changes and no record is made.
    ///
    /// `VersionsSpent` for every event, before all else, if the history has the record of the last number, 2^64 - 1.
    /// Else the refusals of `Node::stepped`, and `OutOfMemory` for every event.
    pub fn apply(&mut self, alloc: Global, caller: u32, event: Event) -> Result<Receipt, Fault>
        ensures due { Answers (λ receipt. (self.new, receipt)) (spec.apply self.old caller event) result }
        ensures err { OnErr result (self.new ≡ self.old) }
    {
        let (node, item, receipt) = self.record(alloc, caller, event)?;
        self.items.push(item)?;
        self.node = node;
        Ok(receipt)
    }

    /// Does an event as `apply` does, and tells a log of the record before it is kept. All memory is found before. The
    /// log was told all records, also those that were folded.
    ///
    /// `OutOfMemory` also if the log does not take the record in: then it is not kept.
    pub fn apply_logged<L: Log>(
        &mut self,
        alloc: Global,
        log: &mut L,
        caller: u32,
        event: Event,
    ) -> Result<Receipt, Fault>
        requires { IsFoldOf (L.told log.old) self.old }
        ensures due { Answers (λ receipt. (self.new, receipt)) (spec.apply self.old caller event) result }
        ensures whole { Answers (λ receipt. (unfolded (L.told log.new) self.new, receipt))
            (spec.apply (unfolded (L.told log.old) self.old) caller event) result }
        ensures err { OnErr result (self.new ≡ self.old) }
        ensures told { IsFoldOf (L.told log.new) self.new }
        ensures log { OnErr result (log.new ≡ log.old) }
    {
        let (node, item, receipt) = self.record(alloc, caller, event)?;
        self.items.reserve(1)?;
        if !log.add(&item) {
            return Err(Fault::OutOfMemory);
        }
        self.items.push_reserved(item);
        self.node = node;
        Ok(receipt)
    }

    // Returns the node after the first `n` records: the history's node, if they are all.
    fn node_after(&self, alloc: Global, n: usize) -> Result<Node, AllocError>
        requires { n ≤ length self.now.records }
        ensures { IfOk result (λ m. m ≡ node_after self.now.base (take n self.now.records)) }
    {
        if n == self.items.len() {
            return self.node.copy();
        }
        let mut node = self.base.copy()?;
        for item in &self.items[..n] {
            node = after(alloc, &node, &item.event)?;
        }
        Ok(node)
    }

    /// Folds the first `n` of the records that are kept: the base is then the node after them, and they are gone. The
    /// other records, their numbers and the node stay.
    ///
    /// The node does the `n` events again, so this takes as long as they took; if it folds all that are kept, it does
    /// none. The room of the folded records is given back. If memory is refused, nothing changes; `n` = 0 takes none.
    pub fn fold_front(&mut self, alloc: Global, n: usize) -> Result<(), AllocError>
        requires { n ≤ length self.old.records }
        ensures ok { OnOk result (self.new ≡ with_folded n self.old) }
        ensures none { n ≡ 0 → IsOk result }
        ensures err { OnErr result (self.new ≡ self.old) }
    {
        if n == 0 {
            return Ok(());
        }
        let base = self.node_after(alloc, n)?;
        let kept = self.items.split_off(n)?;
        self.items = kept;
        self.folded += n as u64;
        self.base = base;
        Ok(())
    }

    /// Tests whether each receipt is in the history at its number, with its caller, event and reply, and numbers rise
    /// for each caller. If not, it returns the first receipt that does not pass: as `Folded` if its number is that of a
    /// folded record, else as `Stranger`. It takes no memory; `confirms`, which it calls, says how long
    /// it takes.
    pub fn confirms(&self, receipts: &[Receipt]) -> Result<(), UnconfirmedReceipt>
        ensures { MatchResult result
            (λ _. AreConfirmed self.now.folded self.now.records receipts.now)
            (λ unconfirmed. IsFirstUnconfirmed self.now.folded self.now.records receipts.now unconfirmed) }
    {
        confirms(self.folded, &self.items, receipts)
    }
}
