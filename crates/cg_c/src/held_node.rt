//! The handle of a node.

ghost use Rattle.std.specs.Prelude.{◌≡◌, Option, Some, None};
ghost use Rattle.cg_core.specs.Values.{NodeValue, node_code};
ghost use Rattle.std.specs.Coded.{coded_option};
ghost use Rattle.cg_c.specs.Held.{in_box, in_loose};

use crate::loose::Loose;
use cg_core::Node;
use std::alloc::Global;
use std::marker::Model;
use std::mem::replace;
use std::ptr::null_mut;

/// A handle that holds a node, or nothing. It is null if it holds nothing.
#[repr(C)]
pub struct HeldNode {
    at: *mut u8,
    ghost value: { Option NodeValue } by { coded_option node_code },
}

impl Model for HeldNode {
    ghost use Rattle.cg_core.specs.contracts.Node.{the_row};
    ghost use Rattle.cg_c.specs.Held.{held};

    ghost also_owns = { λ h. held the_row h.at h.value };
}

impl HeldNode {
    /// A handle that holds nothing.
    pub(crate) fn empty() -> HeldNode
        ensures { result.value ≡ None }
    {
        HeldNode { at: null_mut() }
    }

    fn of_loose(loose: Loose<Node, Global>) -> HeldNode
        ensures { result.value ≡ Some loose.value }
    {
        let Loose { at, alloc: _ } = loose;
        HeldNode { at: at as *mut u8 }
    }

    fn into_loose(self, alloc: Global) -> Option<Loose<Node, Global>>
        ensures { in_loose result ≡ self.value }
    {
        let HeldNode { at } = self;
        if at.is_null() {
            None
        } else {
            Some(Loose {
                at: at as *mut Node,
                alloc,
            })
        }
    }

    /// A handle that holds the node of a box.
    pub(crate) fn of(node: Box<Node>) -> HeldNode
        ensures { result.value ≡ Some node.value }
    {
        HeldNode::of_loose(Loose::of(node))
    }

    /// The box of the node that the handle holds, if it holds one.
    pub(crate) fn into_box(self, alloc: Global) -> Option<Box<Node>>
        ensures { in_box result ≡ self.value }
    {
        match self.into_loose(alloc) {
            None => None,
            Some(loose) => Some(loose.into_box()),
        }
    }

    /// Takes the node out, if there is one, and leaves the handle empty.
    pub(crate) fn take(&mut self, alloc: Global) -> Option<Box<Node>>
        ensures taken { in_box result ≡ self.old.value }
        ensures left { self.new.value ≡ None }
    {
        let held = replace(self, HeldNode::empty());
        held.into_box(alloc)
    }

    /// Puts a node in. One that is held already is freed.
    pub(crate) fn put(&mut self, alloc: Global, node: Box<Node>)
        ensures { self.new.value ≡ Some node.value }
    {
        let held = replace(self, HeldNode::of(node));
        let _freed = held.into_box(alloc);
    }
}
