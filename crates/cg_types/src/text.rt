//! Plain texts: of states, and of clusters' names.

ghost use Rattle.std.specs.Prelude.{◌≡◌, ◌↔◌, ◌+◌, ◌≤◌, IsTrue, IfOk, length, slice_range};
ghost use Rattle.std.specs.Arc.{arc_value};
ghost use Rattle.cg_types.specs.Answer.{Answers};
ghost use Rattle.cg_types.specs.Text.{printable, plain, IsStateText, IsCluster, state_text_of, cluster_of};
ghost use Rattle.cg_types.specs.declared.limits.TheConstants.{PARTITIONER};

use crate::fault::Fault;
use crate::limits::{NAME_LIMIT, PARTITIONER, TEXT_LIMIT};
use crate::shows::Shows;
use std::alloc::{AllocError, Global};
use std::fmt;
use std::marker::Model;
use std::ops::Deref;
use std::str::from_utf8_unchecked;
use std::sync::{Arc, ArcStr};

// Tests whether the bytes have no control character: none below 32, and no 127. It looks at each byte, also after a bad
// one, so that many are compared at once.
fn is_printable(bytes: &[u8]) -> bool
    ensures { result ≡ printable bytes.now }
{
    let mut printable = true;
    for b in bytes {
        printable &= *b >= 32 && *b != 127;
    }
    printable
}

/// Tests whether a text is plain: with none of the bytes 0 to 31 and 127.
pub fn is_plain(text: &str) -> bool
    ensures { result ≡ plain text.now }
{
    is_printable(text.as_bytes())
}

/// The text of a state, plain and of 0 to 4,096 bytes: a part of a buffer, which copies and other texts share. The buffer
/// is given back once none of them is left.
#[derive(Drop)]
pub struct StateText {
    buffer: Arc<Vec<u8>, Global>,
    at: u32,
    size: u16,
}

impl Model for StateText {
    ghost use Rattle.std.specs.Prelude.{ℕ, List, ◌+◌, ◌≤◌, length, slice_range};
    ghost use Rattle.std.specs.Arc.{arc_value};
    ghost use Rattle.cg_types.specs.Text.{IsStateText};

    ghost Value = { List ℕ };

    ghost view = { λ t. slice_range (arc_value t.buffer).items t.at (t.at + t.size) };

    ghost invariant = { λ t. (t.at + t.size ≤ length (arc_value t.buffer).items)
        × IsStateText (slice_range (arc_value t.buffer).items t.at (t.at + t.size)) };
}

/// Shows the text alone, not the rest of its buffer.
impl fmt::Debug for StateText {
    fn fmt<W: fmt::Write>(&self, f: &mut fmt::Formatter<W>) -> fmt::Result {
        let text = self.as_str();
        write!(f, "StateText {{ text: {text:?} }}")
    }
}

impl PartialEq for StateText {
    ghost use Rattle.std.specs.Prelude.{nat_eq};
    ghost use Rattle.std.specs.Cmp.{partial_equiv_from_equiv};
    ghost use Rattle.std.specs.Cmp.Lexicographic.{pointwise, nat_list_eq_equiv};

    ghost eq = { pointwise nat_eq };

    ghost laws = { partial_equiv_from_equiv nat_list_eq_equiv };

    /// Returns `true` if both have the same bytes.
    fn eq(&self, other: &StateText) -> bool
        ensures { IsTrue result ↔ (self.now ≡ other.now) }
    {
        self.as_str() == other.as_str()
    }
}

impl Eq for StateText {
    ghost use Rattle.std.specs.Cmp.Lexicographic.{nat_list_eq_equiv};

    ghost laws = { nat_list_eq_equiv };
}

impl Shows for StateText {
    ghost use Rattle.cg_types.specs.Text.{IsStateText};

    ghost Shown = { IsStateText };

    #[inline(always)]
    fn show(&self) {
        self.as_str();
    }
}

impl StateText {
    /// Makes the text of a state, which copies the bytes of `text`. `TooLong` over 4,096 bytes, else `BadText` if it is
    /// not plain, else at most `OutOfMemory`, which never comes in another refusal's place.
    pub fn new(alloc: Global, text: &str) -> Result<StateText, Fault>
        ensures { Answers (λ t. t) (state_text_of text.now) result }
    {
        if text.len() > TEXT_LIMIT {
            return Err(Fault::TooLong);
        }
        if !is_plain(text) {
            return Err(Fault::BadText);
        }
        Ok(StateText::of_plain(alloc, text)?)
    }

    /// Makes the text of a state, as `new` does, of a text that is known to be one: it is not tested again.
    /// `AllocError` if there is no memory for it.
    pub fn of_plain(alloc: Global, text: &str) -> Result<StateText, AllocError>
        requires { IsStateText text.now }
        ensures { IfOk result (λ t. t ≡ text.now) }
    {
        let size = text.len() as u16;
        let buffer = Arc::new(alloc, Vec::from_slice(alloc, text.as_bytes())?)?;
        Ok(StateText {
            buffer,
            at: 0,
            size,
        })
    }

    /// The text of a state in a buffer that others share: `size` bytes from the place `at` on, which are known to be a
    /// text. Nothing is copied, so the buffer lives as long as this text. It is refused as `copy` is.
    pub fn of_part(
        buffer: &Arc<Vec<u8>, Global>,
        at: u32,
        size: u16,
    ) -> Result<StateText, AllocError>
        requires within { at + size ≤ length (arc_value buffer.now).items }
        requires valid { IsStateText (slice_range (arc_value buffer.now).items at (at + size)) }
        ensures { IfOk result (λ t. t ≡ slice_range (arc_value buffer.now).items at (at + size)) }
    {
        Ok(StateText {
            buffer: Arc::try_clone(buffer)?,
            at,
            size,
        })
    }

    fn as_bytes(&self) -> &[u8]
        ensures value { result.now ≡ self.now }
        ensures valid { IsStateText result.now }
    {
        let bytes: &Vec<u8> = self.buffer.deref();
        let at = self.at as usize;
        let end = at + usize::from(self.size);
        &bytes[at..end]
    }

    /// The text's bytes, as a string.
    #[tactic(auto, using(crate::proofs::PlainLemmas::utf8_of_text))]
    pub fn as_str(&self) -> &str
        ensures value { result.now ≡ self.now }
        ensures valid { IsStateText self.now }
    {
        unsafe { from_utf8_unchecked(self.as_bytes()) }
    }

    /// The same text, which shares its bytes. `AllocError` could come only if the count of its owners is at its
    /// greatest, 2^63 - 1.
    pub fn copy(&self) -> Result<StateText, AllocError>
        ensures { IfOk result (λ t. t ≡ self.now) }
    {
        Ok(StateText {
            buffer: Arc::try_clone(&self.buffer)?,
            at: self.at,
            size: self.size,
        })
    }
}

/// A cluster: its name, plain and of 1 to 48 bytes, and the number of its partitioner. Copies share the name.
#[derive(Debug, Drop)]
pub struct Cluster {
    name: ArcStr<Global>,
    partitioner: u8,
}

impl Model for Cluster {
    ghost use Rattle.std.specs.Arc.{arc_str_bytes};
    ghost use Rattle.cg_types.specs.Text.{ClusterValue, IsCluster};

    ghost Value = { ClusterValue };

    ghost view = { λ c. record { name = arc_str_bytes c.name; partitioner = c.partitioner } };

    ghost invariant = { λ c. IsCluster (record { name = arc_str_bytes c.name; partitioner = c.partitioner }) };
}

impl PartialEq for Cluster {
    ghost use Rattle.std.specs.Prelude.{nat_eq};
    ghost use Rattle.std.specs.Ordering.{eq_of_both, on};
    ghost use Rattle.std.specs.Cmp.Lexicographic.{pointwise};
    ghost use Rattle.std.specs.Cmp.Rules.{comparing};
    ghost use Rattle.std.proofs.Common.{rules};

    ghost eq = { eq_of_both (on (λ c. c.name) (pointwise nat_eq)) (on (λ c. c.partitioner) nat_eq) };

    ghost laws = { Prim.search (comparing, rules) };

    /// Returns `true` if both have the same name and partitioner.
    fn eq(&self, other: &Cluster) -> bool
        ensures { IsTrue result ↔ (self.now ≡ other.now) }
    {
        self.name() == other.name() && self.partitioner == other.partitioner
    }
}

impl Eq for Cluster {
    ghost use Rattle.std.specs.Cmp.Rules.{comparing};
    ghost use Rattle.std.proofs.Common.{rules};

    ghost laws = { Prim.search (comparing, rules) };
}

impl Shows for Cluster {
    ghost use Rattle.cg_types.specs.Text.{IsCluster};

    ghost Shown = { IsCluster };

    #[inline(always)]
    fn show(&self) {
        self.name();
    }
}

impl Cluster {
    /// Makes a cluster with the partitioner in use, 1. Refusals are those of `with`.
    pub fn new(alloc: Global, name: &str) -> Result<Cluster, Fault>
        ensures { Answers (λ c. c) (cluster_of name.now PARTITIONER) result }
    {
        Cluster::with(alloc, name, PARTITIONER)
    }

    /// Makes a cluster of a name and the number of a partitioner. `TooLong` over 48 bytes, else `BadText` if the name
    /// is empty or not plain, else at most `OutOfMemory`, which never comes in another refusal's place.
    pub fn with(alloc: Global, name: &str, partitioner: u8) -> Result<Cluster, Fault>
        ensures { Answers (λ c. c) (cluster_of name.now partitioner) result }
    {
        if name.len() > NAME_LIMIT {
            return Err(Fault::TooLong);
        }
        if name.is_empty() || !is_plain(name) {
            return Err(Fault::BadText);
        }
        Ok(Cluster {
            name: ArcStr::from_str(alloc, name)?,
            partitioner,
        })
    }

    /// The cluster's name, 1 to 48 bytes.
    pub fn name(&self) -> &str
        ensures value { result.now ≡ self.now.name }
        ensures valid { IsCluster self.now }
    {
        self.name.as_str()
    }

    /// The partitioner's number; 1 is the one in use.
    pub fn partitioner(&self) -> u8
        ensures { result ≡ self.now.partitioner }
    {
        self.partitioner
    }

    /// The same cluster, which shares the name's bytes. It is refused as `StateText::copy` is.
    pub fn copy(&self) -> Result<Cluster, AllocError>
        ensures { IfOk result (λ c. c ≡ self.now) }
    {
        Ok(Cluster {
            name: self.name.clone()?,
            partitioner: self.partitioner,
        })
    }
}
