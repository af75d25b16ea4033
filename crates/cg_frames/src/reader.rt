//! Fields at the start of the rest of a frame, read with no memory.

ghost use Rattle.std.specs.Prelude.{◌≡◌, ◌<◌, ◌≤◌, ◌*◌, ◌^◌, ◌-◌, nat_le, true, length, take, IfOk, IsOk, IfSome, option_map};
ghost use Rattle.cg_types.specs.declared.fault.Cause.TheVariants as causes;
ghost use Rattle.cg_types.specs.Text.{plain};
ghost use Rattle.cg_types.specs.declared.limits.TheConstants.{NAME_LIMIT, NUMBER_LIMIT};
ghost use Rattle.std.specs.Int.{w8, w16, w32};
ghost use Rattle.cg_frames.specs.Laws.{AreBytes};
ghost use Rattle.cg_frames.specs.Reading as spec;

use crate::layout::Layout;
use crate::misread::Misread;
use cg_entry::{Digest, TOMBSTONE};
use cg_messages::{Kind, Request};
use cg_types::{
    Cause, Endpoint, Generation, NAME_LIMIT, NUMBER_LIMIT, STATE_LIMIT, StateKey, Version, is_plain,
};
use std::marker::Model;
use std::str::from_utf8_unchecked;

/// The rest of a frame.
#[derive(Drop)]
pub struct Reader<'a> {
    rest: &'a [u8],
}

impl<'a> Model for Reader<'a> {
    ghost use Rattle.std.specs.Prelude.{ℕ, List};

    ghost Value = { List ℕ };

    ghost view = { λ r. r.rest.now };
}

/// Tells that these are bytes.
#[inline(always)]
pub(crate) fn show_bytes(bytes: &[u8])
    ensures { AreBytes bytes.now }
{
    bytes.len();
}

impl<'a> Reader<'a> {
    pub(crate) fn new(rest: &'a [u8]) -> Reader<'a>
        ensures { result ≡ rest.now }
    {
        Reader { rest }
    }

    pub(crate) fn left(&self) -> usize
        ensures { result ≡ length self.now }
    {
        self.rest.len()
    }

    /// A reader of the same bytes.
    pub(crate) fn again(&self) -> Reader<'a>
        ensures { result ≡ self.now }
    {
        Reader { rest: self.rest }
    }

    /// The bytes in front of those that are left to another reader.
    pub(crate) fn until(&self, other: &Reader<'_>) -> &'a [u8]
        ensures value { result.now ≡ take (length self.now - length other.now) self.now }
        ensures bytes { AreBytes self.now }
    {
        show_bytes(self.rest);
        let size = self.rest.len().saturating_sub(other.rest.len());
        let (front, _) = self.rest.split_at(size);
        front
    }

    /// Tests whether the bytes that are left can hold this number of members, if each has at least `least` bytes.
    pub(crate) fn can_hold(&self, count: u16, least: usize) -> bool
        requires { least < 2 ^ 16 }
        ensures { result ≡ nat_le (count * least) (length self.now) }
    {
        usize::from(count) * least <= self.rest.len()
    }

    /// Tests whether nothing is left.
    pub(crate) fn end(&self) -> Result<(), Misread>
        ensures { spec.FindsEnd result self.now }
    {
        if self.rest.len() != 0 {
            return Err(Misread {
                cause: Cause::Rest,
                left: self.rest.len(),
            });
        }
        Ok(())
    }

    // Reads this number of bytes, as one field.
    fn bytes(&mut self, count: usize) -> Result<&'a [u8], Misread>
        ensures value { spec.Reads (λ x. x.now) result self.new (spec.bytes_at count self.old) }
        ensures whole { IfOk result (λ x. length x.now ≡ count) }
    {
        if self.rest.len() < count {
            return Err(Misread {
                cause: Cause::Short,
                left: self.rest.len(),
            });
        }
        let (front, rest) = self.rest.split_at(count);
        self.rest = rest;
        Ok(front)
    }

    pub(crate) fn byte(&mut self) -> Result<u8, Misread>
        ensures { spec.Reads (λ x. x) result self.new (spec.number_at w8 self.old) }
    {
        let front = self.bytes(1)?;
        Ok(u8::from_be_bytes([front[0]]))
    }

    /// Reads the byte that names the layout.
    pub(crate) fn layout(&mut self, layout: &Layout) -> Result<u8, Misread>
        ensures { spec.Reads (λ x. x) result self.new (spec.layout_at layout.now self.old) }
    {
        let left = self.left();
        let byte = self.byte()?;
        if byte != layout.byte {
            return Err(Misread {
                cause: Cause::Layout,
                left,
            });
        }
        Ok(byte)
    }

    /// Reads the kind of the message, which the number 1, 2 or 3 names.
    pub(crate) fn kind(&mut self) -> Result<Kind, Misread>
        ensures { spec.Reads (λ x. x) result self.new (spec.kind_at self.old) }
    {
        let left = self.left();
        match self.byte()? {
            1 => Ok(Kind::Syn),
            2 => Ok(Kind::Ack),
            3 => Ok(Kind::Ack2),
            _ => Err(Misread {
                cause: Cause::Kind,
                left,
            }),
        }
    }

    fn two(&mut self) -> Result<u16, Misread>
        ensures { spec.Reads (λ x. x) result self.new (spec.number_at w16 self.old) }
    {
        let front = self.bytes(2)?;
        Ok(u16::from_be_bytes([front[0], front[1]]))
    }

    /// Reads the number of members of a list.
    pub(crate) fn count(&mut self, layout: &Layout) -> Result<u16, Misread>
        ensures { spec.Reads (λ x. x) result self.new (spec.count_at layout.now self.old) }
    {
        let left = self.left();
        let count = self.two()?;
        if count as usize > layout.members {
            return Err(Misread {
                cause: Cause::Count,
                left,
            });
        }
        Ok(count)
    }

    fn number(&mut self) -> Result<u32, Misread>
        ensures { spec.Reads (λ x. x) result self.new (spec.number_at w32 self.old) }
    {
        let front = self.bytes(4)?;
        Ok(u32::from_be_bytes([front[0], front[1], front[2], front[3]]))
    }

    /// Reads an endpoint, which has to come after the last one of its list.
    pub(crate) fn endpoint(&mut self, last: Option<Endpoint>) -> Result<Endpoint, Misread>
        ensures { spec.Reads (λ x. x) result self.new (spec.endpoint_at last self.old) }
    {
        let left = self.left();
        let front = self.bytes(6)?;
        let port = u16::from_be_bytes([front[4], front[5]]);
        let Some(endpoint) = Endpoint::new([front[0], front[1], front[2], front[3]], port) else {
            return Err(Misread {
                cause: Cause::Endpoint,
                left,
            });
        };
        if let Some(before) = last
            && endpoint <= before
        {
            return Err(Misread {
                cause: Cause::Order,
                left,
            });
        }
        Ok(endpoint)
    }

    pub(crate) fn generation(&mut self) -> Result<Generation, Misread>
        ensures { spec.Reads (λ x. x) result self.new (spec.generation_at self.old) }
    {
        let left = self.left();
        let number = self.number()?;
        match Generation::new(number) {
            Some(generation) => Ok(generation),
            None => Err(Misread {
                cause: Cause::Generation,
                left,
            }),
        }
    }

    pub(crate) fn version(&mut self) -> Result<Version, Misread>
        ensures { spec.Reads (λ x. x) result self.new (spec.version_at self.old) }
    {
        let left = self.left();
        let number = self.number()?;
        match Version::new(number) {
            Some(version) => Ok(version),
            None => Err(Misread {
                cause: Cause::Version,
                left,
            }),
        }
    }

    /// Reads a heartbeat version.
    pub(crate) fn heartbeat(&mut self) -> Result<Version, Misread>
        ensures { spec.Reads (λ x. x) result self.new (spec.heartbeat_at self.old) }
    {
        let left = self.left();
        let number = self.number()?;
        match Version::new(number) {
            Some(version) => Ok(version),
            None => Err(Misread {
                cause: Cause::Heartbeat,
                left,
            }),
        }
    }

    /// Reads a version, or 0.
    pub(crate) fn held(&mut self, cause: Cause) -> Result<u32, Misread>
        ensures value { spec.Reads (λ x. x) result self.new (spec.held_at cause self.old) }
        ensures range { IfOk result (λ n. n < NUMBER_LIMIT) }
    {
        let left = self.left();
        let number = self.number()?;
        if number >= NUMBER_LIMIT {
            return Err(Misread { cause, left });
        }
        Ok(number)
    }

    /// Reads a version that is greater than `above`.
    pub(crate) fn version_above(&mut self, above: u32) -> Result<Version, Misread>
        ensures { spec.Reads (λ x. x) result self.new (spec.version_above_at above self.old) }
    {
        let left = self.left();
        let version = self.version()?;
        if version.get() <= above {
            return Err(Misread {
                cause: Cause::Version,
                left,
            });
        }
        Ok(version)
    }

    /// Reads a key, which has to come after the last one of its delta.
    pub(crate) fn key(&mut self, last: Option<StateKey>) -> Result<StateKey, Misread>
        ensures { spec.Reads (λ x. x) result self.new (spec.key_at last self.old) }
    {
        let left = self.left();
        let number = self.byte()?;
        let Some(key) = StateKey::new(number) else {
            return Err(Misread {
                cause: Cause::Key,
                left,
            });
        };
        if let Some(before) = last
            && key <= before
        {
            return Err(Misread {
                cause: Cause::Order,
                left,
            });
        }
        Ok(key)
    }

    /// Reads the number of states of a delta.
    pub(crate) fn state_count(&mut self) -> Result<u8, Misread>
        ensures { spec.Reads (λ x. x) result self.new (spec.state_count_at self.old) }
    {
        let left = self.left();
        let count = self.byte()?;
        if count > STATE_LIMIT {
            return Err(Misread {
                cause: Cause::Count,
                left,
            });
        }
        Ok(count)
    }

    /// Reads a request, which has to come after the last one of its list.
    #[tactic(auto, unfolding(crate::specs::Lists::request_at))]
    pub(crate) fn request(&mut self, last: Option<Endpoint>) -> Result<Request, Misread>
        ensures { spec.Reads (λ x. x) result self.new (spec.request_at last self.old) }
    {
        let endpoint = self.endpoint(last)?;
        let generation = self.generation()?;
        let version = self.held(Cause::Version)?;
        match Request::new(endpoint, generation, version) {
            Some(request) => Ok(request),
            None => unreachable!(),
        }
    }

    /// Reads a digest, which has to come after the last one of its list.
    #[tactic(auto, unfolding(crate::specs::Lists::digest_at))]
    pub(crate) fn digest(&mut self, last: Option<Endpoint>) -> Result<Digest, Misread>
        ensures { spec.Reads (λ x. x) result self.new (spec.digest_at last self.old) }
    {
        Ok(Digest {
            endpoint: self.endpoint(last)?,
            generation: self.generation()?,
            newest: self.version()?,
        })
    }

    // Reads this number of bytes of plain text.
    fn plain(&mut self, count: usize, cause: Cause) -> Result<&'a str, Misread>
        ensures value { spec.Reads (λ x. x.now) result self.new (spec.plain_at count cause self.old) }
        ensures whole { IfOk result (λ x. length x.now ≡ count) }
        ensures plain { IfOk result (λ x. plain x.now ≡ true) }
    {
        let left = self.left();
        let front = self.bytes(count)?;
        let Ok(text) = std::str::from_utf8(front) else {
            return Err(Misread { cause, left });
        };
        if !is_plain(text) {
            return Err(Misread { cause, left });
        }
        Ok(text)
    }

    /// Reads the name of a cluster, with its length before it.
    #[tactic(auto, unfolding(crate::specs::Fields::name_at))]
    pub(crate) fn name(&mut self) -> Result<&'a str, Misread>
        ensures value { spec.Reads (λ x. x.now) result self.new (spec.name_at self.old) }
        ensures some { IfOk result (λ x. 0 < length x.now) }
        ensures short { IfOk result (λ x. length x.now ≤ NAME_LIMIT) }
        ensures plain { IfOk result (λ x. plain x.now ≡ true) }
    {
        let left = self.left();
        let len = self.byte()? as usize;
        if len == 0 || len > NAME_LIMIT {
            return Err(Misread {
                cause: Cause::Name,
                left,
            });
        }
        self.plain(len, Cause::Name)
    }

    // Reads this number of bytes, which are known to be plain text.
    fn known_plain(&mut self, count: usize) -> Result<&'a str, Misread>
        requires { IsOk (spec.plain_at count causes.Text self.old) }
        ensures value { spec.Reads (λ x. x.now) result self.new (spec.plain_at count causes.Text self.old) }
        ensures whole { IfOk result (λ x. length x.now ≡ count) }
        ensures plain { IfOk result (λ x. plain x.now ≡ true) }
    {
        let front = self.bytes(count)?;
        Ok(known_text(front))
    }

    /// Reads a state's value: a text, with its length before it, or a tombstone.
    #[tactic(auto, unfolding(crate::specs::Fields::value_at))]
    pub(crate) fn value(&mut self, layout: &Layout) -> Result<Option<&'a str>, Misread>
        ensures value { spec.Reads (option_map (λ x. x.now)) result self.new (spec.value_at layout.now self.old) }
        ensures short { IfOk result (λ o. IfSome o (λ x. length x.now ≤ layout.now.text)) }
        ensures plain { IfOk result (λ o. IfSome o (λ x. plain x.now ≡ true)) }
    {
        let left = self.left();
        let size = self.two()?;
        let len = size as usize;
        if len > layout.text {
            tombstone_or_fault(layout, size, left)?;
            return Ok(None);
        }
        let text = self.plain(len, Cause::Text)?;
        Ok(Some(text))
    }

    /// Reads a state's value, as `value` does, of which it is known that it is one: its bytes are not looked at.
    #[tactic(auto, unfolding(crate::specs::Fields::value_at))]
    pub(crate) fn known_value(&mut self, layout: &Layout) -> Result<Option<&'a str>, Misread>
        requires { IsOk (spec.value_at layout.now self.old) }
        ensures value { spec.Reads (option_map (λ x. x.now)) result self.new (spec.value_at layout.now self.old) }
        ensures short { IfOk result (λ o. IfSome o (λ x. length x.now ≤ layout.now.text)) }
        ensures plain { IfOk result (λ o. IfSome o (λ x. plain x.now ≡ true)) }
    {
        let left = self.left();
        let size = self.two()?;
        let len = size as usize;
        if len > layout.text {
            tombstone_or_fault(layout, size, left)?;
            return Ok(None);
        }
        let text = self.known_plain(len)?;
        Ok(Some(text))
    }
}

// Plain text, as a string.
#[tactic(auto, using(crate::proofs::KnownLemmas::utf8_of_plain))]
fn known_text(bytes: &[u8]) -> &str
    requires { plain bytes.now ≡ true }
    ensures { result.now ≡ bytes.now }
{
    unsafe { from_utf8_unchecked(bytes) }
}

// Tests a length over that of each text, off the way of ordinary texts: it stands for a tombstone, or is a fault.
fn tombstone_or_fault(layout: &Layout, len: u16, left: usize) -> Result<(), Misread>
    ensures { result ≡ spec.tombstone_or_fault layout.now len left }
{
    if layout.tombstones && len == TOMBSTONE {
        return Ok(());
    }
    Err(Misread {
        cause: Cause::Text,
        left,
    })
}
