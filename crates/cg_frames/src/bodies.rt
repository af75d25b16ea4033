//! The bytes after the length of a frame: checked with no memory, and read.

ghost use Rattle.std.specs.Prelude.{◌≡◌, Ok, IsOk, true};
ghost use Rattle.cg_types.specs.Text.{cluster_of};
ghost use Rattle.cg_messages.specs.declared.message.Message.TheVariants as messages;
ghost use Rattle.cg_frames.specs.Layouts.{IsRead};
ghost use Rattle.cg_frames.specs.Reading as spec;

use crate::deltas::{check_deltas, deltas_of};
use crate::layout::Layout;
use crate::lists::{check_digests, check_requests, digests_of, requests_of};
use crate::misread::{Misread, ReadError};
use crate::reader::Reader;
use cg_messages::{Ack, Ack2, Kind, Message, OwnerDelta, Request, Syn};
use cg_types::{Cluster, Fault};
use std::alloc::Global;

#[tactic(auto, unfolding(crate::specs::Reading::syn_at))]
fn check_syn(layout: &Layout, reader: &mut Reader<'_>) -> Result<(), Misread>
    ensures { spec.Passes result reader.new (spec.syn_at layout.now reader.old) }
{
    reader.name()?;
    reader.byte()?;
    let count = reader.count(layout)?;
    check_digests(reader, count)
}

fn check_listed_requests(layout: &Layout, reader: &mut Reader<'_>) -> Result<(), Misread>
    ensures { spec.Passes result reader.new (spec.listed_requests_at layout.now reader.old) }
{
    let count = reader.count(layout)?;
    check_requests(reader, count)
}

fn check_listed_deltas(layout: &Layout, reader: &mut Reader<'_>) -> Result<(), Misread>
    ensures { spec.Passes result reader.new (spec.listed_deltas_at layout.now reader.old) }
{
    let count = reader.count(layout)?;
    check_deltas(layout, reader, count)
}

#[tactic(auto, unfolding(crate::specs::Reading::ack_at))]
fn check_ack(layout: &Layout, reader: &mut Reader<'_>) -> Result<(), Misread>
    ensures { spec.Passes result reader.new (spec.ack_at layout.now reader.old) }
{
    check_listed_requests(layout, reader)?;
    check_listed_deltas(layout, reader)
}

#[tactic(auto, unfolding(crate::specs::Reading::ack2_at))]
fn check_ack2(layout: &Layout, reader: &mut Reader<'_>) -> Result<(), Misread>
    ensures { spec.Passes result reader.new (spec.ack2_at layout.now reader.old) }
{
    check_listed_deltas(layout, reader)
}

fn check_whole_syn(layout: &Layout, reader: &mut Reader<'_>) -> Result<(), Misread>
    ensures { spec.Checks result (spec.as_message messages.Syn (spec.whole_field (spec.syn_at layout.now reader.old))) }
{
    check_syn(layout, reader)?;
    reader.end()?;
    Ok(())
}

fn check_whole_ack(layout: &Layout, reader: &mut Reader<'_>) -> Result<(), Misread>
    ensures { spec.Checks result (spec.as_message messages.Ack (spec.whole_field (spec.ack_at layout.now reader.old))) }
{
    check_ack(layout, reader)?;
    reader.end()?;
    Ok(())
}

fn check_whole_ack2(layout: &Layout, reader: &mut Reader<'_>) -> Result<(), Misread>
    ensures { spec.Checks result (spec.as_message messages.Ack2
        (spec.whole_field (spec.ack2_at layout.now reader.old))) }
{
    check_ack2(layout, reader)?;
    reader.end()?;
    Ok(())
}

/// Tests whether the bytes after the length are a message.
#[tactic(auto, unfolding(crate::specs::Reading::inside_at))]
pub(crate) fn check(layout: &Layout, inside: &[u8]) -> Result<(), Misread>
    ensures { spec.Checks result (spec.inside_at layout.now inside.now) }
{
    let mut reader = Reader::new(inside);
    reader.layout(layout)?;
    match reader.kind()? {
        Kind::Syn => check_whole_syn(layout, &mut reader),
        Kind::Ack => check_whole_ack(layout, &mut reader),
        Kind::Ack2 => check_whole_ack2(layout, &mut reader),
    }
}

fn new_cluster(alloc: Global, name: &str, partitioner: u8) -> Result<Cluster, ReadError>
    requires { cluster_of name.now partitioner ≡ Ok (record { name = name.now; partitioner = partitioner }) }
    ensures { spec.GivesWhole (λ c. c) result (Ok (record { name = name.now; partitioner = partitioner })) }
{
    match Cluster::with(alloc, name, partitioner) {
        Ok(cluster) => Ok(cluster),
        Err(Fault::OutOfMemory) => Err(ReadError::Memory),
        Err(_) => unreachable!(),
    }
}

#[tactic(auto, unfolding(crate::specs::Reading::syn_at))]
fn syn_of(alloc: Global, layout: &Layout, reader: &mut Reader<'_>) -> Result<Syn, ReadError>
    requires { IsRead layout.now }
    ensures { spec.GivesField (λ s. s) result reader.new (spec.syn_at layout.now reader.old) }
{
    let name = reader.name()?;
    let partitioner = reader.byte()?;
    let count = reader.count(layout)?;
    let digests = digests_of(alloc, reader, count)?;
    let cluster = new_cluster(alloc, name, partitioner)?;
    match Syn::new(cluster, digests) {
        Some(syn) => Ok(syn),
        None => unreachable!(),
    }
}

fn listed_requests_of(
    alloc: Global,
    layout: &Layout,
    reader: &mut Reader<'_>,
) -> Result<Vec<Request>, ReadError>
    ensures { spec.GivesField (λ v. v.items) result reader.new (spec.listed_requests_at layout.now reader.old) }
{
    let count = reader.count(layout)?;
    requests_of(alloc, reader, count)
}

fn listed_deltas_of(
    alloc: Global,
    layout: &Layout,
    reader: &mut Reader<'_>,
    known: bool,
) -> Result<Vec<OwnerDelta>, ReadError>
    requires layout { IsRead layout.now }
    requires known { known ≡ true → IsOk (spec.listed_deltas_at layout.now reader.old) }
    ensures { spec.GivesField (λ v. v.items) result reader.new (spec.listed_deltas_at layout.now reader.old) }
{
    let count = reader.count(layout)?;
    deltas_of(alloc, layout, reader, count, known)
}

#[tactic(auto, unfolding(crate::specs::Reading::ack_at))]
fn ack_of(
    alloc: Global,
    layout: &Layout,
    reader: &mut Reader<'_>,
    known: bool,
) -> Result<Ack, ReadError>
    requires layout { IsRead layout.now }
    requires known { known ≡ true → IsOk (spec.ack_at layout.now reader.old) }
    ensures { spec.GivesField (λ a. a) result reader.new (spec.ack_at layout.now reader.old) }
{
    let requests = listed_requests_of(alloc, layout, reader)?;
    let deltas = listed_deltas_of(alloc, layout, reader, known)?;
    match Ack::new(requests, deltas) {
        Some(ack) => Ok(ack),
        None => unreachable!(),
    }
}

#[tactic(auto, unfolding(crate::specs::Reading::ack2_at))]
fn ack2_of(
    alloc: Global,
    layout: &Layout,
    reader: &mut Reader<'_>,
    known: bool,
) -> Result<Ack2, ReadError>
    requires layout { IsRead layout.now }
    requires known { known ≡ true → IsOk (spec.ack2_at layout.now reader.old) }
    ensures { spec.GivesField (λ a. a) result reader.new (spec.ack2_at layout.now reader.old) }
{
    let deltas = listed_deltas_of(alloc, layout, reader, known)?;
    match Ack2::new(deltas) {
        Some(ack) => Ok(ack),
        None => unreachable!(),
    }
}

fn whole_syn_of(alloc: Global, layout: &Layout, reader: &mut Reader<'_>) -> Result<Syn, ReadError>
    requires { IsRead layout.now }
    ensures { spec.GivesWhole (λ s. s) result (spec.whole_field (spec.syn_at layout.now reader.old)) }
{
    let syn = syn_of(alloc, layout, reader)?;
    reader.end()?;
    Ok(syn)
}

fn whole_ack_of(
    alloc: Global,
    layout: &Layout,
    reader: &mut Reader<'_>,
    known: bool,
) -> Result<Ack, ReadError>
    requires layout { IsRead layout.now }
    requires known { known ≡ true → IsOk (spec.ack_at layout.now reader.old) }
    ensures { spec.GivesWhole (λ a. a) result (spec.whole_field (spec.ack_at layout.now reader.old)) }
{
    let ack = ack_of(alloc, layout, reader, known)?;
    reader.end()?;
    Ok(ack)
}

fn whole_ack2_of(
    alloc: Global,
    layout: &Layout,
    reader: &mut Reader<'_>,
    known: bool,
) -> Result<Ack2, ReadError>
    requires layout { IsRead layout.now }
    requires known { known ≡ true → IsOk (spec.ack2_at layout.now reader.old) }
    ensures { spec.GivesWhole (λ a. a) result (spec.whole_field (spec.ack2_at layout.now reader.old)) }
{
    let ack2 = ack2_of(alloc, layout, reader, known)?;
    reader.end()?;
    Ok(ack2)
}

/// Reads the message in the bytes after the length. If it is known that they are one, no text of a state is looked at.
#[tactic(auto, unfolding(crate::specs::Reading::inside_at))]
pub(crate) fn read(
    alloc: Global,
    layout: &Layout,
    inside: &[u8],
    known: bool,
) -> Result<Message, ReadError>
    requires layout { IsRead layout.now }
    requires known { known ≡ true → IsOk (spec.inside_at layout.now inside.now) }
    ensures { spec.GivesWhole (λ m. m) result (spec.inside_at layout.now inside.now) }
{
    let mut reader = Reader::new(inside);
    reader.layout(layout)?;
    match reader.kind()? {
        Kind::Syn => Ok(Message::Syn(whole_syn_of(alloc, layout, &mut reader)?)),
        Kind::Ack => Ok(Message::Ack(whole_ack_of(alloc, layout, &mut reader, known)?)),
        Kind::Ack2 => Ok(Message::Ack2(whole_ack2_of(alloc, layout, &mut reader, known)?)),
    }
}
