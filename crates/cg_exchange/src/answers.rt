//! The answers to messages.

ghost use Rattle.std.specs.Prelude.{◌≡◌, IsTrue, IfOk, option_copied};
ghost use Rattle.cg_types.specs.Answer.{Answers};
ghost use Rattle.cg_types.specs.Rising.{Rises};
ghost use Rattle.cg_messages.specs.Members.{AreListed, endpoints_of_digests, endpoints_of_deltas};
ghost use Rattle.cg_exchange.specs.Answering.{request_by, delta_by, requests_for, deltas_for, answer_to_syn, syn_of};
ghost use Rattle.cg_exchange.specs.Walking.{of_member, row_request, row_delta, IsSame, AreBehindSame};

use crate::walking::next;
use cg_entry::{BorrowedDelta, Digest, Entry};
use cg_messages::{Ack, BorrowedAck, BorrowedOwnerDelta, Request, Syn};
use cg_table::{Table, push_some, push_some_with_room};
use cg_types::{Cluster, Fault, Row};
use std::alloc::{AllocError, Global};

// The request to the sender of a digest, by the entry held of its endpoint.
fn request_of_digest(digest: &Digest, held: Option<&Entry>) -> Option<Request>
    ensures { result ≡ request_by digest.now (option_copied held.entry) }
{
    let Some(entry) = held else {
        return Request::new(digest.endpoint, digest.generation, 0);
    };
    if entry.generation() < digest.generation {
        return Request::new(digest.endpoint, digest.generation, 0);
    }
    if entry.generation() == digest.generation && entry.newest() < digest.newest {
        return Request::new(digest.endpoint, digest.generation, entry.newest().get());
    }
    None
}

// The delta that is sent of an entry, by the digest that names its endpoint, if there is such a digest.
fn delta_of_entry<'a>(entry: &'a Entry, named: Option<&Digest>) -> Option<BorrowedDelta<'a>>
    ensures { result ≡ delta_by entry.now (option_copied named.entry) }
{
    let Some(digest) = named else {
        return entry.borrowed_above(0);
    };
    if digest.generation < entry.generation() {
        return entry.borrowed_above(0);
    }
    if entry.generation() == digest.generation {
        return entry.borrowed_above(digest.newest.get());
    }
    None
}

// The request to the sender of a digest, by the row of its endpoint.
fn request_of_row(digest: &Digest, row: Option<&Row<Entry>>) -> Option<Request>
    ensures { result ≡ row_request digest.now (option_copied row.entry) }
{
    match row {
        Some(row) => request_of_digest(digest, Some(row.value())),
        None => request_of_digest(digest, None),
    }
}

// The delta that is sent of a row, by the digest that names its endpoint, if there is such a digest.
fn delta_of_row<'a>(row: &'a Row<Entry>, named: Option<&Digest>) -> Option<BorrowedOwnerDelta<'a>>
    ensures { result ≡ row_delta row.now (option_copied named.entry) }
{
    let delta = delta_of_entry(row.value(), named)?;
    Some(BorrowedOwnerDelta::new(row.endpoint(), delta))
}

// The request to the sender of a digest, if there is a digest.
fn request_of_next(digest: Option<&Digest>, row: Option<&Row<Entry>>) -> Option<Request>
    ensures { result ≡ of_member row_request (option_copied digest.entry) (option_copied row.entry) }
{
    match digest {
        Some(digest) => request_of_row(digest, row),
        None => None,
    }
}

// The delta of a row, if there is a row.
fn delta_of_next<'a>(
    row: Option<&'a Row<Entry>>,
    digest: Option<&Digest>,
) -> Option<BorrowedOwnerDelta<'a>>
    ensures { result ≡ of_member row_delta (option_copied row.entry) (option_copied digest.entry) }
{
    match row {
        Some(row) => delta_of_row(row, digest),
        None => None,
    }
}

// Tests whether a digest says of a row's entry what stands there, so that nothing is due.
fn is_same(row: &Row<Entry>, digest: &Digest) -> bool
    ensures { IsTrue result → IsSame row.now digest.now }
{
    let entry = row.value();
    row.endpoint() == digest.endpoint
        && entry.generation() == digest.generation
        && entry.newest() == digest.newest
}

// The rows and the digests behind a front of which nothing is due.
fn behind_same<'a, 'd>(
    rows: &'a [Row<Entry>],
    digests: &'d [Digest],
) -> (&'a [Row<Entry>], &'d [Digest])
    ensures { AreBehindSame rows.now digests.now result.0.now result.1.now }
{
    let most = rows.len().min(digests.len());
    for count in 0..most {
        if !is_same(&rows[count], &digests[count]) {
            return (&rows[count..], &digests[count..]);
        }
    }
    (&rows[most..], &digests[most..])
}

// The requests and the deltas, in one walk over digests and rows, since both rise.
fn lists_for<'a>(
    alloc: Global,
    table: &'a Table,
    digests: &[Digest],
) -> Result<(Vec<Request>, Vec<BorrowedOwnerDelta<'a>>), AllocError>
    requires { Rises (endpoints_of_digests digests.now) }
    ensures requests { IfOk result (λ x. x.0.items ≡ requests_for table.now.entries digests.now) }
    ensures deltas { IfOk result (λ x. x.1.items ≡ deltas_for table.now.entries digests.now) }
    ensures listed { IfOk result (λ x. AreListed (endpoints_of_deltas x.1.items)) }
{
    let mut requests = Vec::new(alloc);
    let mut deltas = Vec::new(alloc);
    let (mut rows, mut named) = behind_same(table.owners(), digests);
    while !rows.is_empty() || !named.is_empty() {
        let (row, rows_behind) = next(rows, named);
        let (digest, named_behind) = next(named, rows);
        let request = request_of_next(digest, row);
        push_some(&mut requests, request)?;
        let delta = delta_of_next(row, digest);
        push_some_with_room(&mut deltas, delta, rows.len())?;
        (rows, named) = behind_same(rows_behind, named_behind);
    }
    Ok((requests, deltas))
}

/// Makes the SYN with which the member that holds `table` and is in `cluster` opens an exchange. It has a digest of
/// each entry, rising by endpoint, and the cluster. `AllocError` if there is no memory for the digests.
pub fn syn(alloc: Global, table: &Table, cluster: &Cluster) -> Result<Syn, AllocError>
    ensures { IfOk result (λ s. s ≡ syn_of table.now cluster.now) }
{
    let digests = table.digests(alloc)?;
    Ok(Syn::of_parts(cluster.copy()?, digests))
}

/// Answers a SYN, as the member that holds `table` and is in `cluster`. The ACK requests all that the sender's digests
/// are ahead in, and sends all that they are behind in. An endpoint that is held and not named is sent whole, so that
/// an empty SYN is answered with everything. The receiver's own endpoint is answered for like any other.
///
/// `OtherCluster` if the sender's cluster has another name or another partitioner; `OutOfMemory` never comes in its
/// place. Else `OutOfMemory` comes if there is no memory for the two lists of the answer.
pub fn answer_syn(alloc: Global, table: &Table, cluster: &Cluster, syn: &Syn) -> Result<Ack, Fault>
    ensures { Answers (λ a. a) (answer_to_syn table.now cluster.now syn.now) result }
{
    let answer = borrowed_answer(alloc, table, cluster, syn)?;
    Ok(answer.into_owned(alloc)?)
}

/// Answers a SYN as `answer_syn` does, with deltas that are borrowed from the table: to be written, they need no copy.
/// The refusals are the same.
pub fn borrowed_answer<'a>(
    alloc: Global,
    table: &'a Table,
    cluster: &Cluster,
    syn: &Syn,
) -> Result<BorrowedAck<'a>, Fault>
    ensures { Answers (λ a. a) (answer_to_syn table.now cluster.now syn.now) result }
{
    if cluster != syn.cluster() {
        return Err(Fault::OtherCluster);
    }
    let (requests, deltas) = lists_for(alloc, table, syn.digests())?;
    Ok(BorrowedAck::of_parts(requests, deltas))
}
