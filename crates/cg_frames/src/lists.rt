//! Lists of digests and requests, which rise: checked with no memory, and read.

ghost use Rattle.std.specs.Prelude.{None};
ghost use Rattle.cg_frames.specs.Reading as spec;

use crate::lengths::MEMBER_LENGTH;
use crate::misread::{Misread, ReadError};
use crate::reader::Reader;
use cg_entry::Digest;
use cg_messages::Request;
use cg_types::Endpoint;
use std::alloc::Global;

/// Reads past this number of digests, rising by endpoint.
pub(crate) fn check_digests(reader: &mut Reader<'_>, count: u16) -> Result<(), Misread>
    ensures { spec.Passes result reader.new (spec.digests_at count None reader.old) }
{
    let mut last: Option<Endpoint> = None;
    for _ in 0..count {
        let digest = reader.digest(last)?;
        last = Some(digest.endpoint);
    }
    Ok(())
}

/// Reads this number of digests, rising by endpoint. If more are announced than the bytes left can hold, the fault is
/// found before room is taken. It is a call with a reader of its own, so that its loop runs in registers.
#[inline(never)]
pub(crate) fn digests_of(
    alloc: Global,
    reader: &mut Reader<'_>,
    count: u16,
) -> Result<Vec<Digest>, ReadError>
    ensures { spec.GivesField (λ v. v.items) result reader.new (spec.digests_at count None reader.old) }
{
    if !reader.can_hold(count, MEMBER_LENGTH) {
        check_digests(&mut reader.again(), count)?;
    }
    let mut digests = Vec::with_capacity(alloc, usize::from(count))?;
    let mut ahead = reader.again();
    let mut last: Option<Endpoint> = None;
    for _ in 0..count {
        let digest = ahead.digest(last)?;
        last = Some(digest.endpoint);
        digests.push(digest)?;
    }
    *reader = ahead;
    Ok(digests)
}

/// Reads past this number of requests, rising by endpoint.
pub(crate) fn check_requests(reader: &mut Reader<'_>, count: u16) -> Result<(), Misread>
    ensures { spec.Passes result reader.new (spec.requests_at count None reader.old) }
{
    let mut last: Option<Endpoint> = None;
    for _ in 0..count {
        let request = reader.request(last)?;
        last = Some(request.endpoint());
    }
    Ok(())
}

/// Reads this number of requests, rising by endpoint. If more are announced than the bytes left can hold, the fault is
/// found before room is taken.
pub(crate) fn requests_of(
    alloc: Global,
    reader: &mut Reader<'_>,
    count: u16,
) -> Result<Vec<Request>, ReadError>
    ensures { spec.GivesField (λ v. v.items) result reader.new (spec.requests_at count None reader.old) }
{
    if !reader.can_hold(count, MEMBER_LENGTH) {
        check_requests(&mut reader.again(), count)?;
    }
    let mut requests = Vec::with_capacity(alloc, usize::from(count))?;
    let mut last: Option<Endpoint> = None;
    for _ in 0..count {
        let request = reader.request(last)?;
        last = Some(request.endpoint());
        requests.push(request)?;
    }
    Ok(requests)
}
