//! A number that equal messages have in common.

ghost use Rattle.std.specs.Prelude.{◌≡◌, fold};
ghost use Rattle.cg_messages.specs.Borrowed.{borrowed_message};
ghost use Rattle.cg_audit.specs.Hash as spec;
ghost use Rattle.cg_audit.specs.Hash.{hash_with_digest, hash_with_request, hash_with_delta};

use cg_entry::Digest;
use cg_messages::{Ack, Ack2, BorrowedMessage, OwnerDelta, Request, Syn};
use cg_types::Endpoint;

/// The factor of a hash before a number is added: odd, and with its bits spread out.
const FACTOR: u64 = 0x9e37_79b9_7f4a_7c15;

fn mixed(hash: u64, number: u32) -> u64
    ensures { result ≡ spec.mixed hash number }
{
    hash.wrapping_mul(FACTOR).wrapping_add(u64::from(number))
}

fn endpoint_number(endpoint: Endpoint) -> u32
    ensures { result ≡ spec.endpoint_number endpoint }
{
    u32::from_be_bytes(endpoint.address()).wrapping_add(u32::from(endpoint.port()))
}

fn digests_in(mut hash: u64, digests: &[Digest]) -> u64
    ensures { result ≡ fold hash_with_digest hash digests.now }
{
    for digest in digests {
        hash = mixed(
            mixed(hash, endpoint_number(digest.endpoint)),
            digest.newest.get(),
        );
    }
    hash
}

fn requests_in(mut hash: u64, requests: &[Request]) -> u64
    ensures { result ≡ fold hash_with_request hash requests.now }
{
    for request in requests {
        hash = mixed(
            mixed(hash, endpoint_number(request.endpoint())),
            request.version(),
        );
    }
    hash
}

fn deltas_in(mut hash: u64, deltas: &[OwnerDelta]) -> u64
    ensures { result ≡ fold hash_with_delta hash deltas.now }
{
    for sent in deltas {
        hash = mixed(
            mixed(hash, endpoint_number(sent.endpoint)),
            sent.delta.newest().get(),
        );
    }
    hash
}

/// Returns the hash of a message's content.
pub(crate) fn hash_of(message: BorrowedMessage<'_>) -> u64
    ensures { result ≡ spec.hash_of (borrowed_message message.entry) }
{
    match message {
        BorrowedMessage::Syn(syn) => digests_in(1, syn.digests()),
        BorrowedMessage::Ack(ack) => deltas_in(requests_in(2, ack.requests()), ack.deltas()),
        BorrowedMessage::Ack2(ack2) => deltas_in(3, ack2.deltas()),
    }
}
