//! Members of a message's lists: each has an owner, and a list of them rises and is short.

ghost use Rattle.std.specs.Prelude.{◌≡◌, map};
ghost use Rattle.cg_messages.specs.Members.{is_member_list};

use crate::owner_delta::OwnerDelta;
use crate::request::Request;
use cg_types::{Endpoint, MEMBER_LIMIT, Owned, owners_rise};

impl Owned for Request {
    ghost owner_of = { λ r. r.endpoint };

    fn owner(&self) -> Endpoint {
        self.endpoint()
    }
}

impl Owned for OwnerDelta {
    ghost owner_of = { λ d. d.endpoint };

    fn owner(&self) -> Endpoint {
        self.endpoint
    }
}

/// Tests whether the members can be in one list of a message.
pub(crate) fn are_listed<M: Owned>(members: &[M]) -> bool
    ensures { result ≡ is_member_list (map M.owner_of members.now) }
{
    members.len() <= MEMBER_LIMIT && owners_rise(members)
}
