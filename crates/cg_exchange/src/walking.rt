//! Lists whose owners rise, walked side by side.

ghost use Rattle.std.specs.Prelude.{◌≡◌, map, option_copied};
ghost use Rattle.cg_types.specs.Rising.{Rises};
ghost use Rattle.cg_exchange.specs.Walking as spec;
ghost use Rattle.cg_exchange.specs.Walking.{next_of, behind_next};

use cg_types::{Endpoint, Owned};

// The members from an owner on. It looks at those that it leaves out, and at one more.
fn from_owner<M: Owned>(members: &[M], owner: Endpoint) -> &[M]
    ensures { result.now ≡ spec.from_owner M.owner_of owner members.now }
{
    for i in 0..members.len() {
        if members[i].owner() >= owner {
            return &members[i..];
        }
    }
    &members[members.len()..]
}

/// The members from an owner on, if owners rise. It looks at the first two, and then halves.
pub(crate) fn rising_from<M: Owned>(members: &[M], owner: Endpoint) -> &[M]
    requires { Rises (map M.owner_of members.now) }
    ensures { result.now ≡ spec.from_owner M.owner_of owner members.now }
{
    if members.len() > 1 && members[1].owner() >= owner {
        return from_owner(members, owner);
    }
    &members[members.partition_point(|member| member.owner() < owner)..]
}

/// The first member, if it is about this owner.
pub(crate) fn first_about<M: Owned>(members: &[M], owner: Endpoint) -> Option<&M>
    ensures { option_copied result ≡ spec.first_about M.owner_of owner members.now }
{
    match members.first() {
        Some(first) if first.owner() == owner => Some(first),
        _ => None,
    }
}

// Tests whether the first of the members is about an earlier owner.
fn begin_before<M: Owned>(members: &[M], owner: Endpoint) -> bool
    ensures { result ≡ spec.begin_before M.owner_of owner members.now }
{
    match members.first() {
        Some(first) => first.owner() < owner,
        None => false,
    }
}

/// The first member and those after it, unless the first of the others is about an earlier owner: then no member, and
/// all of them.
pub(crate) fn next<'a, M: Owned, N: Owned>(
    members: &'a [M],
    others: &[N],
) -> (Option<&'a M>, &'a [M])
    ensures first { option_copied result.0 ≡ next_of M.owner_of N.owner_of members.now others.now }
    ensures behind { result.1.now ≡ behind_next M.owner_of N.owner_of members.now others.now }
{
    match members.split_first() {
        Some((first, behind)) => {
            if begin_before(others, first.owner()) {
                (None, members)
            } else {
                (Some(first), behind)
            }
        }
        None => (None, members),
    }
}
