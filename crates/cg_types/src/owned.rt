//! Things about an endpoint, and tests whether the owners of a list rise.

ghost use Rattle.std.specs.Prelude.{◌≡◌, ℕ, None, map};
ghost use Rattle.cg_types.specs.Rising.{rise_past};

use crate::endpoint::Endpoint;

/// Something that is about an endpoint, its owner.
pub trait Owned {
    ghost owner_of: { Self → ℕ };

    /// The endpoint that this is about.
    fn owner(&self) -> Endpoint
        ensures { result ≡ owner_of self.now };
}

impl Owned for Endpoint {
    ghost owner_of = { λ e. e };

    fn owner(&self) -> Endpoint {
        *self
    }
}

/// Tests whether the owners rise strictly, as those of a list in a message and of the rows of a map do.
pub fn owners_rise<M: Owned>(members: &[M]) -> bool
    ensures { result ≡ rise_past None (map M.owner_of members.now) }
{
    members.is_sorted_by(|member, next| member.owner() < next.owner())
}

/// Tests whether endpoints rise strictly, as the calls require that take a list of owners or seeds.
pub fn endpoints_rise(endpoints: &[Endpoint]) -> bool
    ensures { result ≡ rise_past None endpoints.now }
{
    owners_rise(endpoints)
}
