//! The colours of endpoints.

ghost use Rattle.std.specs.Prelude.{◌≡◌, ◌++◌, OnOk};
ghost use Rattle.cg_page.specs.Drawn as spec;

use crate::parts::{add, add_number};
use cg_types::Endpoint;
use std::alloc::AllocError;

// The hue of an endpoint, in degrees. Endpoints of near addresses or ports differ.
fn hue(endpoint: Endpoint) -> u64
    ensures { result ≡ spec.hue endpoint }
{
    (u64::from(endpoint.address()[3]) + u64::from(endpoint.port())) * 137 % 360
}

/// Adds the colour of an endpoint.
#[tactic(auto, unfolding(crate::specs::Drawn::colour))]
pub(crate) fn add_colour(page: &mut Vec<u8>, endpoint: Endpoint) -> Result<(), AllocError>
    ensures { OnOk result (page.new.items ≡ page.old.items ++ spec.colour endpoint) }
{
    add(page, "hsl(")?;
    add_number(page, hue(endpoint))?;
    add(page, " 65% 50%)")
}
