//! The ring, drawn as arcs of a circle.

ghost use Rattle.std.specs.Prelude.{◌≡◌, ◌++◌, ◌≤◌, OnOk, IfOk, option_copied};
ghost use Rattle.cg_tokens.specs.Tokens.{token_text};
ghost use Rattle.cg_page.specs.Drawn as spec;

use crate::colour::add_colour;
use crate::parts::{add, add_endpoint, add_number};
use cg_tokens::Token;
use cg_types::Endpoint;
use std::alloc::{AllocError, Global};

// The length of the whole circle. A token of 2^127 lies at its end.
const ROUND: u64 = 65536;

// The tokens at one place of the circle: 2^111.
const TOKENS: u128 = 2_596_148_429_267_413_814_265_248_164_610_048;

// The place of a token on the circle.
fn place_of(token: Token) -> u64
    ensures value { result ≡ spec.place_of token }
    ensures within { result ≤ 65536 }
{
    (token.number() / TOKENS) as u64
}

// Adds a token as a text.
fn add_token(alloc: Global, page: &mut Vec<u8>, token: Token) -> Result<(), AllocError>
    ensures { OnOk result (page.new.items ≡ page.old.items ++ token_text token) }
{
    let text = format!(in alloc; "{token}")?;
    add(page, text.as_str())
}

// Adds the arc of a length from a place on, in the colour of an endpoint.
fn add_stroke(
    page: &mut Vec<u8>,
    from: u64,
    length: u64,
    endpoint: Endpoint,
) -> Result<(), AllocError>
    ensures { OnOk result (page.new.items ≡ page.old.items ++ spec.stroke from length endpoint) }
{
    add(page, "<circle r=\"90\" pathLength=\"65536\" stroke=\"")?;
    add_colour(page, endpoint)?;
    add(page, "\" stroke-dasharray=\"0 ")?;
    add_number(page, from)?;
    add(page, " ")?;
    add_number(page, length)?;
    add(page, " 65536\">")
}

// Adds the title of an arc: the token and the endpoint that it leads to.
fn add_title(
    alloc: Global,
    page: &mut Vec<u8>,
    token: Token,
    endpoint: Endpoint,
) -> Result<(), AllocError>
    ensures { OnOk result (page.new.items ≡ page.old.items ++ spec.title token endpoint) }
{
    add(page, "<title>")?;
    add_token(alloc, page, token)?;
    add(page, " ")?;
    add_endpoint(alloc, page, endpoint)?;
    add(page, "</title></circle>\n")
}

// Adds the arc of a length from a place on, with the token and the endpoint that it leads to.
#[tactic(auto, unfolding(crate::specs::Drawn::arc))]
fn add_arc(
    alloc: Global,
    page: &mut Vec<u8>,
    from: u64,
    length: u64,
    token: Token,
    endpoint: Endpoint,
) -> Result<(), AllocError>
    ensures { OnOk result (page.new.items ≡ page.old.items ++ spec.arc from length token endpoint) }
{
    add_stroke(page, from, length, endpoint)?;
    add_title(alloc, page, token, endpoint)
}

// Adds an arc to each position from the one before, and returns the last place.
fn add_each(
    alloc: Global,
    page: &mut Vec<u8>,
    positions: &[(Token, Endpoint)],
) -> Result<u64, AllocError>
    ensures arcs { OnOk result (page.new.items ≡ page.old.items ++ spec.arcs_from 0 positions.now) }
    ensures last { IfOk result (λ last. (last ≡ spec.end_from 0 positions.now) × (last ≤ 65536)) }
{
    let mut from = 0;
    for (token, endpoint) in positions {
        let to = place_of(*token);
        add_arc(
            alloc,
            page,
            from,
            to.saturating_sub(from),
            *token,
            *endpoint,
        )?;
        from = to;
    }
    Ok(from)
}

// Adds the arc from a place to the end of the circle: it leads on to the first position.
fn add_closing(
    alloc: Global,
    page: &mut Vec<u8>,
    from: u64,
    first: Option<&(Token, Endpoint)>,
) -> Result<(), AllocError>
    requires { from ≤ 65536 }
    ensures { OnOk result (page.new.items ≡ page.old.items ++ spec.closing from (option_copied first.entry)) }
{
    match first {
        Some((token, endpoint)) => add_arc(alloc, page, from, ROUND - from, *token, *endpoint),
        None => Ok(()),
    }
}

/// Adds the arcs of a ring: each leads from the token before to its own, the first one over the end of the circle.
pub(crate) fn add_arcs(
    alloc: Global,
    page: &mut Vec<u8>,
    positions: &[(Token, Endpoint)],
) -> Result<(), AllocError>
    ensures { OnOk result (page.new.items ≡ page.old.items ++ spec.arcs positions.now) }
{
    let last = add_each(alloc, page, positions)?;
    add_closing(alloc, page, last, positions.first())
}
