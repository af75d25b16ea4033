//! Endpoints: the addresses at which members are reached.

ghost use Rattle.std.specs.Prelude.{◌≡◌, ◌≢◌, ◌↔◌, ◌<◌, ◌≤◌, ◌+◌, ◌∷◌, ◌++◌, drop, decimal, ℕ, IsSome, IfSome, IfNone, IfOk, IfErr, OnOk, OnErr, MatchResult, string_bytes, Some, None, nat_eq, option_map};
ghost use Rattle.std.specs.Ordering.{nat_cmp};
ghost use Rattle.std.specs.Cmp.{nat_eq_equiv, nat_cmp_total, unsigned_po, partial_equiv_from_equiv};
ghost use Rattle.std.specs.Cmp.Rules.{comparing};
ghost use Rattle.std.proofs.Common.{rules};
ghost use Rattle.std.specs.Int.{w32, to_be_bytes, from_be_bytes};
ghost use Rattle.cg_types.specs.Numbers.{IsEndpoint, endpoint_of, address_of, port_of};
ghost use Rattle.cg_types.specs.EndpointText as spec;
ghost use Rattle.cg_types.specs.EndpointText.{endpoint_text, endpoint_in};
ghost use Rattle.cg_types.specs.declared.fault.Fault.TheVariants.{BadText};

use crate::fault::Fault;
use crate::shows::Shows;
use crate::words::{cut, number};
use itoa::write_digits;
use std::alloc::AllocError;
use std::cmp::Ordering;
use std::fmt;
use std::marker::Model;
use std::str::from_utf8_unchecked;

/// An endpoint: an IPv4 address and a port from 1 on. Endpoints are ordered by the address's four bytes, then the port.
#[derive(Clone, Copy, Debug)]
pub struct Endpoint {
    address: u32,
    port: u16,
}

/// A contract sees an endpoint as the number that its six bytes spell.
impl Model for Endpoint {
    ghost use Rattle.std.specs.Prelude.{ℕ, ◌≡◌, ◌<◌, ◌^◌};
    ghost use Rattle.cg_types.specs.Numbers.{endpoint_of, address_of, port_of};
    ghost use Rattle.cg_types.specs.Parts.{address-endpoint, port-endpoint};

    ghost Value = { ℕ };

    ghost view = { λ e. endpoint_of e.address e.port };

    ghost invariant = { λ e. (e.address < 2 ^ 32) × (0 < e.port) × (e.port < 2 ^ 16) };

    ghost inverse = { λ n. record { address = address_of n; port = port_of n } };

    ghost inverse_ok = { λ a h i. record {
      address = address-endpoint a.address a.port h.2 i;
      port = port-endpoint a.address a.port h.2 i;
    } };
}

impl PartialEq for Endpoint {
    ghost eq = { nat_eq };

    ghost laws = { partial_equiv_from_equiv nat_eq_equiv };

    fn eq(&self, other: &Endpoint) -> bool {
        self.number() == other.number()
    }
}

impl Eq for Endpoint {
    ghost laws = { nat_eq_equiv };
}

impl PartialOrd for Endpoint {
    ghost partial_cmp = { λ x y. Some (nat_cmp x y) };

    ghost laws = { unsigned_po };

    fn partial_cmp(&self, other: &Endpoint) -> Option<Ordering> {
        Some(self.cmp(other))
    }
}

impl Ord for Endpoint {
    ghost cmp = { nat_cmp };

    ghost total = { nat_cmp_total };

    ghost matches_partial_cmp = { Prim.search (comparing, rules) };

    ghost matches_eq = { Prim.search (comparing, rules) };

    fn cmp(&self, other: &Endpoint) -> Ordering {
        self.number().cmp(&other.number())
    }
}

impl Shows for Endpoint {
    ghost use Rattle.cg_types.specs.Numbers.{IsEndpoint};

    ghost Shown = { IsEndpoint };

    #[inline(always)]
    fn show(&self) {
        self.port();
    }
}

/// Writes an endpoint as `10.0.0.1:7000`: the address's bytes with dots, a colon and the port.
impl fmt::Display for Endpoint {
    ghost output = { λ e. Some (endpoint_text e) };

    fn fmt<W: fmt::Write>(&self, f: &mut fmt::Formatter<W>) -> fmt::Result {
        f.write_str(text_of(*self, &mut [0u8; LONGEST]))
    }
}

// The bytes of the longest text, `255.255.255.255:65535`.
const LONGEST: usize = 21;

// Puts a number and the byte after it before what begins at `end`, and returns where it begins.
fn put_part(part: u8, ending: u8, text: &mut [u8; LONGEST], end: usize) -> usize
    requires room { 4 ≤ end }
    requires within { end ≤ 21 }
    ensures start { result ≤ end }
    ensures short { end ≤ result + 4 }
    ensures text { drop result text.new ≡ decimal part ++ (ending ∷ drop end text.old) }
{
    text[end - 1] = ending;
    write_digits(u64::from(part), text, end - 1)
}

// Puts an endpoint's text at the end of some bytes, and returns where it begins. The last part is put first, so that
// the whole text is written at once.
#[tactic(auto, unfolding(crate::specs::EndpointText::endpoint_text))]
fn put_endpoint(endpoint: Endpoint, text: &mut [u8; LONGEST]) -> usize
    ensures start { result ≤ 21 }
    ensures text { drop result text.new ≡ endpoint_text endpoint }
    ensures valid { IsEndpoint endpoint }
{
    let [a, b, c, d] = endpoint.address.to_be_bytes();
    let at = put_port(endpoint.port, text);
    let at = put_part(d, b':', text, at);
    let at = put_part(c, b'.', text, at);
    let at = put_part(b, b'.', text, at);
    put_part(a, b'.', text, at)
}

// The endpoint's text, in the room that the caller gives for it. The proof shows that it is UTF-8: it is digits, dots
// and a colon.
fn text_of(endpoint: Endpoint, room: &mut [u8; LONGEST]) -> &str
    ensures { result.now ≡ endpoint_text endpoint }
{
    let start = put_endpoint(endpoint, room);
    unsafe { from_utf8_unchecked(&room[start..]) }
}

// Puts a port at the end of some bytes, and returns where it begins.
fn put_port(port: u16, text: &mut [u8; LONGEST]) -> usize
    ensures start { result ≤ 21 }
    ensures short { 16 ≤ result }
    ensures text { drop result text.new ≡ decimal port }
{
    write_digits(u64::from(port), text, LONGEST)
}

impl Endpoint {
    // The number that the six bytes spell.
    fn number(self) -> u64
        ensures { result ≡ self }
    {
        u64::from(self.address) * 65536 + u64::from(self.port)
    }

    /// Makes an endpoint of an address and a port; `None` if the port is 0.
    pub fn new(address: [u8; 4], port: u16) -> Option<Endpoint>
        ensures valid { IsSome result ↔ (0 < port) }
        ensures value { IfSome result (λ e. e ≡ endpoint_of (from_be_bytes w32 address) port) }
    {
        if port == 0 {
            return None;
        }
        Some(Endpoint {
            address: u32::from_be_bytes(address),
            port,
        })
    }

    /// Reads an endpoint from its text, as `10.0.0.1:7000`: four numbers from 0 to 255 and a port from 1 to 65,535,
    /// with no leading zeros. Any other text is `BadText`, and no other refusal comes.
    pub fn read(text: &str) -> Result<Endpoint, Fault>
        ensures value { MatchResult result (λ e. endpoint_in text.now ≡ Some e) (λ _. endpoint_in text.now ≡ None) }
        // The text is the one that the endpoint writes.
        ensures ok { IfOk result (λ e. text.now ≡ endpoint_text e) }
        // A text that is refused is no endpoint's.
        ensures err { OnErr result ((e : ℕ) → IsEndpoint e → text.now ≢ endpoint_text e) }
        ensures fault { IfErr result (λ f. f ≡ BadText) }
    {
        match Endpoint::from_bytes(text.as_bytes()) {
            Some(endpoint) => Ok(endpoint),
            None => Err(Fault::BadText),
        }
    }

    /// Reads an endpoint from the bytes of its text, as `read` does.
    pub fn from_bytes(text: &[u8]) -> Option<Endpoint>
        ensures value { result ≡ endpoint_in text.now }
        // The bytes are the text that the endpoint writes.
        ensures some { IfSome result (λ e. text.now ≡ endpoint_text e) }
        // Bytes that are refused are no endpoint's text.
        ensures none { IfNone result ((e : ℕ) → IsEndpoint e → text.now ≢ endpoint_text e) }
    {
        parts_in(text)
    }

    /// Appends the endpoint's text to a string, as `write!` would, and with no format between. `AllocError` if that
    /// text finds no room.
    pub fn push_to(self, text: &mut String) -> Result<(), AllocError>
        ensures { OnOk result (string_bytes text.new ≡ string_bytes text.old ++ endpoint_text self) }
    {
        text.push_str(text_of(self, &mut [0u8; LONGEST]))
    }

    /// The address's four bytes.
    pub fn address(self) -> [u8; 4]
        ensures { result ≡ to_be_bytes w32 (address_of self) }
    {
        self.address.to_be_bytes()
    }

    /// The port, 1 to 65,535.
    pub fn port(self) -> u16
        ensures value { result ≡ port_of self }
        ensures range { IsEndpoint self }
    {
        self.port
    }
}

// Reads an endpoint: its four numbers and its port.
#[tactic(auto, unfolding(crate::specs::EndpointText::endpoint_in))]
fn parts_in(text: &[u8]) -> Option<Endpoint>
    ensures { result ≡ endpoint_in text.now }
{
    let (a, rest) = octet_before(text, b'.')?;
    let (b, rest) = octet_before(rest, b'.')?;
    let (c, rest) = octet_before(rest, b'.')?;
    let (d, rest) = octet_before(rest, b':')?;
    let port = port_in(rest)?;
    Some(Endpoint {
        address: u32::from_be_bytes([a, b, c, d]),
        port,
    })
}

// Reads a number of at most 255 before the first byte `at`, and returns it with what follows that byte.
#[tactic(auto, unfolding(crate::specs::EndpointText::octet_before))]
fn octet_before(text: &[u8], at: u8) -> Option<(u8, &[u8])>
    ensures { option_map (λ p. (p.0, p.1.now)) result ≡ spec.octet_before at text.now }
{
    let (part, rest) = cut(text, at)?;
    let octet = number(part, 255)?;
    Some((octet as u8, rest))
}

// A port, 1 to 65,535.
#[tactic(auto, unfolding(crate::specs::EndpointText::port_in))]
fn port_in(text: &[u8]) -> Option<u16>
    ensures value { result ≡ spec.port_in text.now }
    ensures range { IfSome result (λ port. 0 < port) }
{
    let port = number(text, 65535)?;
    if port > 0 { Some(port as u16) } else { None }
}
