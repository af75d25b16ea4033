//! The parts of a request.

/// The parts of a request that say which call it asks for. Of a header that comes twice this is the first value.
#[derive(Clone, Copy, Debug)]
pub struct Request<'a> {
    /// The method, as `GET`.
    pub method: &'a [u8],
    /// The path and the query, as `/replicas?key=k1&rf=3`.
    pub target: &'a [u8],
    /// The value of `host`.
    pub host: Option<&'a [u8]>,
    /// The value of `accept`.
    pub accept: Option<&'a [u8]>,
    /// The value of `x-cg-write`.
    pub mark: Option<&'a [u8]>,
    /// The body.
    pub body: &'a [u8],
}
