//! The posts of workers who answer connections: those of peers, or requests over HTTP.

ghost use Rattle.std.specs.Prelude.{◌≡◌, ◌+◌, ◌≤◌, vec_len, vec_capacity};
ghost use Rattle.cg_agent.specs.Posts.{LeftAt};

use crate::browsers::{Browsers, serve_all};
use crate::parts::Plan;
use crate::publishing::StatusReader;
use crate::receivers::answer_all;
use crate::site::Site;
use cg_locked::{Name, Seat};
use cg_views::Pass;
use cg_workers::{Listen, Milliseconds};
use std::alloc::Global;
use std::io::Write;
use std::random::RandomSource;
use std::sync::Wait;

/// The post of a worker: the listener at which it answers the exchanges of peers, or requests over HTTP with these tools.
#[derive(Drop)]
pub(crate) enum Post<N: Name, L: Drop> {
    Peers(L),
    Web(L, Browsers<N>),
}

/// Answers connections at a post from a seat, until the node is to end or none comes any more.
pub(crate) fn answer_at_post<'s, N: Name, W: Write + Drop, R, L: Listen + Drop, C: Milliseconds>(
    rt: &'s R,
    alloc: Global,
    site: &'s Site<N, W, C>,
    seat: Seat<N>,
    post: Post<N, L>,
) -> Seat<N>
where
    R: Wait + RandomSource,
    ensures parts { result.parts ≡ seat.parts }
    ensures left { LeftAt N.start N.opening.own L.Reader.remaining L.Writer.contents L.accepts (C.shows site.now.clock)
        post seat result }
{
    match post {
        Post::Peers(listener) => answer_all(rt, alloc, site, seat, listener),
        Post::Web(listener, tools) => serve_all(rt, alloc, site, seat, listener, tools),
    }
}

// Puts a post of peers at each of these listeners into a list that has room for them.
fn with_peers<N: Name, L: Drop>(posts: Vec<Post<N, L>>, listeners: Vec<L>) -> Vec<Post<N, L>>
    requires { vec_len posts + vec_len listeners ≤ vec_capacity posts }
    ensures count { vec_len result ≡ vec_len posts + vec_len listeners }
    ensures room { vec_capacity result ≡ vec_capacity posts }
{
    let mut posts = posts;
    let mut listeners = listeners;
    for _ in 0..listeners.len() {
        posts.push_reserved(Post::Peers(listeners.pop().unwrap()));
    }
    posts
}

// Puts a post of HTTP at each of these listeners into a list that has room for them.
fn with_web<N: Name, L: Drop>(
    posts: Vec<Post<N, L>>,
    web: Vec<L>,
    passes: Vec<Pass<N>>,
    readers: Vec<StatusReader>,
    plan: Plan,
) -> Vec<Post<N, L>>
    requires room { vec_len posts + vec_len web ≤ vec_capacity posts }
    requires tools { (vec_len passes ≡ vec_len web) × (vec_len readers ≡ vec_len web) }
    ensures { vec_len result ≡ vec_len posts + vec_len web }
{
    let mut posts = posts;
    let mut web = web;
    let mut passes = passes;
    let mut readers = readers;
    for _ in 0..web.len() {
        let tools = Browsers {
            pass: passes.pop().unwrap(),
            status: readers.pop().unwrap(),
            writes: plan.writes,
            interval: plan.interval,
        };
        posts.push_reserved(Post::Web(web.pop().unwrap(), tools));
    }
    posts
}

/// Puts the posts at these listeners into a list that has room for them and was empty: of peers first, then of HTTP, each
/// with a pass and a reader of the status.
pub(crate) fn posts_at<N: Name, L: Drop>(
    posts: Vec<Post<N, L>>,
    listeners: Vec<L>,
    web: Vec<L>,
    passes: Vec<Pass<N>>,
    readers: Vec<StatusReader>,
    plan: Plan,
) -> Vec<Post<N, L>>
    requires empty { vec_len posts ≡ 0 }
    requires room { vec_len listeners + vec_len web ≤ vec_capacity posts }
    requires tools { (vec_len passes ≡ vec_len web) × (vec_len readers ≡ vec_len web) }
    ensures { vec_len result ≡ vec_len listeners + vec_len web }
{
    let posts = with_peers(posts, listeners);
    with_web(posts, web, passes, readers, plan)
}
