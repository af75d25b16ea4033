//! The server of a node, as a service of requests.

ghost use Rattle.std.specs.Prelude.{◌≡◌};
ghost use Rattle.cg_web.specs.Serving.{new_web, Changes, Does, Serves, Answers};

use crate::answer::{Answer, health, refused, stopping, told};
use crate::changing::change;
use crate::parts::parts_of;
use crate::reading::{read_metrics, read_page, read_replicas, read_status, read_view};
use crate::response::{begin, fill};
use crate::watch::Watch;
use bytes::Bytes;
use cg_ahead_seats::AheadGate;
use cg_core::Event;
use cg_http::{Call, Refusal, Request as Asked, call_of};
use cg_locked::{Name, Seat};
use cg_types::Fault;
use cg_views::Pass;
use http::Request;
use http_server::{Response, Service};
use std::alloc::{AllocError, Global};
use std::io::Write;
use std::marker::Model;
use std::sync::Wait;

/// The server of a node: a gate and a pass of its own, what it is shown of the node, whether it may change the node, and
/// whether the node is to stop.
#[derive(Drop)]
pub struct Web<'s, N: Name, W: Write + Drop, R: Wait, S: Watch + Drop> {
    alloc: Global,
    gate: AheadGate<'s, N, W, R>,
    pass: Pass<N>,
    watch: S,
    writes: bool,
    stopping: bool,
}

/// A contract sees the gate, the puts that the pass has read or learnt, and both flags.
impl<'s, N: Name, W: Write + Drop, R: Wait, S: Watch + Drop> Model for Web<'s, N, W, R, S> {
    ghost use Rattle.std.specs.Prelude.{⊤};
    ghost use Rattle.cg_web.specs.Serving.{WebValue, web_code};

    ghost Value = { WebValue };

    ghost coded = { web_code };

    ghost view = { λ w. record {
      gate = w.gate;
      pass = w.pass;
      writes = w.writes;
      stopping = w.stopping;
    } };

    ghost invariant = { λ w. ⊤ };
}

impl<'s, N: Name, W: Write + Drop, R: Wait, S: Watch + Drop> Web<'s, N, W, R, S> {
    /// Makes a server.
    pub fn new(
        alloc: Global,
        gate: AheadGate<'s, N, W, R>,
        pass: Pass<N>,
        watch: S,
        writes: bool,
    ) -> Web<'s, N, W, R, S>
        ensures { result ≡ new_web gate.entry pass writes }
    {
        Web {
            alloc,
            gate,
            pass,
            watch,
            writes,
            stopping: false,
        }
    }

    /// The allocator.
    pub(crate) fn alloc(&self) -> Global {
        self.alloc
    }

    /// Returns `true` if a request asked that the node stops, and might.
    pub fn is_stopping(&self) -> bool
        ensures { result ≡ self.now.stopping }
    {
        self.stopping
    }

    /// Returns `true` if an event of the gate met a journal that could not be written: then the node has to end.
    pub fn is_torn(&self) -> bool
        ensures { result ≡ self.now.gate.torn }
    {
        self.gate.is_torn()
    }

    /// Returns the seat of the gate.
    pub fn into_seat(self) -> Seat<N>
        ensures { result ≡ self.entry.gate.seat }
    {
        let Web { gate, .. } = self;
        gate.into_seat()
    }

    // Changes a key by an event, a Set or a Remove.
    fn change(&mut self, event: Event) -> Result<Answer, Fault>
        ensures { Changes N.start N.opening event self.old result self.new }
    {
        let text = match change(self.alloc, &mut self.gate, &mut self.pass, event) {
            Ok(text) => text,
            Err(fault) => return Err(fault),
        };
        match told(text) {
            Ok(answer) => Ok(answer),
            Err(_) => Err(Fault::OutOfMemory),
        }
    }

    // Does what a call asks for.
    fn act(&mut self, call: Call) -> Result<Answer, Fault>
        ensures { Does N.start N.opening call self.old result self.new }
    {
        match call {
            Call::Page => read_page(self.alloc, &mut self.pass, &mut self.watch),
            Call::Status => read_status(self.alloc, &mut self.pass, &mut self.watch),
            Call::Printed(view) => read_view(self.alloc, &mut self.pass, view),
            Call::ReplicaList { token, rf } => read_replicas(self.alloc, &mut self.pass, token, rf),
            Call::Metrics => read_metrics(self.alloc, &mut self.watch),
            Call::Health => Ok(health(self.watch.is_healthy())),
            Call::Set { key, text } => self.change(Event::Set { key, text }),
            Call::Remove { key } => self.change(Event::Remove { key }),
            Call::Stop => {
                self.stopping = true;
                Ok(stopping())
            }
        }
    }

    // Answers a request of these parts.
    fn serve(&mut self, parts: &Asked<'_>) -> Answer
        ensures { Serves N.start N.opening parts.now self.old result self.new }
    {
        match call_of(self.alloc, parts, self.writes) {
            Ok(call) => match self.act(call) {
                Ok(answer) => answer,
                Err(fault) => refused(self.alloc, Refusal::Fault(fault)),
            },
            Err(refusal) => refused(self.alloc, refusal),
        }
    }
}

impl<'s, N: Name, W: Write + Drop, R: Wait, S: Watch + Drop> Service for Web<'s, N, W, R, S> {
    ghost answers = { Answers N.start N.opening };

    fn call(
        &mut self,
        request: &Request<Bytes>,
        response: &mut Response,
    ) -> Result<(), AllocError> {
        begin(response)?;
        let parts = parts_of(request);
        let answer = self.serve(&parts);
        fill(response, answer);
        Ok(())
    }
}
