//! A worker of an agent in a thread of its own.

ghost use Rattle.std.specs.Prelude.{◌≡◌, ◌↔◌, IsTrue, IsOk, IfOk, IfErr};

use std::snapshot::Snapshot;
use std::thread::{Promise, PromisedHandle, Scope, SpawnError, Threads};

// A worker's thread, or its work if no thread could be made; and its promise.
pub(crate) struct Started<T, P: Promise<T>, F> {
    promise: Snapshot<P>,
    worker: Result<PromisedHandle<T, P>, SpawnError<F>>,
}

impl<T, P: Promise<T>, F: FnOnce() -> T> Started<T, P, F> {
    // Tests whether it has a thread.
    pub(crate) fn has_thread(&self) -> bool
        ensures { IsTrue result ↔ IsOk self.now.worker }
    {
        self.worker.is_ok()
    }

    // Returns the worker's value, as promised, once its thread has ended; works here if no thread could be made.
    pub(crate) fn ended<R: Threads>(self, rt: &R) -> T
        requires promised { IfOk self.worker (λ h. h.promise ≡ self.promise.value) }
        requires runs { IfErr self.worker (λ e. F.pre e.value) }
        requires keeps { IfErr self.worker (λ e. (r : T) → F.post e.value r → P.kept_by self.promise.value r) }
        ensures { P.kept_by self.promise.value result }
    {
        let Started {
            promise: _promise,
            worker,
        } = self;
        match worker {
            Ok(handle) => handle.join(rt),
            Err(refused) => {
                let SpawnError { value: work } = refused;
                work()
            }
        }
    }
}

// Starts a worker in a thread of the scope.
pub(crate) fn start<'s, E, P: Promise<T> + Drop, F: FnOnce() -> T + Send + 's, T: Send + Drop + 's>(
    scope: &Scope<'s, E>,
    promise: P,
    work: F,
) -> Started<T, P, F>
    requires runs { F.pre work }
    requires keeps { (r : T) → F.post work r → P.kept_by promise r }
    ensures promise { result.promise.value ≡ promise }
    ensures promised { IfOk result.worker (λ h. h.promise ≡ result.promise.value) }
    ensures runs { IfErr result.worker (λ e. F.pre e.value) }
    ensures keeps { IfErr result.worker (λ e. (r : T) → F.post e.value r → P.kept_by result.promise.value r) }
{
    let promised = Snapshot::of(&promise);
    Started {
        promise: promised,
        worker: scope.spawn_with(promise, work),
    }
}
