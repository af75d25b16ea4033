//! The status that is published behind each round, and read with no lock.

ghost use Rattle.std.specs.Prelude.{◌≡◌, ◌<◌, ◌≤◌, IfOk, vec_len};

use cg_status::Status;
use cg_workers::Traffic;
use left_right::{Absorb, ReadHandle, WriteHandle};
use std::alloc::{AllocError, Global};
use std::sync::{Arc, Wait};

/// The status that was published last, if one was.
#[derive(Drop)]
pub(crate) struct Shown {
    status: Option<Arc<Status, Global>>,
}

impl Absorb<Arc<Status, Global>> for Shown {
    ghost use Rattle.std.specs.Prelude.{Some, option_map};
    ghost use Rattle.std.specs.Arc.{arc_value};

    type State = Option<Status>;

    ghost state = { λ s. option_map arc_value s.status };

    ghost applied = { λ s o. Some (arc_value o) };

    fn absorb_first(
        &mut self,
        operation: &Arc<Status, Global>,
        _other: &Shown,
    ) -> Result<(), AllocError> {
        let next = Arc::try_clone(operation)?;
        self.status = Some(next);
        Ok(())
    }
}

/// The publisher of a node's status.
pub(crate) struct StatusWriter<'a, R: Wait> {
    writer: WriteHandle<Shown, Arc<Status, Global>, &'a R, Global>,
}

impl<'a, R: Wait> Drop for StatusWriter<'a, R> {
    fn drop(self) {
        let Self { writer } = self;
        drop(writer);
    }
}

/// The publishing of a node's status, which tells of the traffic of its connections.
#[derive(Drop)]
pub(crate) struct Publishing<'a, R: Wait> {
    pub(crate) writer: StatusWriter<'a, R>,
    pub(crate) traffic: Arc<Traffic, Global>,
}

/// A reader of a node's status.
#[derive(Drop)]
pub(crate) struct StatusReader {
    reader: ReadHandle<Shown, Global>,
}

impl<'a, R: Wait> StatusWriter<'a, R> {
    /// Publishes a status, of which readers then know. It waits for those who just take the one before last.
    pub(crate) fn publish(&mut self, alloc: Global, status: Status) -> Result<(), AllocError> {
        let status = Arc::new(alloc, status)?;
        match self.writer.append(status) {
            Ok(()) => self.writer.publish(),
            Err(_) => Err(AllocError),
        }
    }
}

impl StatusReader {
    /// Returns the status that was published last, if one was and its count of owners is not full.
    pub(crate) fn read(&mut self) -> Option<Arc<Status, Global>> {
        let shown = self.reader.enter()?;
        match &shown.status {
            Some(status) => Arc::try_clone(status).ok(),
            None => None,
        }
    }
}

/// Makes a publisher, and some readers.
pub(crate) fn published<'a, R: Wait>(
    rt: &'a R,
    alloc: Global,
    readers: usize,
) -> Result<(StatusWriter<'a, R>, Vec<StatusReader>), AllocError>
    requires { (0 < readers) × (readers ≤ 16) }
    ensures { IfOk result (λ r. vec_len r.1 ≡ readers) }
{
    let (first, second) = (Shown { status: None }, Shown { status: None });
    let writer = WriteHandle::new(alloc, rt, first, second, readers)?;
    let mut made = Vec::with_capacity(alloc, readers)?;
    for _ in 0..readers {
        made.push_reserved(StatusReader {
            reader: writer.handle()?,
        });
    }
    Ok((StatusWriter { writer }, made))
}
