//! The chores of a node, once a second.

use crate::limits::PAUSE;
use crate::site::Site;
use cg_locked::Name;
use cg_workers::Milliseconds;
use std::fs::OpenFile;
use std::io::{Eprint, Write};
use std::sync::Wait;

/// The handle of the journal's file by which it is synced, if one is kept, and when the chores were done last.
#[derive(Drop)]
pub(crate) struct Chores<F: Drop> {
    pub(crate) file: Option<F>,
    pub(crate) last: u64,
}

impl<F: OpenFile + Drop> Chores<F> {
    // Has the journal on the disk, and prints a line if that fails.
    fn sync<R: Eprint>(&self, rt: &R) {
        let Some(file) = &self.file else {
            return;
        };
        if let Err(error) = file.sync_data() {
            let _ = eprintln!(rt; "cg agent: the journal can't be synced: {error}");
        }
    }

    /// Once a second it syncs the journal, and tells of the exchanges that broke off.
    pub(crate) fn do_due<N: Name, W: Write + Drop, R: Wait + Eprint, C: Milliseconds>(
        &mut self,
        rt: &R,
        site: &Site<N, W, C>,
    ) {
        let now = site.clock.now();
        if now.saturating_sub(self.last) < PAUSE {
            return;
        }
        self.last = now;
        self.sync(rt);
        site.tell_broken(rt);
    }
}
