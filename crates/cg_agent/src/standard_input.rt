//! Standard input, of which no read outlasts the node.

use crate::limits::NAP;
use libc::STDIN_FILENO;
use libc::net::{POLLIN, poll};
use libc::types::pollfd;
use std::io;
use std::io::Read;
use std::sync::atomic::{AtomicBool, Ordering};

// Waits until standard input has bytes or has ended, for a nap at most. Returns `true` if a read will not wait.
fn is_ready() -> bool {
    let mut asked = [pollfd {
        fd: STDIN_FILENO,
        events: POLLIN,
        revents: 0,
    }];
    poll(&mut asked, NAP as i32) > 0
}

/// The reader of standard input. It has ended, too, once the node is to end.
#[derive(Drop)]
pub(crate) struct StandardInput<'a, I: Drop> {
    pub(crate) reader: I,
    pub(crate) is_ending: &'a AtomicBool,
}

impl<'a, I: Read + Drop> Read for StandardInput<'a, I> {
    fn read(&mut self, buf: &mut [u8]) -> io::Result<usize> {
        for _ in 0..u64::MAX {
            if self.is_ending.load(Ordering::SeqCst) {
                return Ok(0);
            }
            if is_ready() {
                return self.reader.read(buf);
            }
        }
        Ok(0)
    }
}
