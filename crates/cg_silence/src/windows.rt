//! A window for each endpoint that was heard.

ghost use Rattle.std.specs.Prelude.{◌≡◌, IfOk};
ghost use Rattle.std.specs.FinMap as map;
ghost use Rattle.cg_types.specs.Rising.{Rises};
ghost use Rattle.cg_messages.specs.Members.{endpoints_of_outcomes};
ghost use Rattle.cg_silence.specs.Windows.{arrivals, verdict_by};
ghost use Rattle.cg_silence.specs.Windows as spec;

use crate::chunks::Chunks;
use crate::silence::Silence;
use crate::verdict::Verdict;
use cg_messages::Outcome;
use cg_types::Endpoint;
use std::alloc::{AllocError, Global};
use std::marker::Model;

/// Windows of endpoints: one for each that was heard, all with the same settings. Those that are made from one another
/// share the chunks in which no window changed, and the gaps of the other windows but the last few.
#[derive(Drop)]
pub struct Windows {
    silence: Silence,
    windows: Chunks,
}

/// A contract sees the settings of the windows, and what each shows.
impl Model for Windows {
    ghost use Rattle.cg_silence.specs.Windows.{WindowsValue, windows_code, shown_in, AllJudge};

    ghost Value = { WindowsValue };

    ghost coded = { windows_code };

    ghost view = { λ w. record { silence = w.silence; shown = shown_in w.windows } };

    ghost invariant = { λ w. AllJudge w.silence w.windows };
}

impl Windows {
    /// A set of no windows. It takes no memory.
    pub fn none(alloc: Global, silence: Silence) -> Windows
        ensures { result ≡ record { silence = silence; shown = map.empty } }
    {
        Windows {
            silence,
            windows: Chunks::none(alloc),
        }
    }

    /// The verdict of an endpoint's window at `now`, in milliseconds; `Unheard` if it has none. It takes no memory.
    pub fn verdict(&self, endpoint: Endpoint, now: u64) -> Verdict
        ensures { result ≡ verdict_by self.now.silence (map.get self.now.shown endpoint) now }
    {
        match self.windows.get(endpoint) {
            Some(window) => window.verdict(now),
            None => Verdict::Unheard,
        }
    }

    /// The greatest arrival of an endpoint, in milliseconds of the clock of the arrivals; `None` if it has no window. It
    /// takes no memory.
    pub fn last_arrival(&self, endpoint: Endpoint) -> Option<u64>
        ensures { result ≡ spec.last_arrival (map.get self.now.shown endpoint) }
    {
        match self.windows.get(endpoint) {
            Some(window) => window.last_arrival(),
            None => None,
        }
    }

    /// Returns the windows after the outcomes of a message: each delta that was taken is an arrival. They share the
    /// chunks without an arrival.
    pub fn after(
        &self,
        alloc: Global,
        outcomes: &[Outcome],
        now: u64,
    ) -> Result<Windows, AllocError>
        requires { Rises (endpoints_of_outcomes outcomes.now) }
        ensures { IfOk result (λ w. w ≡ record {
          silence = self.now.silence;
          shown = arrivals self.now.silence now self.now.shown outcomes.now;
        }) }
    {
        Ok(Windows {
            silence: self.silence,
            windows: self.windows.heard(alloc, self.silence, outcomes, now)?,
        })
    }
}
