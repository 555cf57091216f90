//! How far a run over several files is, on a terminal.

use ecma_stdio::send;
use std::io::IsTerminal;
use std::time::{Duration, Instant};

/// A run that takes so many seconds shows how far it is.
const PATIENCE: u64 = 2;

/// What clears a terminal's line (ECMA-48: carriage return, erase in line).
const CLEAR: &str = "\r\x1b[K";

/// Since when a run goes on, where a terminal shows how far it is.
#[derive(Clone, Copy)]
pub struct Progress {
    since: Option<Instant>,
}

impl Progress {
    /// That of a run which begins now. It is shown where standard error is a terminal and standard output, whose rows would be
    /// among it, is none.
    pub fn new(rt: &HostRuntime) -> Progress {
        if !rt.stderr().is_terminal() || rt.stdout().is_terminal() {
            return Progress { since: None };
        }
        Progress {
            since: Instant::now(rt).ok(),
        }
    }

    /// Whether the run has taken long enough.
    fn is_due(self, rt: &HostRuntime) -> bool {
        let Some(since) = self.since else {
            return false;
        };
        match since.elapsed(rt) {
            Ok(taken) => taken >= Duration::from_secs(PATIENCE),
            Err(_) => false,
        }
    }

    /// Shows how many of several files are done, where the run has taken long enough.
    pub fn show(self, rt: &HostRuntime, done: usize, files: usize) {
        if files < 2 || !self.is_due(rt) {
            return;
        }
        if let Ok(line) = format!(in rt.alloc(); "{CLEAR}{done} of {files} files") {
            let _ = send(&mut rt.stderr(), 0, line.as_bytes());
        }
    }

    /// Clears the line that may be shown, before another is written there.
    pub fn clear(self, rt: &HostRuntime) {
        if self.is_due(rt) {
            let _ = send(&mut rt.stderr(), 0, CLEAR.as_bytes());
        }
    }
}
