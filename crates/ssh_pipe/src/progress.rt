//! How far a transfer is, shown on a terminal.

use std::io::Write;
use std::rt::Stderr;

// The line is written again after so many bytes more.
const STEP: u64 = 1_048_576;

/// How much of a command's input was read and of its outputs written, with a line on a terminal that says so. Where there is no terminal
/// nothing is shown.
#[derive(Drop)]
pub struct Progress {
    terminal: Option<Stderr>,
    read: u64,
    written: u64,
    // How much was read and written when the line was written last.
    shown: u64,
}

impl Progress {
    /// Nothing was read or written yet. This terminal shows the line.
    pub fn new(terminal: Option<Stderr>) -> Progress {
        Progress {
            terminal,
            read: 0,
            written: 0,
            shown: 0,
        }
    }

    /// So many bytes more of the input were read.
    pub fn add_read(&mut self, count: usize) {
        self.read = self.read.saturating_add(count as u64);
    }

    /// So many bytes more of an output were written.
    pub fn add_written(&mut self, count: usize) {
        self.written = self.written.saturating_add(count as u64);
    }

    /// Writes the line over the one before, if much more went since that one.
    pub fn show_step(&mut self) {
        if self.transferred().saturating_sub(self.shown) >= STEP {
            self.show();
        }
    }

    /// Ends the line, if there is one.
    pub fn end_line(&mut self) {
        if self.shown > 0 {
            self.show();
            if let Some(terminal) = &mut self.terminal {
                let _ = writeln!(terminal);
            }
        }
    }

    // How many bytes were read and written.
    fn transferred(&self) -> u64 {
        self.read.saturating_add(self.written)
    }

    // Writes the line over the one before. A terminal that takes nothing is no fault of the transfer.
    fn show(&mut self) {
        self.shown = self.transferred();
        let (read, written) = (self.read / STEP, self.written / STEP);
        if let Some(terminal) = &mut self.terminal {
            let _ = write!(terminal, "\r{read} MiB read, {written} MiB written");
            let _ = terminal.flush();
        }
    }
}
