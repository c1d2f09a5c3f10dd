//! A file that is told to a layer.

use crate::lines::problem::Problem;
use crate::lines::words::{counted, written_out};
use std::alloc::{AllocError, Global};
use std::io::{Read, Write};
use std::{fs, io};

/// A layer to which lines are told.
pub trait Layer {
    /// The results of a line, or why it can't be told.
    ///
    /// # Errors
    ///
    /// `Problem`, whose text is then the result.
    fn said_to(&mut self, line: &str) -> Result<String, Problem>;
}

/// Tells a layer the lines of a file, and says how many came out as they have to, or the first that did not, with its place. It
/// answers whether all did.
///
/// # Errors
///
/// Those of reading and writing, and want of memory.
pub fn compared<L: Layer + Drop>(rt: &HostRuntime, file: &str, layer: L) -> io::Result<bool> {
    let mut text = String::new(rt.alloc());
    fs::open(rt, file)?.read_to_string(&mut text)?;
    let mut run = Run::new(rt.alloc(), layer);
    let is_right = run.whole(text.as_str())?;
    if is_right {
        writeln!(rt.stdout(), "{file}: {} lines", run.count)?;
    } else {
        writeln!(rt.stdout(), "{file}: line {}: {}", run.place, run.said)?;
    }
    Ok(is_right)
}

// A layer, what came of the line that it was told last, the place of the line that was looked at last, and how many lines were compared.
#[derive(Drop)]
struct Run<L> {
    alloc: Global,
    layer: L,
    said: String,
    // The line could not be told, which was not compared yet.
    is_open: bool,
    place: usize,
    count: u32,
}

impl<L: Layer> Run<L> {
    fn new(alloc: Global, layer: L) -> Run<L> {
        Run {
            alloc,
            layer,
            said: String::new(alloc),
            is_open: false,
            place: 0,
            count: 0,
        }
    }

    // Tells all lines but those of blocks, and answers whether all came out as they have to.
    fn whole(&mut self, text: &str) -> Result<bool, AllocError> {
        let mut is_in_block = false;
        for (index, line) in text.lines().enumerate() {
            if line.starts_with("block ") {
                is_in_block = true;
            }
            if is_in_block {
                is_in_block = line != "end";
                continue;
            }
            let (times, rest) = counted(line);
            let is_right = match rest.strip_prefix("do ") {
                Some(names) => self.often(text, names, times)?,
                None => self.line(index, line)?,
            };
            if !is_right {
                return Ok(false);
            }
        }
        Ok(!self.is_open)
    }

    // Tells those of blocks, one after the other, so many times.
    fn often(&mut self, text: &str, names: &str, times: u32) -> Result<bool, AllocError> {
        for _ in 0..times {
            for name in names.split(", ") {
                if !self.block(text, name)? {
                    return Ok(false);
                }
            }
        }
        Ok(true)
    }

    // Tells those of a block, which is there.
    fn block(&mut self, text: &str, name: &str) -> Result<bool, AllocError> {
        let mut is_in_it = false;
        let mut is_found = false;
        for (index, line) in text.lines().enumerate() {
            if line.strip_prefix("block ") == Some(name) {
                is_in_it = true;
                is_found = true;
            } else if line == "end" {
                is_in_it = false;
            } else if is_in_it && !self.line(index, line)? {
                return Ok(false);
            }
        }
        Ok(is_found)
    }

    // Tells one, or compares what came of the last one. What could not be told has to be compared.
    fn line(&mut self, index: usize, line: &str) -> Result<bool, AllocError> {
        if line.is_empty() || line.starts_with('#') {
            return Ok(true);
        }
        if let Some(wanted) = line.strip_prefix("> ") {
            self.place = index.wrapping_add(1);
            self.is_open = false;
            self.count = self.count.wrapping_add(1);
            return Ok(self.said.as_str() == wanted);
        }
        if self.is_open {
            return Ok(false);
        }
        self.place = index.wrapping_add(1);
        self.told(line)?;
        Ok(true)
    }

    // Keeps what comes of a line the last time that it is told.
    fn told(&mut self, line: &str) -> Result<(), AllocError> {
        let (times, line) = counted(line);
        for turn in 0..times {
            let line = written_out(self.alloc, line, turn)?;
            let answer = self.layer.said_to(line.as_str());
            self.is_open = answer.is_err();
            self.said = match answer {
                Ok(text) => text,
                Err(problem) => format!(in self.alloc; "{problem}")?,
            };
        }
        Ok(())
    }
}
