//! A script that is played with each byte changed in turn.

ghost use Rattle.std.specs.Prelude.{◌≡◌};
ghost use Rattle.ssh_play.specs.Runs.{counted};

use crate::alteration::{Alteration, Change};
use crate::course::Course;
use crate::standard::Standard;
use ssh_script::{ScriptFault, SessionScript};
use ssh_types::Side;
use std::alloc::Global;
use std::fmt;

/// How many runs there were with a byte changed, and how many of them are unsafe: the payloads that an end took after its first NEWKEYS
/// are no prefix of those that the other sent after its own.
#[derive(Clone, Copy)]
pub struct Tally {
    pub runs: u64,
    pub unsafe_runs: u64,
}

/// Plays a script once as it is, and then for each byte that an end put out three times more: with the byte's lowest bit changed on
/// each delivery of it, with the byte left out, and with the byte delivered twice.
///
/// A byte goes by its side and its place among all that the side puts out in the run at hand. A line that wants more bytes than there
/// are means those that there are, and a `feed` that the end doesn't take is left out.
///
/// # Errors
///
/// Settings that are refused, and want of memory.
pub fn sweep(alloc: Global, script: &SessionScript) -> Result<Tally, ScriptFault> {
    let standard = Standard::new(alloc, &script.setup)?;
    let steps = script.steps.as_slice();
    let unchanged = Course::of(alloc, &standard, steps, None)?;
    let mut tally = Tally {
        runs: 0,
        unsafe_runs: 0,
    };
    for side in [Side::Client, Side::Server] {
        for place in 0..unchanged.put_out(side).len() {
            for change in [Change::Flipped, Change::LeftOut, Change::Doubled] {
                let alteration = Alteration {
                    side,
                    place,
                    change,
                };
                let course = Course::of(alloc, &standard, steps, Some(alteration))?;
                tally.count(course.is_safe(alloc)?);
            }
        }
    }
    Ok(tally)
}

impl fmt::Display for Tally {
    fn fmt<W: fmt::Write>(&self, f: &mut fmt::Formatter<W>) -> fmt::Result {
        write!(f, "{} runs, {} unsafe", self.runs, self.unsafe_runs)
    }
}

impl Tally {
    fn count(&mut self, is_safe: bool)
        ensures { self.new ≡ counted is_safe self.old }
    {
        self.runs = self.runs.saturating_add(1);
        if !is_safe {
            self.unsafe_runs = self.unsafe_runs.saturating_add(1);
        }
    }
}
