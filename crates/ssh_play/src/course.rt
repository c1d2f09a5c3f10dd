//! A script that is played as far as it goes.

ghost use Rattle.std.specs.Prelude.{◌≡◌, ◌↔◌, IfOk, IsTrue};
ghost use Rattle.ssh_play.specs.Runs.{IsSafe};
ghost use Rattle.ssh_model.specs.declared.side.Side.TheVariants.{Client, Server};

use crate::alteration::Alteration;
use crate::player::Player;
use crate::safety::is_safe;
use crate::standard::Standard;
use ssh_end::Done;
use ssh_script::{Line, RunFault, ScriptFault, SessionScript, Shortage, Step};
use ssh_types::Side;
use std::alloc::{AllocError, Global};

/// The items of the two ends of a script, the oldest first, and all bytes that each put out.
#[derive(Drop)]
pub struct Course {
    pub items: Vec<Done>,
    pub client_bytes: Vec<u8>,
    pub server_bytes: Vec<u8>,
}

/// Plays a script as far as it goes: a line that wants more bytes than there are means those that there are, and a `feed` that the end
/// doesn't take is left out.
///
/// # Errors
///
/// Settings that are refused. `Memory` if there is none for the parts of the ends, or for the transcript.
pub fn play_through(alloc: Global, script: &SessionScript) -> Result<Course, ScriptFault> {
    let standard = Standard::new(alloc, &script.setup)?;
    Course::of(alloc, &standard, script.steps.as_slice(), None)
}

impl Course {
    /// The same over ends that are made so, with one byte altered on its way or none.
    pub(crate) fn of(
        alloc: Global,
        standard: &Standard<'_>,
        steps: &[Line<Step>],
        alteration: Option<Alteration>,
    ) -> Result<Course, ScriptFault> {
        let (mut player, mut items) = Player::open(
            alloc,
            standard,
            Shortage::Shortened,
            alteration,
        )?;
        for line in steps {
            match player.run(&line.content) {
                Ok(mut more) => items.append(&mut more)?,
                Err(RunFault::NotFed) => {}
                Err(fault) => return Err(ScriptFault::at_run(alloc, line.number, fault)),
            }
        }
        Ok(Course {
            items,
            client_bytes: player.whole(Side::Client).to_vec(alloc)?,
            server_bytes: player.whole(Side::Server).to_vec(alloc)?,
        })
    }

    /// All bytes that a side put out.
    pub fn put_out(&self, side: Side) -> &[u8]
        ensures client { side ≡ Client → result.now ≡ self.now.client_bytes.items }
        ensures server { side ≡ Server → result.now ≡ self.now.server_bytes.items }
    {
        match side {
            Side::Client => self.client_bytes.as_slice(),
            Side::Server => self.server_bytes.as_slice(),
        }
    }

    /// Whether the payloads that each end took after its first NEWKEYS are a prefix of those that the other sent after its own.
    ///
    /// # Errors
    ///
    /// Only if memory is refused.
    pub fn is_safe(&self, alloc: Global) -> Result<bool, AllocError>
        ensures { IfOk result (λ safe. IsTrue safe ↔ IsSafe self.now.items.items) }
    {
        is_safe(alloc, self.items.as_slice())
    }
}
