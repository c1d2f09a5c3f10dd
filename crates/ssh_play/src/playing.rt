//! A script as it is played.

ghost use Rattle.std.specs.Prelude.{◌≡◌, ◌||◌};
ghost use Rattle.std.specs.List.{list_any};
ghost use Rattle.ssh_play.specs.Runs.{is_refusal};

use crate::lines::write_items;
use crate::player::Player;
use crate::standard::Standard;
use ssh_end::{Done, Item};
use ssh_script::{ScriptFault, SessionScript, Shortage};
use std::alloc::{AllocError, Global};

/// The items of the two ends of a script.
#[derive(Drop)]
pub struct Played {
    /// A line for each thing that an end did, in their order, each with LF after it.
    pub lines: String,
    /// Whether an end refused its peer, or found its own numbers spent.
    pub refused: bool,
}

/// Plays a script from the openings of its two ends on.
///
/// An end that finds no memory is over, as its line `died` alone shows, and the script goes on.
///
/// # Errors
///
/// Settings that are refused. The first line that can't be run: more bytes than there are, or a `feed` that the end doesn't take.
/// `Memory` if there is none for the parts of the ends, or for the transcript.
pub fn play(alloc: Global, script: &SessionScript) -> Result<Played, ScriptFault> {
    let standard = Standard::new(alloc, &script.setup)?;
    let (mut player, opening) = Player::open(alloc, &standard, Shortage::Refused, None)?;
    let mut played = Played {
        lines: String::new(alloc),
        refused: false,
    };
    played.note(opening.as_slice())?;
    for line in script.steps.iter() {
        match player.run(&line.content) {
            Ok(items) => played.note(items.as_slice())?,
            Err(fault) => return Err(ScriptFault::at_run(alloc, line.number, fault)),
        }
    }
    Ok(played)
}

impl Played {
    // The ends did this.
    fn note(&mut self, items: &[Done]) -> Result<(), AllocError>
        ensures { self.new.refused ≡ (self.old.refused || list_any is_refusal items.now) }
    {
        if has_refusal(items) {
            self.refused = true;
        }
        write_items(items, &mut self.lines)
    }
}

// Whether an end refused its peer.
fn has_refusal(items: &[Done]) -> bool
    ensures { result ≡ list_any is_refusal items.now }
{
    items.iter().any(|done| is_refusal(done))
}

fn is_refusal(done: &Done) -> bool
    ensures { result ≡ is_refusal done.now }
{
    matches!(done.item, Item::Refused(_))
}
