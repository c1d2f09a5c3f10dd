//! A script as it is drawn.

ghost use Rattle.std.specs.Prelude.{◌≡◌};
ghost use Rattle.ssh_play.specs.Arrivals.{origin_of};

use crate::draw::{Drawing, Origin};
use crate::lines::write_items;
use crate::player::Player;
use crate::standard::Standard;
use ssh_end::Done;
use ssh_script::{Delivery, ScriptFault, SessionScript, Shortage};
use ssh_types::Side;
use std::alloc::{AllocError, Global};

/// Plays a script as `play` does, and draws its events. Bytes that come in one piece come one by one here, which does not change the turns
/// of the ends.
///
/// # Errors
///
/// Those of `play`.
pub fn watch(alloc: Global, script: &SessionScript) -> Result<Drawing, ScriptFault> {
    let standard = Standard::new(alloc, &script.setup)?;
    let (mut player, opening) = Player::open(alloc, &standard, Shortage::Refused, None)?;
    let mut drawing = Drawing::new(alloc, false)?;
    let lines = lines_of(alloc, opening.as_slice())?;
    drawing.act(
        lines.as_str(),
        player.whole(Side::Client),
        player.whole(Side::Server),
    )?;
    for line in script.steps.iter() {
        if let Err(fault) = player.watch(&line.content, &mut drawing) {
            return Err(ScriptFault::at_run(alloc, line.number, fault));
        }
    }
    Ok(drawing)
}

/// The source of those bytes of a line of the network that come after this many others of it.
pub fn origin_of(delivery: &Delivery, passed: usize) -> Origin
    ensures { result ≡ origin_of delivery.now passed }
{
    match delivery {
        Delivery::Pass { .. } | Delivery::Drip { .. } | Delivery::Lose { .. } => Origin::Next,
        Delivery::Give { .. } => Origin::Script,
        Delivery::Again { start, .. } => Origin::Again {
            start: (*start as usize).saturating_add(passed),
        },
    }
}

/// The lines of these items.
///
/// # Errors
///
/// Only if memory is refused.
pub(crate) fn lines_of(alloc: Global, items: &[Done]) -> Result<String, AllocError> {
    let mut lines = String::new(alloc);
    write_items(items, &mut lines)?;
    Ok(lines)
}
