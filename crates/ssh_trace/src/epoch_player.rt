//! Plays the script of an epoch on a pair of ends.

ghost use Rattle.ssh_trace.specs.History.{AreFilled, events_of};

use crate::epoch_pair::EpochPair;
use crate::history::{Done, Event, Item, Memory, Transcript};
use crate::transcript::write_items;
use ssh_play::draw::Drawing;
use ssh_play::{Played, origin_of};
use ssh_script::{
    Delivery, EpochScript, EpochStep, Keys, Network, Parcel, RunFault, ScriptFault, Shortage,
};
use ssh_types::Side;
use std::alloc::{AllocError, Global};

/// Plays a script of one epoch.
pub(crate) fn play_epoch(alloc: Global, script: &EpochScript) -> Result<Played, ScriptFault> {
    let mut player = Player::new(alloc, &script.keys)?;
    let mut played = Played {
        lines: String::new(alloc),
        refused: false,
    };
    for line in script.steps.iter() {
        match player.run(&line.content) {
            Ok(items) => note(&mut played, items.as_slice())?,
            Err(fault) => return Err(ScriptFault::at_run(alloc, line.number, fault)),
        }
    }
    Ok(played)
}

/// Plays a script of one epoch, and draws its events.
pub(crate) fn watch_epoch(alloc: Global, script: &EpochScript) -> Result<Drawing, ScriptFault> {
    let mut player = Player::new(alloc, &script.keys)?;
    let mut drawing = Drawing::new(alloc, true)?;
    for line in script.steps.iter() {
        if let Err(fault) = player.watch(&line.content, &mut drawing) {
            return Err(ScriptFault::at_run(alloc, line.number, fault));
        }
    }
    Ok(drawing)
}

// The ends did this.
fn note(played: &mut Played, items: &[Done]) -> Result<(), AllocError> {
    if has_refusal(items) {
        played.refused = true;
    }
    write_items(items, &mut played.lines)
}

// Whether an end refused its peer.
fn has_refusal(items: &[Done]) -> bool {
    items
        .iter()
        .any(|done| matches!(done.item, Item::Refused(_)))
}

// The pair, and what each of its ends put out.
#[derive(Drop)]
struct Player {
    alloc: Global,
    pair: EpochPair,
    network: Network,
}

impl Player {
    fn new(alloc: Global, keys: &Keys) -> Result<Player, AllocError> {
        let Ok(pair) = EpochPair::new(alloc, &keys.client, &keys.server) else {
            return Err(AllocError);
        };
        Ok(Player {
            alloc,
            pair,
            network: Network::new(alloc, Shortage::Refused),
        })
    }

    // Runs one step, and gives what the ends did.
    fn run(&mut self, step: &EpochStep) -> Result<Vec<Done>, RunFault> {
        let transcript = match step {
            EpochStep::Ask { side, payload } => self.ask(*side, payload.as_slice())?,
            EpochStep::Network(delivery) => match self.network.deliver(delivery)? {
                Some(parcel) => delivered(self.alloc, &mut self.pair, &parcel)?,
                None => nothing(self.alloc),
            },
        };
        self.put_out(&transcript)?;
        Ok(transcript.items)
    }

    // Runs one step, and draws what happens.
    fn watch(&mut self, step: &EpochStep, drawing: &mut Drawing) -> Result<(), RunFault> {
        let done = match step {
            EpochStep::Ask { side, payload } => {
                let done = self.ask(*side, payload.as_slice())?;
                draw(self.alloc, &done, drawing)?;
                done
            }
            EpochStep::Network(delivery) => self.watch_delivery(delivery, drawing)?,
        };
        self.put_out(&done)?;
        Ok(())
    }

    // Delivers what a line of the network means, and draws what happens.
    fn watch_delivery(
        &mut self,
        delivery: &Delivery,
        drawing: &mut Drawing,
    ) -> Result<Transcript, RunFault> {
        if let Delivery::Lose { from, count } = delivery {
            drawing.lose(*from, *count as usize)?;
        }
        match self.network.deliver(delivery)? {
            Some(parcel) => Ok(watched_bytes(
                self.alloc,
                &mut self.pair,
                delivery,
                &parcel,
                drawing,
            )?),
            None => Ok(nothing(self.alloc)),
        }
    }

    // What the ends put out waits from now on.
    fn put_out(&mut self, done: &Transcript) -> Result<(), AllocError> {
        self.network
            .put_out(Side::Client, done.client_bytes.as_slice())?;
        self.network
            .put_out(Side::Server, done.server_bytes.as_slice())
    }

    // A payload of a script has at least one byte.
    fn ask(&mut self, side: Side, payload: &[u8]) -> Result<Transcript, AllocError> {
        if payload.is_empty() {
            return Ok(nothing(self.alloc));
        }
        play(&mut self.pair, &[Event::Ask(side, payload)])
    }
}

// No events were played.
fn nothing(alloc: Global) -> Transcript {
    Transcript {
        items: Vec::new(alloc),
        client_bytes: Vec::new(alloc),
        server_bytes: Vec::new(alloc),
    }
}

// Delivers a parcel, piece by piece.
fn delivered(
    alloc: Global,
    pair: &mut EpochPair,
    parcel: &Parcel<'_>,
) -> Result<Transcript, AllocError> {
    let mut all = nothing(alloc);
    for piece in parcel.pieces() {
        let mut more = play(pair, &[Event::Deliver(parcel.to, piece)])?;
        all.items.append(&mut more.items)?;
        all.client_bytes.append(&mut more.client_bytes)?;
        all.server_bytes.append(&mut more.server_bytes)?;
    }
    Ok(all)
}

// Delivers the bytes of a parcel one by one.
fn watched_bytes(
    alloc: Global,
    pair: &mut EpochPair,
    delivery: &Delivery,
    parcel: &Parcel<'_>,
    drawing: &mut Drawing,
) -> Result<Transcript, AllocError> {
    let mut all = nothing(alloc);
    for (index, piece) in parcel.bytes.chunks(1).enumerate() {
        drawing.come(parcel.to, origin_of(delivery, index), piece)?;
        let mut done = play(pair, &[Event::Deliver(parcel.to, piece)])?;
        if !done.items.is_empty() {
            draw(alloc, &done, drawing)?;
        }
        all.client_bytes.append(&mut done.client_bytes)?;
        all.server_bytes.append(&mut done.server_bytes)?;
    }
    Ok(all)
}

// Draws what the ends did.
fn draw(alloc: Global, done: &Transcript, drawing: &mut Drawing) -> Result<(), AllocError> {
    let mut lines = String::new(alloc);
    write_items(done.items.as_slice(), &mut lines)?;
    drawing.act(
        lines.as_str(),
        done.client_bytes.as_slice(),
        done.server_bytes.as_slice(),
    )
}

fn play(pair: &mut EpochPair, events: &[Event<'_>]) -> Result<Transcript, AllocError>
    requires { AreFilled (events_of events.now) }
{
    match pair.play(events) {
        Ok(transcript) => Ok(transcript),
        Err(Memory) => Err(AllocError),
    }
}
