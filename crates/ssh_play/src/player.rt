//! Runs the lines of a script against its two ends.

ghost use Rattle.std.specs.Prelude.{◌≡◌, false, replicate};
ghost use Rattle.ssh_end.specs.TwoEnds.Playing.{PairFeeds};

use crate::alteration::Alteration;
use crate::draw::Drawing;
use crate::standard::{Standard, ToyPair};
use crate::watching::{lines_of, origin_of};
use ssh_end::{ClientRole, Done, EndRole, Event, ServerRole, Transcript};
use ssh_script::{Delivery, Network, Parcel, RunFault, ScriptFault, Shortage, Step};
use ssh_toys::{ToyClient, ToyJudge, ToyServer, ToyUserSigner};
use ssh_types::Side;
use std::alloc::{AllocError, Global};

/// The two ends, and the network between them.
#[derive(Drop)]
pub(crate) struct Player<'a> {
    alloc: Global,
    pair: ToyPair<'a>,
    network: Network,
    alteration: Option<Alteration>,
}

impl<'a> Player<'a> {
    /// Two ends that opened, and the items of their openings.
    ///
    /// # Errors
    ///
    /// Only if memory is refused.
    pub fn open(
        alloc: Global,
        standard: &'a Standard<'_>,
        shortage: Shortage,
        alteration: Option<Alteration>,
    ) -> Result<(Player<'a>, Vec<Done>), ScriptFault> {
        let (pair, opening) = standard.open(alloc)?;
        let mut player = Player {
            alloc,
            pair,
            network: Network::new(alloc, shortage),
            alteration,
        };
        let items = player.put_out(opening)?;
        Ok((player, items))
    }

    /// All bytes that a side put out.
    pub fn whole(&self, side: Side) -> &[u8] {
        self.network.whole(side)
    }

    /// Runs one line, and answers the items of the ends.
    ///
    /// # Errors
    ///
    /// `NotFed` if an end answered false to a pair of cookie and secret. `FewWaiting` and `NotPutOut` only if a shortage is
    /// refused.
    pub fn run(&mut self, step: &Step) -> Result<Vec<Done>, RunFault> {
        match step {
            Step::Feed { side, byte } => self.feed(*side, *byte),
            Step::Ask { side, ask } => self.play(&[Event::Ask(*side, ask.to_ask())]),
            Step::Network(delivery) => self.deliver(delivery),
        }
    }

    /// Runs one line as `run` does, and draws its events.
    ///
    /// # Errors
    ///
    /// Those of `run`.
    pub fn watch(&mut self, step: &Step, drawing: &mut Drawing) -> Result<(), RunFault> {
        match step {
            Step::Feed { side, byte } => {
                self.feed(*side, *byte)?;
            }
            Step::Ask { side, ask } => {
                let done = self.pair.play(&[Event::Ask(*side, ask.to_ask())])?;
                let lines = lines_of(self.alloc, done.items.as_slice())?;
                drawing.act(
                    lines.as_str(),
                    done.client_bytes.as_slice(),
                    done.server_bytes.as_slice(),
                )?;
                self.put_out(done)?;
            }
            Step::Network(delivery) => {
                if let Delivery::Lose { from, count } = delivery {
                    drawing.lose(*from, *count as usize)?;
                }
                if let Some(parcel) = self.network.deliver(delivery)? {
                    let done = watched_bytes(
                        self.alloc,
                        &mut self.pair,
                        delivery,
                        &parcel,
                        drawing,
                    )?;
                    self.put_out(done)?;
                }
            }
        }
        Ok(())
    }

    fn feed(&mut self, side: Side, byte: u8) -> Result<Vec<Done>, RunFault> {
        if !feed_end(&mut self.pair, side, byte) {
            return Err(RunFault::NotFed);
        }
        Ok(Vec::new(self.alloc))
    }

    fn deliver(&mut self, delivery: &Delivery) -> Result<Vec<Done>, RunFault> {
        let Some(parcel) = self.network.deliver(delivery)? else {
            return Ok(Vec::new(self.alloc));
        };
        let altered = match &self.alteration {
            Some(alteration) => alteration.altered(self.alloc, &parcel)?,
            None => None,
        };
        let parcel = match &altered {
            Some(bytes) => Parcel {
                bytes: bytes.as_slice(),
                ..parcel
            },
            None => parcel,
        };
        let transcript = deliver_pieces(self.alloc, &mut self.pair, &parcel)?;
        let items = self.put_out(transcript)?;
        Ok(items)
    }

    fn play(&mut self, events: &[Event<'_>]) -> Result<Vec<Done>, RunFault> {
        let transcript = self.pair.play(events)?;
        let items = self.put_out(transcript)?;
        Ok(items)
    }

    // What the ends put out waits from now on.
    fn put_out(&mut self, transcript: Transcript) -> Result<Vec<Done>, AllocError> {
        self.network
            .put_out(Side::Client, transcript.client_bytes.as_slice())?;
        self.network
            .put_out(Side::Server, transcript.server_bytes.as_slice())?;
        Ok(transcript.items)
    }
}

// Feeds an end with a cookie and a secret, each byte of them this one.
fn feed_end<'a>(pair: &mut ToyPair<'a>, side: Side, byte: u8) -> bool
    ensures { pair.old.failed ≡ false → PairFeeds ⟦<ClientRole<ToyClient, ToyUserSigner> as EndRole>⟧
        ⟦<ServerRole<ToyServer, ToyJudge<'a>> as EndRole>⟧ pair.old side
        (record { cookie = replicate 16 byte; secret = replicate 32 byte }) result pair.new }
{
    pair.feed(side, [byte; 16], [byte; 32])
}

fn deliver_pieces(
    alloc: Global,
    pair: &mut ToyPair<'_>,
    parcel: &Parcel<'_>,
) -> Result<Transcript, AllocError> {
    let mut events = Vec::new(alloc);
    for piece in parcel.pieces() {
        events.push(Event::Deliver(parcel.to, piece))?;
    }
    pair.play(events.as_slice())
}

// Delivers the bytes of a parcel one by one.
fn watched_bytes(
    alloc: Global,
    pair: &mut ToyPair<'_>,
    delivery: &Delivery,
    parcel: &Parcel<'_>,
    drawing: &mut Drawing,
) -> Result<Transcript, AllocError> {
    let mut all = Transcript {
        items: Vec::new(alloc),
        client_bytes: Vec::new(alloc),
        server_bytes: Vec::new(alloc),
    };
    for (index, piece) in parcel.bytes.chunks(1).enumerate() {
        drawing.come(parcel.to, origin_of(delivery, index), piece)?;
        let mut done = pair.play(&[Event::Deliver(parcel.to, piece)])?;
        if !done.items.is_empty() {
            let lines = lines_of(alloc, done.items.as_slice())?;
            drawing.act(
                lines.as_str(),
                done.client_bytes.as_slice(),
                done.server_bytes.as_slice(),
            )?;
        }
        all.client_bytes.append(&mut done.client_bytes)?;
        all.server_bytes.append(&mut done.server_bytes)?;
    }
    Ok(all)
}
