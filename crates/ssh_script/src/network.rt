//! The network between the two sides.

ghost use Rattle.std.specs.Prelude.{◌≡◌, ◌++◌, [], IfOk, OnOk, OnErr};
ghost use Rattle.ssh_script.specs.Network.{Delivers, IsAgain, IsNext, passed_of, shortage_of, whole_of};
ghost use Rattle.ssh_model.specs.declared.side.Side.TheVariants.{Client, Server};

use crate::delivery::{Count, Delivery};
use crate::parcel::{Cut, Origin, Parcel};
use crate::script_fault::RunFault;
use crate::shortage::Shortage;
use crate::stream::Stream;
use ssh_types::Side;
use std::alloc::{AllocError, Global};

/// All bytes that each side put out, of which some still wait.
#[derive(Drop)]
pub struct Network {
    client: Stream,
    server: Stream,
    shortage: Shortage,
}

impl Network {
    /// A network in which nothing was put out.
    pub fn new(alloc: Global, shortage: Shortage) -> Network
        ensures client { (whole_of result Client ≡ []) × (passed_of result Client ≡ 0) }
        ensures server { (whole_of result Server ≡ []) × (passed_of result Server ≡ 0) }
        ensures shortage { shortage_of result ≡ shortage }
    {
        Network {
            client: Stream::new(alloc),
            server: Stream::new(alloc),
            shortage,
        }
    }

    /// All bytes that a side put out.
    pub fn whole(&self, side: Side) -> &[u8]
        ensures { result.now ≡ whole_of self.now side }
    {
        match side {
            Side::Client => self.client.whole(),
            Side::Server => self.server.whole(),
        }
    }

    /// Adds bytes that a side put out, and which wait then.
    ///
    /// # Errors
    ///
    /// Only if memory is refused: nothing is added.
    pub fn put_out(&mut self, side: Side, bytes: &[u8]) -> Result<(), AllocError>
        ensures bytes { OnOk result (whole_of self.new side ≡ whole_of self.old side ++ bytes.now) }
        ensures client { side ≡ Server → self.new.client ≡ self.old.client }
        ensures server { side ≡ Client → self.new.server ≡ self.old.server }
        ensures passed { passed_of self.new side ≡ passed_of self.old side }
        ensures shortage { shortage_of self.new ≡ shortage_of self.old }
    {
        match side {
            Side::Client => self.client.put_out(bytes),
            Side::Server => self.server.put_out(bytes),
        }
    }

    /// The bytes that a line delivers. None if it drops bytes. The bytes wait no longer. On `Err` all is as before.
    ///
    /// # Errors
    ///
    /// `FewWaiting` and `NotPutOut` if there are fewer bytes than the line wants and a shortage is `Refused`.
    pub fn deliver<'a>(&'a mut self, delivery: &'a Delivery) -> Result<Option<Parcel<'a>>, RunFault>
        ensures delivered { IfOk result (Delivers self.old delivery.now) }
        ensures short { OnErr result (shortage_of self.old ≡ Shortage.Refused) }
    {
        let parcel = match delivery {
            Delivery::Pass { from, count } => self.next(*from, *count, Cut::Whole)?,
            Delivery::Drip { from } => self.next(*from, Count::All, Cut::Bytes)?,
            Delivery::Lose { from, count } => {
                self.next(*from, Count::Next(*count), Cut::Whole)?;
                return Ok(None);
            }
            Delivery::Give { side, bytes } => Parcel {
                to: *side,
                bytes: bytes.as_slice(),
                origin: Origin::Script,
                cut: Cut::Whole,
            },
            Delivery::Again { from, start, count } => self.again(*from, *start, *count)?,
        };
        Ok(Some(parcel))
    }

    // The next waiting bytes of a side.
    fn next(&mut self, from: Side, count: Count, cut: Cut) -> Result<Parcel<'_>, RunFault>
        ensures next { IfOk result (IsNext self.old from count cut) }
        ensures short { OnErr result (shortage_of self.old ≡ Shortage.Refused) }
    {
        let shortage = self.shortage;
        let stream = match from {
            Side::Client => &mut self.client,
            Side::Server => &mut self.server,
        };
        let start = stream.passed();
        stream.pass(count, shortage)?;
        Ok(Parcel {
            to: from.peer(),
            bytes: stream.passed_from(start),
            origin: Origin::PutOut { start },
            cut,
        })
    }

    // Bytes that a side put out before.
    fn again(&self, from: Side, start: u32, count: u32) -> Result<Parcel<'_>, RunFault>
        ensures again { IfOk result (IsAgain self.now from start count) }
        ensures short { OnErr result (shortage_of self.now ≡ Shortage.Refused) }
    {
        let stream = match from {
            Side::Client => &self.client,
            Side::Server => &self.server,
        };
        let (start, count) = (start as usize, count as usize);
        Ok(Parcel {
            to: from.peer(),
            bytes: stream.part(start, count, self.shortage)?,
            origin: Origin::PutOut { start },
            cut: Cut::Whole,
        })
    }
}
