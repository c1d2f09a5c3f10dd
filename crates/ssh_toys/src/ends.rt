//! Both ends, and the bytes on their way between them.

ghost use Rattle.std.specs.Prelude.{◌≡◌, ◌≤◌, IfOk, List, OnErr, OnOk, [], length};
ghost use Rattle.ssh_end_machine.specs.Steps.{Shows, shown_by};
ghost use Rattle.ssh_end_machine.specs.Turn.{TurnShows, channels_in, payloads_in};
ghost use Rattle.ssh_end_machine.specs.declared.step.Step.{Step};
ghost use Rattle.ssh_model.specs.Protocol.Sessions.Items.{Item};
ghost use Rattle.ssh_model.specs.Protocol.Side.{peer};
ghost use Rattle.ssh_model.specs.declared.side.Side.TheVariants as sides;
ghost use Rattle.ssh_toys.specs.Ends.{channels_of, machine_of, sent_of, step_of, used_of};
ghost use Rattle.ssh_toys.specs.Pairs.{IsNewEnd, SameOther, end_of, out_of};

use crate::end::ToyEnd;
use ssh_auth::UserAsk;
use ssh_channels::Ask as ChannelAsk;
use ssh_end::{Ask, Fault, Turn};
use ssh_types::Side;
use std::alloc::{AllocError, Global};

// How the user u is let in.
const USER: UserAsk<'static> = UserAsk::Sign {
    user: b"u",
    algorithm: b"toy@example.com",
    key: b"k",
};

/// A client and a server, and the bytes that each put out and the other hasn't taken.
#[derive(Drop)]
pub struct ToyEnds {
    client: ToyEnd,
    server: ToyEnd,
    from_client: Vec<u8>,
    from_server: Vec<u8>,
}

impl ToyEnds {
    /// Both ends, which have put out their lines and KEXINITs.
    ///
    /// # Errors
    ///
    /// Only if memory is refused.
    pub fn new(alloc: Global) -> Result<ToyEnds, AllocError>
        ensures client { IfOk result (λ made. IsNewEnd sides.Client made.client made.from_client.items) }
        ensures server { IfOk result (λ made. IsNewEnd sides.Server made.server made.from_server.items) }
    {
        let mut from_client = Vec::new(alloc);
        let mut from_server = Vec::new(alloc);
        let client = ToyEnd::new(alloc, Side::Client, &mut from_client)?;
        let server = ToyEnd::new(alloc, Side::Server, &mut from_server)?;
        Ok(ToyEnds {
            client,
            server,
            from_client,
            from_server,
        })
    }

    /// The first exchange of keys, the user let in, and the channel 0 with windows of 2^32 - 1 bytes.
    ///
    /// # Errors
    ///
    /// The first fault of an end.
    pub fn begin(&mut self) -> Result<(), Fault> {
        self.pass()?;
        self.pass()?;
        self.ask(Side::Client, &Ask::Service)?;
        self.pass()?;
        self.ask(Side::Client, &Ask::User(USER))?;
        self.pass()?;
        self.ask(
            Side::Client,
            &Ask::Connection(ChannelAsk::Open {
                kind: b"session",
                window: u32::MAX,
                max_packet: 32_768,
                rest: b"",
            }),
        )?;
        self.pass()?;
        self.ask(
            Side::Server,
            &Ask::Connection(ChannelAsk::Confirm {
                channel: 0,
                window: u32::MAX,
                max_packet: 32_768,
                rest: b"",
            }),
        )?;
        self.pass()
    }

    /// An end is asked for something.
    ///
    /// # Errors
    ///
    /// The first fault of an end.
    pub fn ask(&mut self, side: Side, ask: &Ask<'_>) -> Result<(), Fault>
        ensures other { SameOther side self.old self.new }
        ensures unput { out_of (peer side) self.new ≡ out_of (peer side) self.old }
        ensures out { OnErr result (out_of side self.new ≡ out_of side self.old) }
    {
        match side {
            Side::Client => {
                self.client.ask(ask, &mut self.from_client)?;
            }
            Side::Server => {
                self.server.ask(ask, &mut self.from_server)?;
            }
        }
        Ok(())
    }

    /// An end sends data on the channel 0.
    ///
    /// # Errors
    ///
    /// The first fault of an end.
    pub fn send(&mut self, from: Side, body: &[u8]) -> Result<(), Fault>
        ensures other { SameOther from self.old self.new }
        ensures unput { out_of (peer from) self.new ≡ out_of (peer from) self.old }
        ensures out { OnErr result (out_of from self.new ≡ out_of from self.old) }
    {
        let data = ChannelAsk::Data {
            channel: 0,
            kind: None,
            body,
        };
        self.ask(from, &Ask::Connection(data))
    }

    /// Lets the server take all that the client put out, and then the client all that the server put out.
    ///
    /// # Errors
    ///
    /// The first fault of an end.
    pub fn pass(&mut self) -> Result<(), Fault>
        ensures { OnOk result (out_of sides.Server self.new ≡ []) }
    {
        self.take(Side::Server)?;
        self.take(Side::Client)?;
        Ok(())
    }

    /// An end takes all that the other put out, and answers how many lines and packets it was.
    ///
    /// # Errors
    ///
    /// The first fault of an end.
    pub fn take(&mut self, side: Side) -> Result<usize, Fault>
        ensures taken { OnOk result (out_of (peer side) self.new ≡ []) }
        ensures other { SameOther side self.old self.new }
        ensures kept { OnErr result (out_of (peer side) self.new ≡ out_of (peer side) self.old) }
    {
        match side {
            Side::Client => take_all(
                &mut self.client,
                &mut self.from_server,
                &mut self.from_client,
            ),
            Side::Server => take_all(
                &mut self.server,
                &mut self.from_client,
                &mut self.from_server,
            ),
        }
    }

    /// The session id of an end.
    pub fn session_id(&self, side: Side) -> Option<[u8; 32]>
        ensures { result ≡ (machine_of (end_of side self.now)).kept.session }
    {
        match side {
            Side::Client => self.client.session_id(),
            Side::Server => self.server.session_id(),
        }
    }

    /// The turn of an end in its last call.
    pub fn last_turn(&self, side: Side) -> Turn<'_>
        ensures shows { let end = end_of side self.now in (items : List Item) →
            Shows (shown_by (step_of end) (machine_of end)) (step_of end) items → TurnShows result items }
        ensures more { step_of (end_of side self.now) ≡ Step.More → TurnShows result [] }
        ensures used { result.used ≡ used_of (end_of side self.now) }
        ensures sent { payloads_in result.sent ≡ sent_of (end_of side self.now) }
        ensures channels { channels_in result.sent ≡ channels_of (end_of side self.now) }
    {
        match side {
            Side::Client => self.client.last_turn(),
            Side::Server => self.server.last_turn(),
        }
    }
}

// An end takes these bytes, line by line and packet by packet, and appends what it sends for them to `out`.
fn take_all(end: &mut ToyEnd, bytes: &mut Vec<u8>, out: &mut Vec<u8>) -> Result<usize, Fault>
    ensures taken { OnOk result (bytes.new.items ≡ []) }
    ensures kept { OnErr result (bytes.new.items ≡ bytes.old.items) }
{
    let mut rest = bytes.as_slice();
    let mut count = 0;
    for _ in 0..bytes.len() {
        if rest.is_empty() {
            break;
        }
        let used = take_one(end, rest, out)?;
        rest = rest.split_at(used).1;
        count = usize::saturating_add(count, 1);
    }
    bytes.clear();
    Ok(count)
}

// An end takes one line or packet of these bytes, and answers how many it used.
fn take_one(end: &mut ToyEnd, bytes: &[u8], out: &mut Vec<u8>) -> Result<usize, Fault>
    ensures { IfOk result (λ used. used ≤ length bytes.now) }
{
    match end {
        ToyEnd::Client(end) => Ok(end.take(bytes, out)?.used),
        ToyEnd::Server(end) => Ok(end.take(bytes, out)?.used),
    }
}
