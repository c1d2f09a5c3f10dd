//! What an end did in a turn.

ghost use Rattle.std.specs.Prelude.{◌≡◌, List, [], None, map, slice_index_or};
ghost use Rattle.ssh_model.specs.Protocol.Sessions.Items.{Item};
ghost use Rattle.ssh_end_machine.specs.Calls.{ShowsStep};
ghost use Rattle.ssh_end_machine.specs.Steps.{Shows, shown_by};
ghost use Rattle.ssh_end_machine.specs.WithChannels.{channels_with, last_channels};
ghost use Rattle.ssh_end_machine.specs.Turn.{TurnShows, channels_in, payloads_in};
ghost use Rattle.ssh_end_machine.specs.declared.step.Step.TheVariants as Step;

use crate::asking::AskStep;
use crate::end::End;
use crate::role::EndRole;
use crate::step::Step;
use crate::told::{Told, told_in};
use ssh_channels::ChannelEvent;
use ssh_message::{Message, decode};
use ssh_types::Refusal;
use std::fmt;

/// What was sent in the turn.
#[derive(Drop)]
pub struct SentInTurn {
    /// The payloads that were sent.
    pub payloads: Vec<Vec<u8>>,
    /// The channels of the last of the payloads, which were owed. Those before belong to no channel.
    pub numbers: Vec<Option<u32>>,
}

/// What an end did with bytes of its peer: with one line or one packet at most. Its texts are slices of that line, or of the payload of
/// that packet. `{:?}` shows numbers, names and lengths, and no text of the peer or of a user.
#[derive(Clone, Copy, Debug)]
pub struct Turn<'a> {
    /// How many of the bytes were used. The others are given again.
    pub used: usize,
    /// What was taken. `None` if no line or packet is whole yet, and if the peer was refused.
    pub took: Option<Took<'a>>,
    /// The payloads that were sent for it.
    pub sent: SentPayloads<'a>,
    /// What the user is told of it.
    pub told: Option<Told<'a>>,
    /// Why the peer was refused. The end is then over (RFC 4253 section 11.1).
    pub refused: Option<Refusal>,
}

/// What an end took in a turn. `{:?}` shows no text.
#[derive(Clone, Copy)]
pub enum Took<'a> {
    /// A line of the server before its version line (RFC 4253 section 4.2), here without CR LF.
    OtherLine {
        text: &'a [u8],
    },
    /// The version line (RFC 4253 section 4.2), here without CR LF.
    VersionLine {
        text: &'a [u8],
    },
    /// The packet after a wrong guess, which is not read (RFC 4253 section 7).
    Skipped {
        payload: &'a [u8],
    },
    /// A message: one of the transport (RFC 4253), of authentication (RFC 4252) or of the connection (RFC 4254).
    Message {
        /// The end's own number of its channel, if it belongs to one (RFC 4254 section 5).
        channel: Option<u32>,
        message: Message<'a>,
        /// The bytes of the message, as they were in its packet (RFC 4253 section 6).
        payload: &'a [u8],
    },
}

impl fmt::Debug for Took<'_> {
    ghost use Rattle.std.specs.Prelude.{Some};
    ghost use Rattle.ssh_end_machine.specs.Shown.{shown_took};

    ghost debug_output = { λ took. Some (shown_took took) };

    fn fmt<W: fmt::Write>(&self, f: &mut fmt::Formatter<W>) -> fmt::Result {
        match *self {
            Took::OtherLine { text } => write!(f, "OtherLine {{ {} bytes }}", text.len()),
            Took::VersionLine { text } => write!(f, "VersionLine {{ {} bytes }}", text.len()),
            Took::Skipped { payload } => write!(f, "Skipped {{ {} bytes }}", payload.len()),
            Took::Message {
                channel,
                message,
                payload,
            } => {
                let length = payload.len();
                write!(
                    f,
                    "Message {{ channel: {channel:?}, message: {message:?}, {length} bytes }}"
                )
            }
        }
    }
}

/// The payloads that an end sent in a turn, the oldest first (RFC 4253 section 6). Each is a whole message. `{:?}` shows how many they are.
#[derive(Clone, Copy)]
pub struct SentPayloads<'a> {
    payloads: &'a [Vec<u8>],
    // Of the last payloads; those before belong to no channel.
    channels: &'a [Option<u32>],
}

impl fmt::Debug for SentPayloads<'_> {
    ghost use Rattle.std.specs.Prelude.{Some, length};
    ghost use Rattle.ssh_end_machine.specs.Shown.{shown_sent};

    ghost debug_output = { λ sent. Some (shown_sent (length sent.payloads.now)) };

    fn fmt<W: fmt::Write>(&self, f: &mut fmt::Formatter<W>) -> fmt::Result {
        write!(f, "SentPayloads {{ {} payloads }}", self.payloads.len())
    }
}

impl<'a> SentPayloads<'a> {
    /// The payloads.
    pub fn payloads(&self) -> &'a [Vec<u8>]
        ensures { map (λ v. v.items) result.now ≡ payloads_in self.now }
    {
        self.payloads
    }

    /// The end's own number of the channel that the payload at this index belongs to (RFC 4254 section 5). `None` if it belongs to none, or
    /// there is no such payload. The call that returned the turn says which channels these are: those of the messages that were sent.
    pub fn channel(&self, index: usize) -> Option<u32>
        ensures { result ≡ slice_index_or (channels_in self.now) index None }
    {
        let before = self.payloads.len().saturating_sub(self.channels.len());
        let place = index.checked_sub(before)?;
        *self.channels.get(place)?
    }
}

/// The payloads that were sent. The last of them have the channels of the replies that were owed. If none was owed, the last one has this
/// single channel.
pub fn sent_payloads<'a>(
    payloads: &'a [Vec<u8>],
    single: &'a [Option<u32>],
    owed: &'a [Option<u32>],
) -> SentPayloads<'a>
    ensures payloads { result.payloads.now ≡ payloads.now }
    ensures channels { channels_in result ≡ channels_with (map (λ v. v.items) payloads.now) (last_channels single.now owed.now) }
{
    let channels: &[Option<u32>] = if payloads.is_empty() {
        &[]
    } else if owed.is_empty() {
        single
    } else {
        owed
    };
    SentPayloads { payloads, channels }
}

impl<R: EndRole> End<R> {
    /// What was done in the last call of `take_step` or `take`. Its texts are slices of the end's buffer. After `ask_step` or `ask` it
    /// shows the payload that was sent.
    pub fn last_turn(&self) -> Turn<'_>
        // What was taken, told and refused.
        ensures shows { (items : List Item) → Shows (shown_by self.now.step self.now.machine) self.now.step items → TurnShows result items }
        ensures more { self.now.step ≡ Step.More → TurnShows result [] }
        // How many bytes were used, and which payloads were sent on which channels.
        ensures used { result.used ≡ self.now.used }
        ensures sent { payloads_in result.sent ≡ self.now.sent }
        ensures channels { channels_in result.sent ≡ self.now.channels }
    {
        let shown = self.shown();
        let quiet = quiet_turn(self.used, self.sent_in_turn());
        match self.step {
            Step::More => quiet,
            Step::OtherLine => Turn {
                took: Some(Took::OtherLine { text: shown }),
                ..quiet
            },
            Step::VersionLine => Turn {
                took: Some(Took::VersionLine { text: shown }),
                ..quiet
            },
            Step::Skipped => Turn {
                took: Some(Took::Skipped { payload: shown }),
                told: Some(Told::Ignored),
                ..quiet
            },
            Step::Took(taken) => match decode(taken.probing, shown) {
                Ok(message) => Turn {
                    took: Some(Took::Message {
                        channel: taken.channel,
                        message,
                        payload: shown,
                    }),
                    told: told_in(taken.event_kind, &message, taken.channel),
                    ..quiet
                },
                Err(_) => quiet,
            },
            Step::Refused(why) => Turn {
                refused: Some(why),
                ..quiet
            },
        }
    }
}

/// What was done on an ask, with these payloads.
pub fn asked_turn<'a>(step: AskStep, sent: SentPayloads<'a>) -> Turn<'a>
    ensures { ShowsStep step (payloads_in sent.entry) (channels_in sent.entry) result }
{
    let told = match step.opening {
        None => None,
        Some(channel) => Some(Told::Channel(ChannelEvent::Opening { channel })),
    };
    Turn {
        used: 0,
        took: None,
        sent,
        told,
        refused: step.refused,
    }
}

// A turn in which nothing was taken.
fn quiet_turn<'a>(used: usize, sent: SentPayloads<'a>) -> Turn<'a>
    ensures shows { TurnShows result [] }
    ensures took { result.took ≡ None }
    ensures told { result.told ≡ None }
    ensures refused { result.refused ≡ None }
    ensures used { result.used ≡ used }
    ensures sent { result.sent ≡ sent.entry }
{
    Turn {
        used,
        took: None,
        sent,
        told: None,
        refused: None,
    }
}
