//! An ask as a flat record, which crosses to other languages and can be kept.

ghost use Rattle.std.specs.Prelude.{◌≡◌, IfErr, IfOk, None, Some};
ghost use Rattle.ssh_auth.specs.Asking.{ask_of as user_ask_of};
ghost use Rattle.ssh_channels.specs.Values.{ask_of as channel_ask_of};
ghost use Rattle.divrelca_c.specs.Embedded.Forms.{by_key, fault_of, flowing_by, form_asks, login_by, opening_by, requesting_by};
ghost use Rattle.ssh_end_machine.specs.Asking.{ask_of};

use ssh_auth::UserAsk;
use ssh_channels::Ask as ChannelAsk;
use ssh_end::Ask;

/// An ask of an end: `kind` says which, and which of the other fields are read.
///
/// | `kind` | ask | fields |
/// |---|---|---|
/// | 1 | an exchange of keys | |
/// | 2 | the end of the connection | `text`: a description |
/// | 3 | the service of authentication | |
/// | 4, 5 | a login by no method, by a password | `name`: the user; `text`: the password |
/// | 6, 7 | a probe of a key, a login by it | `name`: the user; `algorithm`, `text`: the key; the user's own where `algorithm` is empty |
/// | 8 | a channel | `name`: its type; `window`, `max_packet`, `text` |
/// | 9, 10 | a channel that the peer opened is confirmed, is refused | `channel`; `window`, `max_packet`, `text`; `number`: the reason |
/// | 11, 12 | data, extended data | `channel`, `text`; `number`: its kind |
/// | 13 | the peer may send more | `channel`; `number`: bytes |
/// | 14, 15 | no more data is sent, the channel is closed | `channel` |
/// | 16, 17 | a request on a channel, a reply to one | `channel`, `flag`; `name`, `text` |
/// | 18, 19 | a global request, a reply to one | `flag`, `text`; `name` |
#[repr(C)]
#[derive(Clone, Copy, Drop)]
pub struct AskForm<'a> {
    pub kind: u32,
    pub channel: u32,
    pub window: u32,
    pub max_packet: u32,
    pub number: u32,
    pub flag: bool,
    pub name: &'a [u8],
    pub text: &'a [u8],
    pub algorithm: &'a [u8],
}

/// Why a form is no ask.
#[derive(Clone, Copy)]
pub enum FormFault {
    /// No ask has this kind.
    Kind,
    /// The user has no key.
    Key,
}

impl AskForm<'_> {
    /// The ask, of an end whose user has this key, as it goes over the wire.
    ///
    /// # Errors
    ///
    /// - `Kind`: the kind is outside 1 to 19.
    /// - `Key`: it asks for the user's own key, and there is none.
    pub fn ask<'k>(&'k self, key: &'k Option<[u8; 51]>) -> Result<Ask<'k>, FormFault>
        ensures asks { IfOk result (λ ask. form_asks self.now key.now ≡ Some (ask_of ask)) }
        ensures none { IfErr result (λ _. form_asks self.now key.now ≡ None) }
        ensures why { IfErr result (λ why. why ≡ fault_of self.now) }
    {
        if self.kind == 1 {
            Ok(Ask::Rekey)
        } else if self.kind == 2 {
            Ok(Ask::Disconnect(self.text))
        } else if self.kind == 3 {
            Ok(Ask::Service)
        } else if 4 <= self.kind && self.kind <= 7 {
            self.login(key)
        } else if 8 <= self.kind && self.kind <= 10 {
            Ok(Ask::Connection(self.opening()))
        } else if 11 <= self.kind && self.kind <= 15 {
            Ok(Ask::Connection(self.flowing()))
        } else if 16 <= self.kind && self.kind <= 19 {
            Ok(Ask::Connection(self.requesting()))
        } else {
            Err(FormFault::Kind)
        }
    }

    // A login.
    fn login<'k>(&'k self, key: &'k Option<[u8; 51]>) -> Result<Ask<'k>, FormFault>
        ensures asks { IfOk result (λ ask. login_by self.now key.now ≡ Some (ask_of ask)) }
        ensures none { IfErr result (λ _. login_by self.now key.now ≡ None) }
        ensures why { IfErr result (λ why. why ≡ FormFault.Key) }
    {
        let user = self.name;
        if self.kind == 4 {
            return Ok(Ask::User(UserAsk::None { user }));
        }
        if self.kind == 5 {
            return Ok(Ask::User(UserAsk::Password {
                user,
                password: self.text,
            }));
        }
        if !self.algorithm.is_empty() {
            return Ok(Ask::User(self.by_key(self.algorithm, self.text)));
        }
        match key {
            Some(key) => Ok(Ask::User(self.by_key(b"ssh-ed25519", key))),
            None => Err(FormFault::Key),
        }
    }

    // A login by this key, or a probe of it.
    fn by_key<'k>(&'k self, algorithm: &'k [u8], key: &'k [u8]) -> UserAsk<'k>
        ensures { user_ask_of result ≡ by_key self.now algorithm.now key.now }
    {
        let user = self.name;
        if self.kind == 6 {
            UserAsk::Probe {
                user,
                algorithm,
                key,
            }
        } else {
            UserAsk::Sign {
                user,
                algorithm,
                key,
            }
        }
    }

    // A channel is opened, confirmed or refused.
    fn opening(&self) -> ChannelAsk<'_>
        ensures { channel_ask_of result ≡ opening_by self.now }
    {
        if self.kind == 8 {
            ChannelAsk::Open {
                kind: self.name,
                window: self.window,
                max_packet: self.max_packet,
                rest: self.text,
            }
        } else if self.kind == 9 {
            ChannelAsk::Confirm {
                channel: self.channel,
                window: self.window,
                max_packet: self.max_packet,
                rest: self.text,
            }
        } else {
            ChannelAsk::Refuse {
                channel: self.channel,
                reason: self.number,
            }
        }
    }

    // Data, and what ends them.
    fn flowing(&self) -> ChannelAsk<'_>
        ensures { channel_ask_of result ≡ flowing_by self.now }
    {
        let channel = self.channel;
        if self.kind == 11 {
            ChannelAsk::Data {
                channel,
                kind: None,
                body: self.text,
            }
        } else if self.kind == 12 {
            ChannelAsk::Data {
                channel,
                kind: Some(self.number),
                body: self.text,
            }
        } else if self.kind == 13 {
            ChannelAsk::Adjust {
                channel,
                bytes: self.number,
            }
        } else if self.kind == 14 {
            ChannelAsk::Eof { channel }
        } else {
            ChannelAsk::Close { channel }
        }
    }

    // Requests, and replies to them.
    fn requesting(&self) -> ChannelAsk<'_>
        ensures { channel_ask_of result ≡ requesting_by self.now }
    {
        if self.kind == 16 {
            ChannelAsk::Request {
                channel: self.channel,
                name: self.name,
                want: self.flag,
                rest: self.text,
            }
        } else if self.kind == 17 {
            ChannelAsk::Reply {
                channel: self.channel,
                success: self.flag,
            }
        } else if self.kind == 18 {
            ChannelAsk::Global {
                name: self.name,
                want: self.flag,
                rest: self.text,
            }
        } else {
            ChannelAsk::GlobalReply {
                success: self.flag,
                rest: self.text,
            }
        }
    }
}
