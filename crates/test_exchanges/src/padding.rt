//! A session of two ends in which the padding of each counts up, byte by byte.

use divrelca::{Ask, ChannelAsk, ClientEnd, End, Fault, ServerEnd, UserAsk};
use ssh_packet::{Filler, MacOnly};
use ssh_toys::lines::{Problem, text_of};
use ssh_toys::{
    CLIENT_COOKIE, CLIENT_SECRET, CREDENTIALS, SERVER_COOKIE, SERVER_SECRET, ToyAgreement,
    ToyJudge, ToySigner, ToyTrust, ToyUserSigner, config, settings,
};
use ssh_transport::{ClientPartValues, ClientParts, ServerPartValues, ServerParts};
use std::alloc::{AllocError, Global};

// Fills with the numbers from zero on, modulo 256.
#[derive(Drop)]
struct Counting {
    next: u8,
}

impl Filler for Counting {
    ghost use Rattle.std.specs.Prelude.{⊤};

    ghost gives = { λ _ _ _. ⊤ };

    fn fill(&mut self, out: &mut [u8]) {
        for byte in out.iter_mut() {
            *byte = self.next;
            self.next = self.next.wrapping_add(1);
        }
    }
}

struct CountingClient;

impl ClientParts for CountingClient {
    type Sealing = MacOnly;

    type Filler = Counting;

    type Agreement = ToyAgreement;

    type HostTrust = ToyTrust;
}

struct CountingServer;

impl ServerParts for CountingServer {
    type Sealing = MacOnly;

    type Filler = Counting;

    type Agreement = ToyAgreement;

    type HostSigner = ToySigner;
}

// Both ends, and the bytes of each, of which the other took as many as its number says.
#[derive(Drop)]
struct Session {
    client: ClientEnd<CountingClient, ToyUserSigner>,
    server: ServerEnd<CountingServer, ToyJudge<'static>>,
    from_client: Vec<u8>,
    from_server: Vec<u8>,
    taken_by_client: usize,
    taken_by_server: usize,
}

impl Session {
    fn new(alloc: Global) -> Result<Session, AllocError> {
        let mut from_client = Vec::new(alloc);
        let mut from_server = Vec::new(alloc);
        let client = client(alloc, &mut from_client)?;
        let server = server(alloc, &mut from_server)?;
        Ok(Session {
            client,
            server,
            from_client,
            from_server,
            taken_by_client: 0,
            taken_by_server: 0,
        })
    }

    // What `{:?}` shows of the server's turn that takes what the client put out last.
    fn next_debugged(&mut self, alloc: Global) -> Result<String, Problem> {
        let taken = self.taken_by_server;
        debugged(
            alloc,
            &mut self.server,
            &self.from_client,
            taken,
            &mut self.from_server,
        )
    }

    // All that each put out reaches the other, as often as answers take.
    fn pass(&mut self) -> Result<(), Fault> {
        for _ in 0..8 {
            let taken = self.taken_by_server;
            let used = deliver(
                &mut self.server,
                &self.from_client,
                taken,
                &mut self.from_server,
            )?;
            self.taken_by_server = taken.saturating_add(used);
            let taken = self.taken_by_client;
            let used = deliver(
                &mut self.client,
                &self.from_server,
                taken,
                &mut self.from_client,
            )?;
            self.taken_by_client = taken.saturating_add(used);
        }
        Ok(())
    }

    // The client is asked for this, and both take all that comes of it.
    fn ask(&mut self, ask: &Ask<'_>) -> Result<(), Fault> {
        self.client.ask(ask, &mut self.from_client)?;
        self.pass()
    }

    // An exchange of keys, a user who is let in, a channel that is asked for, a second exchange, and a global request.
    fn play(&mut self) -> Result<(), Fault> {
        self.pass()?;
        self.ask(&Ask::Service)?;
        self.ask(&Ask::User(UserAsk::Password {
            user: b"u",
            password: b"p",
        }))?;
        self.ask(&Ask::Connection(ChannelAsk::Open {
            kind: b"session",
            window: 32_768,
            max_packet: 32_768,
            rest: b"",
        }))?;
        self.client.feed_material([7; 16], [8; 32]);
        self.server.feed_material([9; 16], [10; 32]);
        self.ask(&Ask::Rekey)?;
        self.ask(&Ask::Connection(ChannelAsk::Global {
            name: b"keepalive",
            want: false,
            rest: b"",
        }))
    }
}

impl Session {
    // The first exchange, the service, and a request with the password, which the server is still to take.
    fn ask_for_the_user(&mut self) -> Result<(), Fault> {
        self.pass()?;
        self.ask(&Ask::Service)?;
        let password = UserAsk::Password {
            user: b"u",
            password: b"p",
        };
        self.client
            .ask(&Ask::User(password), &mut self.from_client)?;
        Ok(())
    }
}

/// What `{:?}` shows of the turn in which a server takes a password.
///
/// # Errors
///
/// Only if memory is refused.
pub fn login_debugged(alloc: Global) -> Result<String, Problem> {
    let mut session = Session::new(alloc)?;
    if session.ask_for_the_user().is_err() {
        return text_of(alloc, "an end was over");
    }
    session.next_debugged(alloc)
}

// What `{:?}` shows of the turn that takes the bytes after so many.
fn debugged<E: End>(
    alloc: Global,
    end: &mut E,
    bytes: &Vec<u8>,
    taken: usize,
    out: &mut Vec<u8>,
) -> Result<String, Problem> {
    match end.take(bytes.get(taken..).unwrap_or(&[]), out) {
        Ok(turn) => Ok(format!(in alloc; "{turn:?}")?),
        Err(_) => text_of(alloc, "an end was over"),
    }
}

// How many of the bytes after so many the end used.
fn deliver<E: End>(
    end: &mut E,
    bytes: &Vec<u8>,
    taken: usize,
    out: &mut Vec<u8>,
) -> Result<usize, Fault> {
    let turn = end.take(bytes.get(taken..).unwrap_or(&[]), out)?;
    Ok(turn.used)
}

fn client(
    alloc: Global,
    out: &mut Vec<u8>,
) -> Result<ClientEnd<CountingClient, ToyUserSigner>, AllocError> {
    let parts = ClientPartValues {
        filler: Counting { next: 0 },
        agreement: ToyAgreement,
        host_trust: ToyTrust,
    };
    let config = config(alloc, &settings(b"c"))?;
    ClientEnd::new(
        alloc,
        config,
        parts,
        ToyUserSigner,
        CLIENT_COOKIE,
        CLIENT_SECRET,
        out,
    )
}

fn server(
    alloc: Global,
    out: &mut Vec<u8>,
) -> Result<ServerEnd<CountingServer, ToyJudge<'static>>, AllocError> {
    let parts = ServerPartValues {
        filler: Counting { next: 0 },
        agreement: ToyAgreement,
        host_signer: ToySigner,
    };
    let config = config(alloc, &settings(b"s"))?;
    let judge = ToyJudge {
        credentials: CREDENTIALS,
    };
    ServerEnd::new(
        alloc,
        config,
        parts,
        judge,
        SERVER_COOKIE,
        SERVER_SECRET,
        out,
    )
}

/// How many packets of a client and of a server have the padding that their fillers gave, in a session with a user, a channel and two
/// exchanges of keys.
///
/// # Errors
///
/// Only if memory is refused.
pub fn packets_counting_up(alloc: Global) -> Result<String, Problem> {
    let mut session = Session::new(alloc)?;
    if session.play().is_err() {
        return text_of(alloc, "an end was over");
    }
    let of_client = counting_up(&session.from_client);
    let of_server = counting_up(&session.from_server);
    Ok(format!(in alloc; "{of_client:?} {of_server:?}")?)
}

// How many packets come after a line of 11 bytes, where the bytes of their padding count up from zero, and nothing else comes.
fn counting_up(stream: &[u8]) -> Option<usize> {
    let mut rest = stream.get(11..)?;
    let mut next = 0u8;
    let mut tag = 0;
    for packets in 0..40 {
        if rest.is_empty() {
            return Some(packets);
        }
        let (length, body) = rest.split_first_chunk::<4>()?;
        let size = u32::from_be_bytes(*length) as usize;
        let packet = body.get(..size)?;
        let padding = usize::from(*packet.first()?);
        for byte in packet.get(size.checked_sub(padding)?..)? {
            if *byte != next {
                return None;
            }
            next = next.wrapping_add(1);
        }
        rest = body.get(size..)?.get(tag..)?;
        if packet.get(1) == Some(&21) {
            tag = 32;
        }
    }
    None
}
