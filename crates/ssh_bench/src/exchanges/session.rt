ghost use Rattle.std.specs.Prelude.{◌≤◌, length};
ghost use Rattle.ssh_model.specs.Protocol.Bounds.{largest_data};

use ssh_message::Message;
use ssh_toys::{
    CLIENT_COOKIE, CLIENT_SECRET, SERVER_COOKIE, SERVER_SECRET, ToyClient, ToyServer, client_parts,
    config, server_parts, settings,
};
use ssh_transport::{ClientTransport, ServerTransport, TransportAsk, TransportFault};
use std::alloc::{AllocError, Global};

// How many lines and packets a turn has at most.
const MOST_UNITS: usize = 4;

/// A client and a server, and the bytes on the way between them.
pub struct Session {
    client: ClientTransport<ToyClient>,
    server: ServerTransport<ToyServer>,
    from_client: Vec<u8>,
    from_server: Vec<u8>,
    sent: Vec<Vec<u8>>,
}

impl Drop for Session {
    fn drop(self) {
        let Session {
            client: _,
            server: _,
            from_client: _,
            from_server: _,
            sent: _,
        } = self;
    }
}

impl Session {
    /// Both ends, which have put out their lines and KEXINITs.
    ///
    /// # Errors
    ///
    /// Only if memory is refused.
    pub fn new(alloc: Global) -> Result<Session, AllocError> {
        let mut from_client = Vec::new(alloc);
        let mut from_server = Vec::new(alloc);
        let mut sent = Vec::new(alloc);
        let client = ClientTransport::new(
            alloc,
            config(alloc, &settings(b"c"))?,
            client_parts(),
            CLIENT_COOKIE,
            CLIENT_SECRET,
            &mut from_client,
            &mut sent,
        )?;
        let server = ServerTransport::new(
            alloc,
            config(alloc, &settings(b"s"))?,
            server_parts(),
            SERVER_COOKIE,
            SERVER_SECRET,
            &mut from_server,
            &mut sent,
        )?;
        Ok(Session {
            client,
            server,
            from_client,
            from_server,
            sent,
        })
    }

    /// The exchange that both have begun, to its end.
    ///
    /// # Errors
    ///
    /// Those of `take`: here only if memory is refused.
    pub fn exchange(&mut self) -> Result<(), TransportFault> {
        self.server_takes()?;
        self.client_takes()?;
        self.server_takes()?;
        self.client_takes()?;
        self.server_takes()
    }

    /// The user is authenticated.
    pub fn authenticate(&mut self) {
        self.client.authenticated();
        self.server.authenticated();
    }

    /// One more exchange, begun by the client.
    ///
    /// # Errors
    ///
    /// Those of `ask` and `take`: here only if memory is refused.
    pub fn rekey(&mut self) -> Result<(), TransportFault> {
        self.client.feed_material([0xa2; 16], [0xa2; 32]);
        self.server.feed_material([0xb2; 16], [0xb2; 32]);
        self.client
            .ask(TransportAsk::Rekey, &mut self.from_client, &mut self.sent)?;
        self.exchange()?;
        self.sent.clear();
        Ok(())
    }

    /// The client sends data, and the server takes it.
    ///
    /// # Errors
    ///
    /// Those of `send` and `take`, and `Dead` if the client can't send the data: here only if memory is refused.
    pub fn data(&mut self, body: &[u8]) -> Result<(), TransportFault>
        requires { length body.now ≤ largest_data }
    {
        let message = Message::ChannelData { recipient: 0, body };
        let payload = self.client.encode_payload(&message)?;
        if !self.client.can_send(payload.as_slice()) {
            return Err(TransportFault::Dead);
        }
        self.client
            .send(payload, &mut self.from_client, &mut self.sent)?;
        self.server_takes()?;
        self.sent.clear();
        Ok(())
    }

    // The server takes all that the client put out.
    fn server_takes(&mut self) -> Result<(), TransportFault> {
        let mut rest = self.from_client.as_slice();
        for _ in 0..MOST_UNITS {
            if rest.is_empty() {
                break;
            }
            let (used, turn) = self
                .server
                .take(rest, &mut self.from_server, &mut self.sent);
            turn?;
            rest = rest.get(used..).unwrap_or(&[]);
        }
        self.from_client.clear();
        Ok(())
    }

    // The client takes all that the server put out.
    fn client_takes(&mut self) -> Result<(), TransportFault> {
        let mut rest = self.from_server.as_slice();
        for _ in 0..MOST_UNITS {
            if rest.is_empty() {
                break;
            }
            let (used, turn) = self
                .client
                .take(rest, &mut self.from_client, &mut self.sent);
            turn?;
            rest = rest.get(used..).unwrap_or(&[]);
        }
        self.from_server.clear();
        Ok(())
    }
}
