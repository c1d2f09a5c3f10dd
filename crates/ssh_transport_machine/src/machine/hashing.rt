//! The exchange hash of an end.

ghost use Rattle.std.specs.Prelude.{◌≡◌, ◌≤◌, length};
ghost use Rattle.ssh_model.specs.Protocol.Bounds.{largest_packet};
ghost use Rattle.ssh_model.specs.Protocol.Wire.DataTypes.{number};
ghost use Rattle.ssh_model.specs.Protocol.KeyExchange.Exchange.{exchange_hash as hash_of};
ghost use Rattle.ssh_transport_machine.specs.Hashing.{inputs_in};

use crate::machine::Machine;
use ssh_kex::exchange_hash;
use ssh_packet::Sealing;

/// The results of an exchange: the host key, at most 35,000 bytes, both points, and the shared number.
#[derive(Clone, Copy)]
pub struct ExchangeValues<'a> {
    /// The server's host key, at most 35,000 bytes.
    pub host_key: &'a [u8],
    /// The client's public point.
    pub client: &'a [u8; 32],
    /// The server's public point.
    pub server: &'a [u8; 32],
    /// The shared number, the most significant byte first.
    pub shared: &'a [u8; 32],
}

impl<S: Sealing> Machine<S> {
    /// The hash of the exchange under way (RFC 5656 section 4). It needs no memory.
    pub fn hash(&self, values: &ExchangeValues<'_>) -> [u8; 32]
        requires { length values.now.host_key.now ≤ largest_packet }
        ensures { result ≡ hash_of (inputs_in self.now.kept.side self.now.kept values.now.host_key.now values.now.client.now
            values.now.server.now (number values.now.shared.now)) }
    {
        let inputs = self.inputs(values);
        exchange_hash(&inputs)
    }
}
