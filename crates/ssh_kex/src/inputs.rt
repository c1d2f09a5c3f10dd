ghost use Rattle.std.specs.Prelude.{◌≡◌, ◌↔◌, ◌<◌, ◌^◌, IsTrue, length};
ghost use Rattle.ssh_model.specs.Laws.KeyExchange.{Fits};
ghost use Rattle.ssh_kex.specs.Values.{inputs_of};

use ssh_types::laws;

// The bytes after the length of a string are fewer than 2^32.
const LIMIT: usize = 1 << 32;

/// The inputs that the two ends of a key exchange hash (RFC 5656 section 4, RFC 8731 section 3.1).
#[derive(Clone, Copy, Debug)]
pub struct ExchangeInputs<'a> {
    /// V_C, the version line of the client without CR LF.
    pub client_version: &'a [u8],
    /// V_S, the version line of the server without CR LF.
    pub server_version: &'a [u8],
    /// I_C, the payload of the client's KEXINIT.
    pub client_init: &'a [u8],
    /// I_S, the payload of the server's KEXINIT.
    pub server_init: &'a [u8],
    /// K_S, the host key of the server.
    pub host_key: &'a [u8],
    /// Q_C, the public point of the client.
    pub client_point: &'a [u8; 32],
    /// Q_S, the public point of the server.
    pub server_point: &'a [u8; 32],
    /// K, the shared number: unsigned, the most significant byte first.
    pub shared: &'a [u8; 32],
}

impl ExchangeInputs<'_> {
    /// Tests whether each text is shorter than 2^32 bytes, as `exchange_hash` and `exchange_text` ask.
    pub fn fits(&self) -> bool
        ensures { IsTrue result ↔ Fits (inputs_of self.now) }
    {
        let shared = self.shared;
        crate::laws::short_number(shared);
        laws::has_32_bytes(self.client_point);
        laws::has_32_bytes(self.server_point);
        if !are_short(self.client_version, self.server_version) {
            return false;
        }
        if !are_short(self.client_init, self.server_init) {
            return false;
        }
        self.host_key.len() < LIMIT
    }
}

// Both texts are short enough.
fn are_short(one: &[u8], other: &[u8]) -> bool
    ensures { IsTrue result ↔ (length one.now < 2 ^ 32) × (length other.now < 2 ^ 32) }
{
    one.len() < LIMIT && other.len() < LIMIT
}
