use sha2::{Digest, Sha256};
use ssh_packet::HmacKey;

// The bytes that both ends hash: the text of a first exchange and of a later one over the settings of `parts`, and K, H, a letter and the
// session id for a key (RFC 4253 sections 7.2 and 8).
const FIRST_TEXT: usize = 484;

const LATER_TEXT: usize = 426;

const KEY_TEXT: usize = 36 + 32 + 1 + 32;

// The packets of a later exchange with the number in front of each, as the tags cover them: KEXINIT twice, KEX_ECDH_INIT,
// KEX_ECDH_REPLY, and NEWKEYS twice.
const PACKETS: [usize; 6] = [156, 156, 52, 100, 20, 20];

// The packets of a session after its first exchange, in the same way: SERVICE_REQUEST and SERVICE_ACCEPT, USERAUTH_REQUEST with a signature
// and USERAUTH_SUCCESS, CHANNEL_OPEN and its confirmation, CHANNEL_DATA of two bytes, and CHANNEL_CLOSE twice.
const SESSION: [usize; 9] = [36, 36, 116, 20, 44, 36, 28, 20, 20];

/// The hashes alone.
#[derive(Drop)]
pub struct Hashes {
    text: [u8; 512],
    key: HmacKey,
    // What the calls answered, so that none of them is idle.
    sum: u8,
}

impl Hashes {
    /// Hashes of bytes that say nothing.
    pub fn new() -> Hashes {
        Hashes {
            text: [0x61; 512],
            key: HmacKey::new(&[0x11; 32]),
            sum: 0,
        }
    }

    /// Those of both ends in an exchange: the text, and the two keys with their states.
    pub fn of_exchange(&mut self, is_later: bool) {
        let size = if is_later { LATER_TEXT } else { FIRST_TEXT };
        for _ in 0..2 {
            self.sum ^= Sha256::digest(&self.text[..size])[0];
            for _ in 0..2 {
                let key = Sha256::digest(&self.text[..KEY_TEXT]);
                self.key = HmacKey::new(&key);
            }
        }
    }

    /// The tags of a later exchange, each made by one end and tested by the other.
    pub fn of_tags(&mut self) {
        self.of_packets(&PACKETS);
    }

    /// The tags of a session after its first exchange, in the same way.
    pub fn of_session(&mut self) {
        self.of_packets(&SESSION);
    }

    fn of_packets(&mut self, sizes: &[usize]) {
        for size in sizes.iter().copied() {
            for _ in 0..2 {
                let text = self.text.get(..size).unwrap_or(&[]);
                self.sum ^= self.key.mac(text)[0];
            }
        }
    }

    /// The HMAC of a text.
    pub fn mac(&mut self, text: &[u8]) {
        self.sum ^= self.key.mac(text)[0];
    }
}
