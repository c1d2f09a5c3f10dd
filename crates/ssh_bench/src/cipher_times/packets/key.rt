//! The work of both programs under a key, and how long it takes.

ghost use Rattle.std.specs.Prelude.{◌≤◌, length};

use ciphers::aes_gcm::GcmKey;
use ssh_toys::plain::PlainKey;
use std::io;
use std::time::{Duration, Instant};

const NONCE: [u8; 12] = [1; 12];

// The bytes of a packet's length.
const CLEAR: [u8; 4] = [3; 4];

/// A key of AES-128-GCM.
pub trait Key {
    /// Masks a text, or takes the mask from it.
    fn mask_text(&self, text: &mut [u8])
        requires { length text.old ≤ 65536 };

    /// The tag of a masked text.
    fn tag_of(&self, text: &[u8]) -> [u8; 16]
        requires { length text.now ≤ 65536 };
}

impl Key for PlainKey {
    fn mask_text(&self, text: &mut [u8]) {
        self.mask(&NONCE, text);
    }

    fn tag_of(&self, text: &[u8]) -> [u8; 16] {
        self.tag(&NONCE, &CLEAR, text)
    }
}

impl Key for GcmKey {
    fn mask_text(&self, text: &mut [u8]) {
        self.mask(&NONCE, text);
    }

    fn tag_of(&self, text: &[u8]) -> [u8; 16] {
        self.tag(&NONCE, &CLEAR, text)
    }
}

/// The time of sealing a text so often, and the last tag.
///
/// # Errors
///
/// Only those of the clock.
pub fn seal<K: Key>(
    rt: &HostRuntime,
    key: &K,
    text: &mut [u8],
    count: usize,
) -> io::Result<(Duration, [u8; 16])>
    requires { length text.old ≤ 65536 }
{
    let mut tag = [0; 16];
    let start = Instant::now(rt)?;
    for _ in 0..count {
        key.mask_text(text);
        tag = key.tag_of(text);
    }
    Ok((start.elapsed(rt)?, tag))
}

/// The time of opening it so often, and the last tag.
///
/// # Errors
///
/// Only those of the clock.
pub fn open<K: Key>(
    rt: &HostRuntime,
    key: &K,
    text: &mut [u8],
    count: usize,
) -> io::Result<(Duration, [u8; 16])>
    requires { length text.old ≤ 65536 }
{
    let mut tag = [0; 16];
    let start = Instant::now(rt)?;
    for _ in 0..count {
        tag = key.tag_of(text);
        key.mask_text(text);
    }
    Ok((start.elapsed(rt)?, tag))
}
