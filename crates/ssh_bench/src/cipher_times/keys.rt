//! Times making a key of AES-GCM, which has a table, against sealing 32 KiB.

use crate::ratio::Ratio;
use ciphers::aes_gcm::GcmKey;
use std::time::{Duration, Instant};

const NONCE: [u8; 12] = [1; 12];

/// Prints the time of a key, and its ratio to that of sealing 32 KiB.
///
/// # Errors
///
/// Standard output can't be written to, or memory is refused.
pub fn measure(rt: &HostRuntime, rounds: u32) -> anyhow::Result<()> {
    let mut text = [0x61; 32_768];
    let mut made = Duration::MAX;
    let mut sealed = Duration::MAX;
    let mut sum = 0u8;
    for _ in 0..rounds {
        let start = Instant::now(rt)?;
        let key = GcmKey::new(rt.alloc(), &[sum; 16])?;
        made = made.min(start.elapsed(rt)?);
        let start = Instant::now(rt)?;
        key.mask(&NONCE, &mut text);
        sum ^= key.tag(&NONCE, &[], &text)[0];
        sealed = sealed.min(start.elapsed(rt)?);
    }
    println!(rt;
        "A key of AES-128-GCM takes {} ns, {} of sealing 32 KiB",
        made.as_nanos(),
        Ratio(made, sealed)
    )?;
    Ok(())
}
