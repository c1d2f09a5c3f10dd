//! Times sealing and opening of one text by both programs.

ghost use Rattle.std.specs.Prelude.{◌≤◌, length};

use crate::ratio::Ratio;
use ciphers::aes_gcm::GcmKey;
use key::{open, seal};
use ssh_toys::plain::PlainKey;
use std::io;
use std::time::Duration;

mod key;

const KEY: [u8; 16] = [2; 16];

// How many bytes of texts are timed at once.
const BYTES: usize = 65_536;

/// Prints the ratios at a text of this size.
///
/// # Errors
///
/// Standard output can't be written to, or memory is refused.
pub fn measure(rt: &HostRuntime, size: usize, rounds: u32) -> anyhow::Result<()>
    requires { size ≤ 65536 }
{
    let key = GcmKey::new(rt.alloc(), &KEY)?;
    let mut one = vec![in rt.alloc(); 0x61u8; size]?;
    let mut other = vec![in rt.alloc(); 0x61u8; size]?;
    let count = BYTES / size.max(1) + 1;
    let times = fastest(rt, &key, &mut one, &mut other, count, rounds)?;
    let same = times.same && one.as_slice() == other.as_slice();
    println!(rt;
        "AES-128-GCM, {size} bytes: sealing {}, opening {} (same bytes: {same}; sealing {} MB/s)",
        Ratio(times.sealed.0, times.sealed.1),
        Ratio(times.opened.0, times.opened.1),
        rate(count, size, times.sealed.1)
    )?;
    Ok(())
}

// The shortest times of the plain program and of the other one, and whether both made the same tags.
#[derive(Clone, Copy)]
struct Times {
    sealed: (Duration, Duration),
    opened: (Duration, Duration),
    same: bool,
}

// Those of sealing and opening so often in each of these rounds, each program a text of its own.
fn fastest(
    rt: &HostRuntime,
    key: &GcmKey,
    one: &mut [u8],
    other: &mut [u8],
    count: usize,
    rounds: u32,
) -> io::Result<Times>
    requires one { length one.old ≤ 65536 }
    requires other { length other.old ≤ 65536 }
{
    let plain = PlainKey::new(&KEY);
    let mut sealed = (Duration::MAX, Duration::MAX);
    let mut opened = (Duration::MAX, Duration::MAX);
    let mut same = true;
    for _ in 0..rounds {
        let (plain_time, plain_tag) = seal(rt, &plain, one, count)?;
        let (time, tag) = seal(rt, key, other, count)?;
        sealed = (sealed.0.min(plain_time), sealed.1.min(time));
        same = same && plain_tag == tag;
        let (plain_time, plain_tag) = open(rt, &plain, one, count)?;
        let (time, tag) = open(rt, key, other, count)?;
        opened = (opened.0.min(plain_time), opened.1.min(time));
        same = same && plain_tag == tag;
    }
    Ok(Times {
        sealed,
        opened,
        same,
    })
}

// How many millions of bytes a second so many texts of a size are.
fn rate(count: usize, size: usize, time: Duration) -> u128 {
    let bytes = (count as u128).saturating_mul(size as u128);
    bytes.saturating_mul(1000) / time.as_nanos().max(1)
}
