//! Times sealing and opening packets under `MacOnly` against the bare HMAC-SHA-256 of the same bytes.

ghost use Rattle.std.specs.Prelude.{◌≤◌, length};
ghost use Rattle.ssh_model.specs.Protocol.Bounds.{longest_payload};

use crate::ratio::Ratio;
use case::Case;
use std::io;
use times::Times;

mod case;
mod times;

// How many bytes of payloads are timed at once.
const BYTES: usize = 262_144;

/// Prints the ratios at payloads of three sizes.
///
/// # Errors
///
/// Those of the clock and of standard output, or memory is refused.
pub fn measure(rt: &HostRuntime, rounds: u32) -> io::Result<()> {
    println!(rt; "Times of MacOnly as ratios to the HMAC-SHA-256 of the same bytes")?;
    measure_size(rt, 64, rounds)?;
    measure_size(rt, 1024, rounds)?;
    measure_size(rt, 32_768, rounds)
}

// Prints the ratios at payloads of this size.
fn measure_size(rt: &HostRuntime, size: usize, rounds: u32) -> io::Result<()>
    requires from { 1 ≤ size }
    requires to { size ≤ longest_payload }
{
    let payload = vec![in rt.alloc(); 0x61; size]?;
    let mut case = Case::new(rt.alloc(), &payload)?;
    let count = BYTES / size + 1;
    let times = fastest(rt, &mut case, &payload, count, rounds)?;
    print(rt, size, times)
}

// The shortest times of this payload and packet, each taken so often at once, in so many rounds.
fn fastest(
    rt: &HostRuntime,
    case: &mut Case,
    payload: &[u8],
    count: usize,
    rounds: u32,
) -> io::Result<Times>
    requires from { 1 ≤ length payload.now }
    requires to { length payload.now ≤ longest_payload }
{
    let mut fastest = Times::longest();
    for _ in 0..rounds {
        let times = Times {
            seal: case.seal(rt, payload, count)?,
            open: case.open(rt, count)?,
            kept: case.kept(rt, count)?,
            anew: case.anew(rt, count)?,
        };
        fastest = fastest.faster(times);
    }
    Ok(fastest)
}

fn print(rt: &HostRuntime, size: usize, times: Times) -> io::Result<()> {
    let Times {
        seal,
        open,
        kept,
        anew,
    } = times;
    println!(rt; "payload of {size} bytes")?;
    println!(rt;
        "  to a key with kept states: sealing {}, opening {}",
        Ratio(seal, kept),
        Ratio(open, kept)
    )?;
    println!(rt;
        "  to a key made each time:   sealing {}, opening {}",
        Ratio(seal, anew),
        Ratio(open, anew)
    )
}
