//! Times sealing and opening packets under `AesGcm`, an agreement by X25519, and signatures by Ed25519, against HMAC-SHA-256.

ghost use Rattle.std.specs.Prelude.{◌≤◌, length};
ghost use Rattle.ssh_model.specs.Protocol.Bounds.{longest_payload};

use crate::ratio::Ratio;
use case::Case;
use std::io;
use std::time::Duration;

mod case;

// How many bytes of payloads are timed at once.
const BYTES: usize = 262_144;

// How many agreements, signatures and verifications are.
const CALLS: usize = 8;

// What their HMAC is of.
const PAYLOAD: [u8; 1024] = [0x61; 1024];

/// Prints the ratios at payloads of three sizes, of an agreement, and of signatures.
///
/// # Errors
///
/// Those of the clock and of standard output, or memory is refused.
pub fn measure(rt: &HostRuntime, rounds: u32) -> io::Result<()> {
    println!(rt; "Times of AES-128-GCM, X25519 and Ed25519 as ratios to HMAC-SHA-256")?;
    measure_size(rt, 64, rounds)?;
    measure_size(rt, 1024, rounds)?;
    measure_size(rt, 32_768, rounds)?;
    measure_agreement(rt, rounds)?;
    measure_signatures(rt, rounds)
}

// Prints the ratios at payloads of this size.
fn measure_size(rt: &HostRuntime, size: usize, rounds: u32) -> io::Result<()>
    requires from { 1 ≤ size }
    requires to { size ≤ longest_payload }
{
    let payload = vec![in rt.alloc(); 0x61; size]?;
    let mut case = Case::new(rt.alloc(), &payload)?;
    let count = BYTES / size + 1;
    let (sealing, opening) = packet_ratios(rt, &mut case, &payload, count, rounds)?;
    println!(rt; "payload of {size} bytes, to the HMAC of it: sealing {sealing}, opening {opening}")
}

// The ratios of sealing and opening to the HMAC, each taken so often at once.
fn packet_ratios(
    rt: &HostRuntime,
    case: &mut Case,
    payload: &[u8],
    count: usize,
    rounds: u32,
) -> io::Result<(Ratio, Ratio)>
    requires from { 1 ≤ length payload.now }
    requires to { length payload.now ≤ longest_payload }
{
    let mut seal = Duration::MAX;
    let mut open = Duration::MAX;
    let mut hmac = Duration::MAX;
    for _ in 0..rounds {
        seal = seal.min(case.seal(rt, payload, count)?);
        open = open.min(case.open(rt, count)?);
        hmac = hmac.min(case.hmac(rt, payload, count)?);
    }
    Ok((Ratio(seal, hmac), Ratio(open, hmac)))
}

// Prints the ratio of an agreement to the HMAC of 1 KiB.
fn measure_agreement(rt: &HostRuntime, rounds: u32) -> io::Result<()> {
    let mut case = Case::new(rt.alloc(), &PAYLOAD)?;
    let ratio = agreement_ratio(rt, &mut case, rounds)?;
    println!(rt; "an agreement by X25519, to the HMAC of 1024 bytes: {ratio}")
}

fn agreement_ratio(rt: &HostRuntime, case: &mut Case, rounds: u32) -> io::Result<Ratio> {
    let mut shared = Duration::MAX;
    let mut hmac = Duration::MAX;
    for _ in 0..rounds {
        shared = shared.min(case.share(rt, CALLS)?);
        hmac = hmac.min(case.hmac(rt, &PAYLOAD, CALLS)?);
    }
    Ok(Ratio(shared, hmac))
}

// Prints the ratios of a signature and of its verification to the HMAC of 1 KiB.
fn measure_signatures(rt: &HostRuntime, rounds: u32) -> io::Result<()> {
    let mut case = Case::new(rt.alloc(), &PAYLOAD)?;
    let (signing, verifying) = signature_ratios(rt, &mut case, rounds)?;
    println!(rt;
        "Ed25519, to the HMAC of 1024 bytes: a signature {signing}, its verification {verifying}"
    )
}

fn signature_ratios(rt: &HostRuntime, case: &mut Case, rounds: u32) -> io::Result<(Ratio, Ratio)> {
    let mut signed = Duration::MAX;
    let mut verified = Duration::MAX;
    let mut hmac = Duration::MAX;
    for _ in 0..rounds {
        signed = signed.min(case.sign(rt, CALLS)?);
        verified = verified.min(case.verify(rt, CALLS)?);
        hmac = hmac.min(case.hmac(rt, &PAYLOAD, CALLS)?);
    }
    Ok((Ratio(signed, hmac), Ratio(verified, hmac)))
}
