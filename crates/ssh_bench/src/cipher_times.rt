//! Times AES-GCM, X25519 and Ed25519 against the plain programs of `ssh_toys::plain`, taken in turn.

mod curves;
mod keys;
mod packets;

/// Prints how many times faster the crate `ciphers` is.
///
/// # Errors
///
/// Those of the clock and of standard output, or memory is refused.
pub fn measure(rt: &HostRuntime, rounds: u32) -> anyhow::Result<()> {
    println!(rt; "How many times faster than plain programs, the fastest of {rounds} rounds")?;
    for size in [64, 256, 1024, 32_768] {
        packets::measure(rt, size, rounds)?;
    }
    keys::measure(rt, rounds)?;
    curves::measure(rt, rounds)
}
