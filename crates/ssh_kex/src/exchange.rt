ghost use Rattle.std.specs.Prelude.{◌≡◌, ◌<◌, IfOk};
ghost use Rattle.ssh_model.specs.Protocol.KeyExchange.Exchange.{exchange_hash as hash_of, exchange_text as text_of};
ghost use Rattle.ssh_model.specs.Laws.KeyExchange.{Fits};
ghost use Rattle.ssh_kex.specs.Values.{inputs_of};

use crate::inputs::ExchangeInputs;
use crate::pieces::{hash_mpint, hash_string, unsigned};
use sha2::{Digest, Sha256};
use ssh_types::Put;
use std::alloc::{AllocError, Global};

/// The exchange hash H: the SHA-256 of the exchange text (RFC 5656 section 4, RFC 8731 section 3). It needs no memory.
///
/// Each text is shorter than 2^32 bytes.
pub fn exchange_hash(inputs: &ExchangeInputs<'_>) -> [u8; 32]
    requires { Fits (inputs_of inputs.now) }
    ensures { result ≡ hash_of (inputs_of inputs.now) }
{
    let client_point = inputs.client_point;
    let server_point = inputs.server_point;
    let shared = inputs.shared;
    let mut hasher = Sha256::new();
    hash_string(&mut hasher, inputs.client_version);
    hash_string(&mut hasher, inputs.server_version);
    hash_string(&mut hasher, inputs.client_init);
    hash_string(&mut hasher, inputs.server_init);
    hash_string(&mut hasher, inputs.host_key);
    hash_string(&mut hasher, client_point);
    hash_string(&mut hasher, server_point);
    hash_mpint(&mut hasher, shared);
    hasher.finalize()
}

/// The exchange text: the strings V_C, V_S, I_C, I_S, K_S, Q_C and Q_S, and K as an mpint (RFC 5656 section 4).
///
/// Each text is shorter than 2^32 bytes.
///
/// # Errors
///
/// Only if memory is refused.
#[tactic(auto, using(ssh_types::specs::Encodings::written_string, crate::proofs::Strings::written_mpint))]
pub fn exchange_text(alloc: Global, inputs: &ExchangeInputs<'_>) -> Result<Vec<u8>, AllocError>
    requires { Fits (inputs_of inputs.now) }
    ensures { IfOk result (λ text. text.items ≡ text_of (inputs_of inputs.now)) }
{
    let client_point = inputs.client_point;
    let server_point = inputs.server_point;
    let shared = inputs.shared;
    let mut text = Vec::new(alloc);
    text.put_string(inputs.client_version)?;
    text.put_string(inputs.server_version)?;
    text.put_string(inputs.client_init)?;
    text.put_string(inputs.server_init)?;
    text.put_string(inputs.host_key)?;
    text.put_string(client_point)?;
    text.put_string(server_point)?;
    text.put_mpint(&unsigned(shared))?;
    Ok(text)
}
