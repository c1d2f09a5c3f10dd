//! The supplied parts of a key exchange.

ghost use Rattle.std.specs.Prelude.{◌≡◌, ◌≤◌, ℕ, Bool, List, length, take, replicate, IfSome};
ghost use Rattle.ssh_model.specs.Protocol.Sessions.Parties as parties;
ghost use Rattle.ssh_kex.specs.Parts.{HostKeys};

/// A key agreement over secrets and public points of 32 bytes, as X25519 (RFC 8731 section 3). The answers are
/// functions of the part and the arguments.
pub trait Agreement {
    ghost does: { Self → parties.Agreement };

    /// The public point of a secret (RFC 7748 section 5, RFC 8731 section 3).
    fn public(&self, secret: &[u8; 32]) -> [u8; 32]
        ensures { result ≡ (does self.now).point secret.now };

    /// The shared value of a secret and the other end's point (RFC 8731 section 3). It is `None` if that would be
    /// 32 zero bytes.
    fn shared(&self, secret: &[u8; 32], theirs: &[u8; 32]) -> Option<[u8; 32]>
        ensures value { result ≡ (does self.now).shared secret.now theirs.now }
        ensures not_zero { IfSome result (λ bytes. bytes ≡ replicate 32 0 → ⊥) };
}

/// The host keys of a server (RFC 4253 section 6.6). The answers are functions of the part and the arguments.
pub trait HostSigner {
    ghost keys: { Self → HostKeys };

    /// The public key of an algorithm as K_S has it (RFC 4253 section 8), at most 4,096 bytes.
    fn key(&self, algorithm: &[u8]) -> &[u8]
        ensures value { result.now ≡ (keys self.now).key algorithm.now }
        ensures bound { length result.now ≤ 4096 };

    /// Signs the exchange hash (RFC 4253 section 8). The signature is the first bytes of `out`, as
    /// many as are answered.
    fn sign(&self, algorithm: &[u8], hash: &[u8; 32], out: &mut [u8; 4096]) -> usize
        ensures value { take result out.new ≡ (keys self.now).signature algorithm.now hash.now }
        ensures bound { result ≤ 4096 };
}

/// The host that a client trusts (RFC 4253 section 8). The answer is a function of the part and the
/// arguments.
pub trait HostTrust {
    ghost judged: { Self → List ℕ → List ℕ → List ℕ → List ℕ → Bool };

    /// Tests whether the key is the host's and the signature is that key's of the exchange hash.
    fn judge(&self, algorithm: &[u8], key: &[u8], hash: &[u8; 32], signature: &[u8]) -> bool
        ensures { result ≡ judged self.now algorithm.now key.now hash.now signature.now };
}
