//! The supplied parts of authentication.

ghost use Rattle.std.specs.Prelude.{◌≡◌, ◌≤◌, ℕ, List, length, take};
ghost use Rattle.ssh_model.specs.Protocol.Bounds.{longest_algorithm_name, longest_user_key};
ghost use Rattle.ssh_model.specs.Protocol.Authentication.Requests.{Judge};

/// It decides whom a server authenticates. Each answer is a function of the part and the arguments, and true is acceptance. A server asks
/// only about requests for the connection, and about methods that it names. It asks about no key over 16,384 bytes, and none under an
/// algorithm name over 64 bytes.
pub trait UserJudge {
    ghost verdicts: { Self → Judge };

    /// Tests whether the user is authenticated without any proof (RFC 4252 section 5.2).
    fn none(&self, user: &[u8]) -> bool
        ensures { result ≡ (verdicts self.now).admits user.now };

    /// Tests whether this is the password of the user (RFC 4252 section 8).
    fn password(&self, user: &[u8], word: &[u8]) -> bool
        ensures { result ≡ (verdicts self.now).password_is_right user.now word.now };

    /// Tests whether this is a key of the user (RFC 4252 section 7).
    fn key_known(&self, user: &[u8], algorithm: &[u8], key: &[u8]) -> bool
        requires named { length algorithm.now ≤ longest_algorithm_name }
        requires short { length key.now ≤ longest_user_key }
        ensures { result ≡ (verdicts self.now).knows_key user.now algorithm.now key.now };

    /// Tests whether the signature is one of the text by this key (RFC 4252 section 7).
    fn signature(&self, algorithm: &[u8], key: &[u8], text: &[u8], signature: &[u8]) -> bool
        requires named { length algorithm.now ≤ longest_algorithm_name }
        requires short { length key.now ≤ longest_user_key }
        ensures { result ≡ (verdicts self.now).signature_is_right algorithm.now key.now text.now signature.now };
}

/// The keys of a client's user (RFC 4252 section 7). The answer is a function of the part and the
/// arguments.
pub trait UserSigner {
    ghost signature_of: { Self → List ℕ → List ℕ → List ℕ → List ℕ → List ℕ };

    /// Signs the text with the private key of this public key (RFC 4252 section 7). The signature is in the first bytes of `out`; the
    /// answer is how many these are.
    fn sign(
        &self,
        user: &[u8],
        algorithm: &[u8],
        key: &[u8],
        text: &[u8],
        out: &mut [u8; 4096],
    ) -> usize
        ensures value { take result out.new ≡ signature_of self.now user.now algorithm.now key.now text.now }
        ensures bound { result ≤ 4096 };
}
