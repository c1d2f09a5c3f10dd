//! The signatures of a client's user that its program gave.

ghost use Rattle.std.specs.Prelude.{◌≡◌, ◌++◌, ◌≤◌, OnErr, OnOk, [], ◌∷◌, length, take};
ghost use Rattle.std.specs.Option.{option_copied};
ghost use Rattle.ssh_held.specs.Signing.{given_for, is_for_text, is_known_to, is_sized, signatures_of};

use ssh_auth::UserSigner;
use std::alloc::{AllocError, Global};

// The most bytes of a signature.
const LONGEST: usize = 4096;

/// A signature that a program gave, and what it is a signature of.
#[derive(Drop)]
pub struct GivenSignature {
    /// The name of the algorithm.
    pub algorithm: Vec<u8>,
    /// The public key.
    pub key: Vec<u8>,
    /// The text (RFC 4252 section 7).
    pub text: Vec<u8>,
    /// The bytes of the signature.
    pub signature: Vec<u8>,
}

/// The signer of a client's user whose program gives signatures by keys that the client does not have. It has a signer of its own too.
#[derive(Drop)]
pub struct GivenSignatures<U: UserSigner + Copy + Drop> {
    /// What the program gave, the oldest first.
    pub list: Vec<GivenSignature>,
    /// It comes first, wherever it signs.
    pub own: U,
}

impl<U: UserSigner + Copy + Drop> GivenSignatures<U> {
    /// No signatures but those of this signer.
    pub fn new(alloc: Global, own: U) -> GivenSignatures<U>
        ensures list { result.list.items ≡ [] }
        ensures own { result.own ≡ own }
    {
        GivenSignatures {
            list: Vec::new(alloc),
            own,
        }
    }

    /// Adds a signature that the program gave. The first one of a text counts, and another one changes nothing.
    ///
    /// # Errors
    ///
    /// Only if memory is refused: nothing changes.
    pub fn give(&mut self, given: GivenSignature) -> Result<(), AllocError>
        ensures given { OnOk result (self.new.list.items ≡ self.old.list.items ++ given ∷ []) }
        ensures same { OnErr result (self.new.list.items ≡ self.old.list.items) }
        ensures own { self.new.own ≡ self.old.own }
    {
        self.list.push(given)?;
        Ok(())
    }

    /// The signature that the program gave for this text, if it gave one.
    pub fn given(&self, algorithm: &[u8], key: &[u8], text: &[u8]) -> Option<&[u8]>
        ensures { option_copied result ≡ given_for self.now.list.items algorithm.now key.now text.now }
    {
        match self
            .list
            .iter()
            .find(|given| is_for_text(given, algorithm, key, text))
        {
            Some(given) => Some(given.signature.as_slice()),
            None => None,
        }
    }

    /// Tests whether a signature of this text is known: by its own signer, or since the program gave one.
    pub fn knows(&self, user: &[u8], algorithm: &[u8], key: &[u8], text: &[u8]) -> bool
        ensures { result ≡ is_known_to U.signature_of self.now user.now algorithm.now key.now text.now }
    {
        let mut room = [0; LONGEST];
        put_own(&self.own, user, algorithm, key, text, &mut room) > 0
            || self.given(algorithm, key, text).is_some()
    }
}

impl<U: UserSigner + Copy + Drop> UserSigner for GivenSignatures<U> {
    ghost signature_of = { signatures_of U.signature_of };

    fn sign(
        &self,
        user: &[u8],
        algorithm: &[u8],
        key: &[u8],
        text: &[u8],
        out: &mut [u8; 4096],
    ) -> usize {
        let count = put_own(&self.own, user, algorithm, key, text, out);
        if count > 0 {
            return count;
        }
        match self.given(algorithm, key, text) {
            Some(signature) => put(signature, out),
            None => 0,
        }
    }
}

/// Tests whether a signature has a byte at least, and 4,096 at most.
pub(crate) fn is_sized(signature: &[u8]) -> bool
    ensures { result ≡ is_sized signature.now }
{
    let size = signature.len();
    0 < size && size <= LONGEST
}

// Has the client's own signer sign the text.
fn put_own<U: UserSigner>(
    own: &U,
    user: &[u8],
    algorithm: &[u8],
    key: &[u8],
    text: &[u8],
    out: &mut [u8; 4096],
) -> usize
    ensures value { take result out.new ≡ U.signature_of own.now user.now algorithm.now key.now text.now }
    ensures count { result ≡ length (U.signature_of own.now user.now algorithm.now key.now text.now) }
    ensures bound { result ≤ 4096 }
{
    own.sign(user, algorithm, key, text, out)
}

// Puts a signature in front, cut off after 4,096 bytes.
fn put(signature: &[u8], out: &mut [u8; 4096]) -> usize
    ensures value { take result out.new ≡ take 4096 signature.now }
    ensures bound { result ≤ 4096 }
{
    let count = signature.len().min(LONGEST);
    out[..count].copy_from_slice(&signature[..count]);
    count
}

// Tests whether a signature was given for this text, by this key under this algorithm.
fn is_for_text(given: &GivenSignature, algorithm: &[u8], key: &[u8], text: &[u8]) -> bool
    ensures { result ≡ is_for_text algorithm.now key.now text.now given.now }
{
    given.algorithm.as_slice() == algorithm
        && given.key.as_slice() == key
        && given.text.as_slice() == text
}
