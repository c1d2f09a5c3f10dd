//! What a program said on host keys and on their signatures.

ghost use Rattle.std.specs.Prelude.{◌≡◌, ◌++◌, None, OnErr, OnOk, Some, [], ◌∷◌};
ghost use Rattle.ssh_held.specs.Hosts.{is_on_host, is_signed_so, said_of_host, trust_by};

use crate::known_algorithms::KnowsAlgorithms;
use ssh_kex::HostTrust;
use std::alloc::{AllocError, Global};

/// What the reply of a server asks a program on a host key (RFC 4253 section 8).
#[derive(Drop)]
pub struct HostAsked {
    /// The name of the algorithm.
    pub algorithm: Vec<u8>,
    /// The host key.
    pub key: Vec<u8>,
    /// With a hash and a signature: whether this is the signature of this hash by the key. Without: whether the key is trusted.
    pub signed: Option<SignedHash>,
}

/// The hash of an exchange of keys, and what a host gave as its signature.
#[derive(Drop)]
pub struct SignedHash {
    /// The hash (RFC 5656 section 4).
    pub hash: [u8; 32],
    /// The signature.
    pub signature: Vec<u8>,
}

/// What a program said on a question.
#[derive(Drop)]
pub struct HostVerdict {
    /// The question.
    pub asked: HostAsked,
    /// Whether the program accepts.
    pub accepts: bool,
}

/// A judge of hosts by what a program said on their keys, and on their signatures by algorithms that the judge of signatures does not know.
/// What was not said is no.
#[derive(Drop)]
pub struct HostVerdicts<S: HostTrust + KnowsAlgorithms + Copy + Drop> {
    /// The verdicts, the oldest first.
    pub list: Vec<HostVerdict>,
    /// It judges the signatures of the algorithms that it knows, and is asked about those host keys alone to which the program said yes.
    pub signatures: S,
}

impl<S: HostTrust + KnowsAlgorithms + Copy + Drop> HostVerdicts<S> {
    /// No verdicts, so that no host is trusted.
    pub fn new(alloc: Global, signatures: S) -> HostVerdicts<S>
        ensures list { result.list.items ≡ [] }
        ensures signatures { result.signatures ≡ signatures }
    {
        HostVerdicts {
            list: Vec::new(alloc),
            signatures,
        }
    }

    /// Adds what the program said. The first verdict on a question counts, and another one changes nothing.
    ///
    /// # Errors
    ///
    /// Only if memory is refused: nothing changes.
    pub fn give(&mut self, asked: HostAsked, accepts: bool) -> Result<(), AllocError>
        ensures given { OnOk result (self.new.list.items ≡ self.old.list.items ++ record { asked = asked; accepts = accepts } ∷ []) }
        ensures same { OnErr result (self.new.list.items ≡ self.old.list.items) }
        ensures signatures { self.new.signatures ≡ self.old.signatures }
    {
        self.list.push(HostVerdict { asked, accepts })?;
        Ok(())
    }

    /// What the program said on this host key under this algorithm, if it said something.
    pub fn said(&self, algorithm: &[u8], key: &[u8]) -> Option<bool>
        ensures { result ≡ said_of_host self.now.list.items algorithm.now key.now None }
    {
        match self
            .list
            .iter()
            .find(|verdict| is_on_key(&verdict.asked, algorithm, key))
        {
            Some(verdict) => Some(verdict.accepts),
            None => None,
        }
    }

    /// What it said on this signature of this hash by the host key, if it said something.
    pub fn said_of_signature(
        &self,
        algorithm: &[u8],
        key: &[u8],
        hash: &[u8; 32],
        signature: &[u8],
    ) -> Option<bool>
        ensures { result ≡ said_of_host self.now.list.items algorithm.now key.now
            (Some (record { hash = hash.now; signature = signature.now })) }
    {
        match self.list.iter().find(|verdict| is_on_signature(
            &verdict.asked,
            algorithm,
            key,
            hash,
            signature,
        )) {
            Some(verdict) => Some(verdict.accepts),
            None => None,
        }
    }
}

impl<S: HostTrust + KnowsAlgorithms + Copy + Drop> HostTrust for HostVerdicts<S> {
    ghost judged = { λ trust. trust_by (S.knows trust.signatures) (S.judged trust.signatures) trust.list.items };

    fn judge(&self, algorithm: &[u8], key: &[u8], hash: &[u8; 32], signature: &[u8]) -> bool {
        if !self.said(algorithm, key).unwrap_or(false) {
            return false;
        }
        if self.signatures.knows(algorithm) {
            return self.signatures.judge(algorithm, key, hash, signature);
        }
        self.said_of_signature(algorithm, key, hash, signature)
            .unwrap_or(false)
    }
}

// Tests whether the question is on this host key under this algorithm.
fn is_on_key(asked: &HostAsked, algorithm: &[u8], key: &[u8]) -> bool
    ensures { result ≡ is_on_host algorithm.now key.now None asked.now }
{
    asked.algorithm.as_slice() == algorithm && asked.key.as_slice() == key && asked.signed.is_none()
}

// Tests whether it is on this signature of this hash by the host key.
fn is_on_signature(
    asked: &HostAsked,
    algorithm: &[u8],
    key: &[u8],
    hash: &[u8; 32],
    signature: &[u8],
) -> bool
    ensures { result ≡ is_on_host algorithm.now key.now (Some (record { hash = hash.now; signature = signature.now })) asked.now }
{
    asked.algorithm.as_slice() == algorithm
        && asked.key.as_slice() == key
        && is_of(&asked.signed, hash, signature)
}

// Tests whether a question is on this signature of this hash.
fn is_of(signed: &Option<SignedHash>, hash: &[u8; 32], signature: &[u8]) -> bool
    ensures { result ≡ is_signed_so (Some (record { hash = hash.now; signature = signature.now })) signed.now }
{
    match signed {
        Some(signed) => signed.hash == *hash && signed.signature.as_slice() == signature,
        None => false,
    }
}
