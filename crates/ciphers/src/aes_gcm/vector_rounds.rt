//! The rounds of AES (FIPS 197) on eight blocks at once, in vectors of sixteen bytes.

ghost use Rattle.std.specs.Prelude.{ℕ, ◌<◌, Option, Some};
ghost use Rattle.ciphers.specs.AesGcm.Aes.{further, last_round, round};
ghost use Rattle.ciphers.specs.AesGcm.Planes.{added};
ghost use Rattle.ciphers.specs.AesGcm.Rows.{AreVectors};
ghost use Rattle.ciphers.specs.AesGcm.Packing.{transposed};
ghost use Rattle.ciphers.specs.AesGcm.Same.{Same};
ghost use Rattle.ciphers.specs.AesGcm.SameBytes.{AreFour, AreKeys, AreMore, SameBytes, SameFour, SameKeys, SameMore, rounds_of};
ghost use Rattle.ciphers.specs.AesGcm.SubBytes.{sub_bytes};
ghost use Rattle.ciphers.specs.declared.aes_gcm.aes.MoreKeys.{MoreKeys};
ghost use Rattle.ciphers.specs.declared.aes_gcm.aes.Schedule.{Schedule};
ghost use Rattle.ciphers.specs.declared.aes_gcm.planes.Planes.{Planes};

use crate::aes_gcm::lanes::{Vectors, added, mixed_columns, shifted_rows};
use crate::aes_gcm::vector_bytes::sub_bytes;
use crate::aes_gcm::vector_packing::transposed;

/// The keys of the four rounds that AES-256 has more than AES-128.
#[derive(Clone, Copy)]
pub(crate) struct MoreVectors {
    pub(crate) k10: Vectors,
    pub(crate) k11: Vectors,
    pub(crate) k12: Vectors,
    pub(crate) k13: Vectors,
}

/// The round keys, each as the vectors of eight copies of it.
#[derive(Clone, Copy)]
pub(crate) struct VectorKeys {
    pub(crate) k0: Vectors,
    pub(crate) k1: Vectors,
    pub(crate) k2: Vectors,
    pub(crate) k3: Vectors,
    pub(crate) k4: Vectors,
    pub(crate) k5: Vectors,
    pub(crate) k6: Vectors,
    pub(crate) k7: Vectors,
    pub(crate) k8: Vectors,
    pub(crate) k9: Vectors,
    pub(crate) more: Option<MoreVectors>,
    pub(crate) last: Vectors,
}

// Eight blocks, each with its rows one after another, each encrypted.
pub(crate) fn encrypted_vectors(keys: &VectorKeys, blocks: Vectors) -> Vectors
    requires keys { AreKeys keys.now }
    requires blocks { AreVectors blocks }
    ensures bytes { (b : ℕ) (k : Schedule) (w : Planes) → b < 5 → SameKeys b k keys.now → SameBytes b w blocks →
        SameBytes b (transposed (rounds_of k (transposed w))) result }
    ensures long { AreVectors result }
{
    let s0 = start(blocks, keys.k0);
    let s1 = round(s0, keys.k1);
    let s2 = round(s1, keys.k2);
    let s3 = round(s2, keys.k3);
    let s4 = round(s3, keys.k4);
    let s5 = round(s4, keys.k5);
    let s6 = round(s5, keys.k6);
    let s7 = round(s6, keys.k7);
    let s8 = round(s7, keys.k8);
    let s9 = round(s8, keys.k9);
    let s13 = further(s9, keys.more);
    let last = last_round(s13, keys.last);
    transposed(last)
}

// The four rounds more of a key of 256 bits.
#[inline(always)]
fn further(s: Vectors, more: Option<MoreVectors>) -> Vectors
    requires s { AreVectors s }
    requires more { AreMore more }
    ensures bits { (b : ℕ) (a : Planes) (k : Option MoreKeys) → b < 5 → Same b a s → SameMore b k more → Same b (further k a) result }
    ensures long { AreVectors result }
{
    match more {
        Some(more) => four_rounds(s, more),
        None => s,
    }
}

fn four_rounds(s: Vectors, more: MoreVectors) -> Vectors
    requires s { AreVectors s }
    requires more { AreFour more }
    ensures bits { (b : ℕ) (a : Planes) (k : MoreKeys) → b < 5 → Same b a s → SameFour b k more → Same b (further (Some k) a) result }
    ensures long { AreVectors result }
{
    let s10 = round(s, more.k10);
    let s11 = round(s10, more.k11);
    let s12 = round(s11, more.k12);
    round(s12, more.k13)
}

#[inline(always)]
fn start(blocks: Vectors, key: Vectors) -> Vectors
    requires blocks { AreVectors blocks }
    requires key { AreVectors key }
    ensures bits { (b : ℕ) (k w : Planes) → b < 5 → Same b k key → SameBytes b w blocks → Same b (added (transposed w) k) result }
    ensures long { AreVectors result }
{
    added(transposed(blocks), key)
}

#[inline(always)]
pub(crate) fn round(s: Vectors, key: Vectors) -> Vectors
    requires s { AreVectors s }
    requires key { AreVectors key }
    ensures bits { (b : ℕ) (a k : Planes) → b < 5 → Same b a s → Same b k key → Same b (round a k) result }
    ensures long { AreVectors result }
{
    added(mixed_columns(shifted_rows(substituted(s))), key)
}

#[inline(always)]
pub(crate) fn last_round(s: Vectors, key: Vectors) -> Vectors
    requires s { AreVectors s }
    requires key { AreVectors key }
    ensures bits { (b : ℕ) (a k : Planes) → b < 5 → Same b a s → Same b k key → Same b (last_round a k) result }
    ensures long { AreVectors result }
{
    added(shifted_rows(substituted(s)), key)
}

#[inline(always)]
fn substituted(s: Vectors) -> Vectors
    requires { AreVectors s }
    ensures bits { (b : ℕ) (a : Planes) → b < 5 → Same b a s → Same b (sub_bytes a) result }
    ensures long { AreVectors result }
{
    sub_bytes(s)
}
