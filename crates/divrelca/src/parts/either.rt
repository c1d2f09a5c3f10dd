//! One sealing made of two.

ghost use Rattle.divrelca.specs.Parts.Either.{either};
ghost use Rattle.divrelca.specs.Parts.EitherLaws.{either_laws};

use ssh_packet::{Lengths, Sealing};
use std::alloc::{AllocError, Global};
use std::marker::PhantomData;

/// The sealing of an end that offers the names of two sealings: the first one seals under the names that it knows, and the second under all
/// others.
pub struct Either<A: Sealing, B: Sealing> {
    first: PhantomData<A>,
    second: PhantomData<B>,
}

/// A key of the one or the other sealing.
#[derive(Drop)]
pub enum EitherKey<K: Drop, L: Drop> {
    /// A key of the first.
    First(K),
    /// A key of the second.
    Second(L),
}

impl<A: Sealing, B: Sealing> Sealing for Either<A, B> {
    type Key = EitherKey<A::Key, B::Key>;

    ghost crypto = { either A.crypto B.crypto };

    fn lengths(enc: &[u8], mac: &[u8]) -> Option<Lengths> {
        match A::lengths(enc, mac) {
            Some(lengths) => Some(lengths),
            None => B::lengths(enc, mac),
        }
    }

    fn make(
        alloc: Global,
        enc: &[u8],
        mac: &[u8],
        iv: &[u8],
        cipher: &[u8],
        mac_key: &[u8],
    ) -> Result<EitherKey<A::Key, B::Key>, AllocError> {
        match A::lengths(enc, mac) {
            Some(_) => Ok(EitherKey::First(A::make(alloc, enc, mac, iv, cipher, mac_key)?)),
            None => Ok(EitherKey::Second(B::make(alloc, enc, mac, iv, cipher, mac_key)?)),
        }
    }

    fn block(key: &EitherKey<A::Key, B::Key>) -> usize {
        match key {
            EitherKey::First(key) => A::block(key),
            EitherKey::Second(key) => B::block(key),
        }
    }

    fn counts_length(key: &EitherKey<A::Key, B::Key>) -> bool {
        match key {
            EitherKey::First(key) => A::counts_length(key),
            EitherKey::Second(key) => B::counts_length(key),
        }
    }

    fn tag_len(key: &EitherKey<A::Key, B::Key>) -> usize {
        match key {
            EitherKey::First(key) => A::tag_len(key),
            EitherKey::Second(key) => B::tag_len(key),
        }
    }

    fn seal(key: &EitherKey<A::Key, B::Key>, number: u32, packet: &mut [u8]) {
        match key {
            EitherKey::First(key) => A::seal(key, number, packet),
            EitherKey::Second(key) => B::seal(key, number, packet),
        }
    }

    fn open(key: &EitherKey<A::Key, B::Key>, number: u32, packet: &mut [u8]) -> bool {
        match key {
            EitherKey::First(key) => A::open(key, number, packet),
            EitherKey::Second(key) => B::open(key, number, packet),
        }
    }

    ghost laws = { either_laws A.laws B.laws };
}
