//! The bytes that are drawn before an end is made.

use crate::error::PipeError;
use crate::parts::{PipeSealing, config};
use divrelca::{KeySupply, Material, PaddingSource, Policy, RandomBytes};
use ssh_transport::{Config, ConfigRefusal};
use ssh_types::CallError;
use std::alloc::Global;
use std::random::RandomSource;

/// The parts from which an end of either role draws, the bytes that were drawn for it, and the policy that it goes by.
#[derive(Drop)]
pub struct Start<'p, S: RandomSource + Drop> {
    pub(crate) alloc: Global,
    pub(crate) policy: &'p Policy,
    // What it draws from, after its first cookie and secret were drawn.
    pub(crate) supply: KeySupply<RandomBytes<S>>,
    pub(crate) material: Material,
}

impl<'p, S: RandomSource + Drop> Start<'p, S> {
    /// A start by this policy, with a first cookie and secret that are drawn from this source.
    ///
    /// # Errors
    ///
    /// Only `Random`: the source gave no random bytes.
    pub fn new(alloc: Global, policy: &'p Policy, source: S) -> Result<Start<'p, S>, PipeError> {
        let mut supply = KeySupply::new(RandomBytes(source));
        let material = supply.draw()?;
        Ok(Start {
            alloc,
            policy,
            supply,
            material,
        })
    }

    // What pads the packets of the end, drawn after the cookie and the secret.
    pub(crate) fn padding(&mut self) -> Result<PaddingSource, PipeError> {
        Ok(self.supply.padding()?)
    }

    // The settings of the end, which names these methods of authentication.
    pub(crate) fn config(
        &self,
        methods: &[&[u8]],
    ) -> Result<Config<PipeSealing>, CallError<ConfigRefusal>> {
        config(self.alloc, self.policy, methods)
    }
}
