//! The parts of a client whose program says which hosts are trusted.

use crate::host_book::HostVerdicts;
use crate::known_algorithms::KnowsAlgorithms;
use ssh_kex::HostTrust;
use ssh_transport_machine::ClientParts;
use std::marker::PhantomData;

/// The parts of a client `P`, with a program's verdicts in the place of its host trust. `S` judges the
/// signatures of the algorithms that it knows.
pub struct HeldParts<P: ClientParts, S: HostTrust + KnowsAlgorithms + Copy + Drop> {
    parts: PhantomData<P>,
    signatures: PhantomData<S>,
}

impl<P: ClientParts, S: HostTrust + KnowsAlgorithms + Copy + Drop> ClientParts for HeldParts<P, S> {
    type Sealing = P::Sealing;

    type Filler = P::Filler;

    type Agreement = P::Agreement;

    type HostTrust = HostVerdicts<S>;
}
