use std::marker::Model;

// The blocks that packets fill (RFC 4253 section 6): how many bytes one has, and whether the four bytes of packet_length count
// in them. They don't if packet_length stands in the clear next to a cipher, as under AES-GCM (RFC 5647 section 7.2) and in
// the encrypt-then-MAC modes of OpenSSH.
#[derive(Clone, Copy)]
pub(crate) struct Blocks {
    pub(crate) size: usize,
    pub(crate) counts_length: bool,
}

impl Model for Blocks {
    ghost use Rattle.ssh_model.specs.Protocol.Wire.Packet as packet;

    ghost Value = { packet.Blocks };

    ghost view = { λ b. record { size = b.size; counts_length = b.counts_length } };

    ghost invariant = { λ b. packet.IsBlock b.size };

    ghost inverse = { λ b. record { size = b.size; counts_length = b.counts_length } };
}
