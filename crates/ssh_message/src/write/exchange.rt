// The messages of a key exchange (RFC 4253 section 7.1 and RFC 5656 section 4).

ghost use Rattle.std.specs.Prelude.{◌≡◌, OnOk, OnErr, ◌<◌, ◌+◌, length, vec_capacity};
ghost use Rattle.ssh_model.specs.Laws.Sizes.{payload_size};
ghost use Rattle.ssh_model.specs.Protocol.Wire.DataTypes.{IsWrittenBoolean};
ghost use Rattle.ssh_model.specs.Laws.Reading.{Writes};
ghost use Rattle.ssh_model.specs.Protocol.Wire.Message.{IsRow, KexInit, KexEcdhInit, KexEcdhReply};
ghost use Rattle.ssh_message.specs.Meaning.{proposal_meaning};
ghost use Rattle.ssh_message.specs.Written.{IsShort, ProposalFits};

use crate::message::Proposal;
use crate::write::field::Field;
use crate::write::row::put_row;
use std::alloc::AllocError;

pub(crate) fn kexinit(out: &mut Vec<u8>, proposal: &Proposal<'_>) -> Result<(), AllocError>
    requires { ProposalFits proposal.now }
    ensures written { OnOk result (Writes (IsRow IsWrittenBoolean (KexInit (proposal_meaning proposal.now))) out.old.items out.new.items) }
    ensures kept { OnErr result (out.new.items ≡ out.old.items) }
    ensures full { OnErr result (vec_capacity out.old < length out.old.items + payload_size (KexInit (proposal_meaning proposal.now))) }
{
    let fields = [
        Field::Cookie(proposal.cookie),
        Field::Names(proposal.kex),
        Field::Names(proposal.host),
        Field::Names(proposal.enc_cs),
        Field::Names(proposal.enc_sc),
        Field::Names(proposal.mac_cs),
        Field::Names(proposal.mac_sc),
        Field::Names(proposal.comp_cs),
        Field::Names(proposal.comp_sc),
        Field::Names(proposal.lang_cs),
        Field::Names(proposal.lang_sc),
        Field::Boolean(proposal.follows),
        Field::Uint32(0),
    ];
    put_row(out, 20, &fields, b"")
}

pub(crate) fn kex_ecdh_init(out: &mut Vec<u8>, q_c: &[u8]) -> Result<(), AllocError>
    requires { IsShort q_c.now }
    ensures written { OnOk result (Writes (IsRow IsWrittenBoolean (KexEcdhInit q_c.now)) out.old.items out.new.items) }
    ensures kept { OnErr result (out.new.items ≡ out.old.items) }
    ensures full { OnErr result (vec_capacity out.old < length out.old.items + payload_size (KexEcdhInit q_c.now)) }
{
    put_row(out, 30, &[Field::Text(q_c)], b"")
}

pub(crate) fn kex_ecdh_reply<'a>(
    out: &mut Vec<u8>,
    k_s: &'a [u8],
    q_s: &'a [u8],
    signature: &'a [u8],
) -> Result<(), AllocError>
    // What the caller must ensure.
    requires k_s { IsShort k_s.now }
    requires q_s { IsShort q_s.now }
    requires signature { IsShort signature.now }
    // What it does.
    ensures written { OnOk result (Writes (IsRow IsWrittenBoolean (KexEcdhReply k_s.now q_s.now signature.now)) out.old.items
        out.new.items) }
    // If it fails.
    ensures kept { OnErr result (out.new.items ≡ out.old.items) }
    ensures full { OnErr result (vec_capacity out.old < length out.old.items + payload_size (KexEcdhReply k_s.now q_s.now signature.now)) }
{
    put_row(
        out,
        31,
        &[Field::Text(k_s), Field::Text(q_s), Field::Text(signature)],
        b"",
    )
}
