use ssh_types::Refusal;
use thiserror::Error;

/// Why the bytes of the peer are no packet (RFC 4253 section 6). As text it is a sentence for a log.
#[derive(Clone, Copy, Debug, PartialEq, Eq, Error)]
pub enum PacketRefusal {
    /// No packet has this length field: it makes no whole blocks, fewer bytes than the least packet has, or more than 35,000
    /// with the tag. It comes as soon as the field's four bytes are there.
    #[error("no packet has this length")]
    BadLength,
    /// The padding is shorter than four bytes, or leaves no payload. It comes once the whole packet is there, and only
    /// under a good tag.
    #[error("the padding of a packet is malformed")]
    BadPadding,
    /// The tag is not the one of this key, number and packet (RFC 4253 section 6.4). It comes once the whole packet is
    /// there.
    #[error("the tag of a packet is wrong")]
    BadTag,
}

impl From<PacketRefusal> for Refusal {
    ghost use Rattle.std.specs.Prelude.{◌≡◌};
    ghost use Rattle.ssh_packet.specs.Refusals.{packet_refusal};

    ghost from_gives = { λ refusal all. all ≡ packet_refusal refusal };

    fn from(refusal: PacketRefusal) -> Refusal {
        match refusal {
            PacketRefusal::BadLength => Refusal::BadLength,
            PacketRefusal::BadPadding => Refusal::BadPadding,
            PacketRefusal::BadTag => Refusal::BadTag,
        }
    }
}

/// Why the bytes of the peer are no line that may come before its first packet (RFC 4253 section 4.2). As text it is a
/// sentence for a log.
#[derive(Clone, Copy, Debug, PartialEq, Eq, Error)]
pub enum LineRefusal {
    /// A line is malformed or too long, or an other line came from a client or after 64 of a server. It comes with the
    /// byte that makes the line bad.
    #[error("a line before the first packet is malformed")]
    BadLine,
    /// The version line names a version of the protocol other than 2.0 and, from a server, 1.99 (RFC 4253 section 5.1).
    /// It comes once the whole line is there.
    #[error("the version of the protocol is not 2.0")]
    BadVersion,
}

impl From<LineRefusal> for Refusal {
    ghost use Rattle.std.specs.Prelude.{◌≡◌};
    ghost use Rattle.ssh_packet.specs.Refusals.{line_refusal};

    ghost from_gives = { λ refusal all. all ≡ line_refusal refusal };

    fn from(refusal: LineRefusal) -> Refusal {
        match refusal {
            LineRefusal::BadLine => Refusal::BadLine,
            LineRefusal::BadVersion => Refusal::BadVersion,
        }
    }
}
