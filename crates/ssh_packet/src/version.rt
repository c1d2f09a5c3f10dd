ghost use Rattle.std.specs.Prelude.{◌≡◌, ◌<◌, ◌↔◌, ◌==◌, IfSome, IsTrue, List, length, not, position, ℕ};
ghost use Rattle.ssh_model.specs.Protocol.Wire.Line.{IsAccepted, IsOther, is_version_byte as is_printable};
ghost use Rattle.ssh_packet.specs.LineKinds.{HasSoftware, IsKind};

use crate::refusal::LineRefusal;
use ssh_types::bounds::MOST_OTHER_LINES;

// The kind of a whole line; for a version line, with the place of its second minus.
#[derive(Clone, Copy)]
pub(crate) enum LineKind {
    Other,
    Version(usize),
    Refused(LineRefusal),
}

// The kind of a whole line of this text, from this peer and after this many other lines.
pub(crate) fn judge(from_server: bool, others: usize, text: &[u8]) -> LineKind
    ensures { IsKind from_server others text.now result }
{
    let Some(rest) = text.strip_prefix(b"SSH-") else {
        return other_line(from_server, others);
    };
    let Some(minus) = first_minus(rest) else {
        return LineKind::Refused(LineRefusal::BadLine);
    };
    if !is_accepted(from_server, &rest[..minus]) {
        return LineKind::Refused(LineRefusal::BadVersion);
    }
    if !is_software(&rest[minus + 1..]) {
        return LineKind::Refused(LineRefusal::BadLine);
    }
    LineKind::Version(minus + 4)
}

// The kind of a line that doesn't begin with `SSH-`.
fn other_line(from_server: bool, others: usize) -> LineKind
    ensures { (text : List ℕ) → IsOther text → IsKind from_server others text result }
{
    if from_server && others < MOST_OTHER_LINES {
        LineKind::Other
    } else {
        LineKind::Refused(LineRefusal::BadLine)
    }
}

// The place of the first minus.
fn first_minus(bytes: &[u8]) -> Option<usize>
    ensures place { result ≡ position (λ b. b == 45) bytes.now }
    ensures within { IfSome result (λ at. at < length bytes.now) }
{
    bytes.iter().position(|byte| *byte == b'-')
}

// 2.0, and from a server 1.99, which means the same (RFC 4253 section 5.1).
fn is_accepted(from_server: bool, protoversion: &[u8]) -> bool
    ensures { IsTrue result ↔ IsAccepted from_server protoversion.now }
{
    protoversion == b"2.0".as_slice() || (from_server && protoversion == b"1.99".as_slice())
}

// The bytes are the version of the software and, after a space, the comments if there are any.
fn is_software(bytes: &[u8]) -> bool
    ensures { IsTrue result ↔ HasSoftware bytes.now }
{
    match version_end(bytes) {
        None => !bytes.is_empty(),
        Some(end) => end > 0 && bytes[end] == b' ',
    }
}

// The place of the first byte that no version has.
fn version_end(bytes: &[u8]) -> Option<usize>
    ensures place { result ≡ position (λ b. not (is_printable b)) bytes.now }
    ensures within { IfSome result (λ at. at < length bytes.now) }
{
    bytes.iter().position(|byte| !is_version_byte(*byte))
}

// Printable US-ASCII without the space, and no minus.
fn is_version_byte(byte: u8) -> bool
    ensures { result ≡ is_printable byte }
{
    (33..=126).contains(&byte) && byte != b'-'
}
