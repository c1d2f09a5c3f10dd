//! The result that an end shares with its peer's point (RFC 8731 section 3).

ghost use Rattle.std.specs.Prelude.{◌≡◌, ◌==◌, if◌then◌else◌, IfSome, None, length};
ghost use Rattle.ssh_model.specs.State.TransportLayer.Kept.{shared_with};

use crate::machine::Machine;
use ssh_kex::Agreement;
use ssh_packet::Sealing;

impl<S: Sealing> Machine<S> {
    /// The result that the secret of the exchange under way shares with the peer's point; `None` if that has not 32 bytes, or shares
    /// nothing.
    pub fn shared<A: Agreement>(&self, agreement: &A, theirs: &[u8]) -> Option<[u8; 32]>
        ensures { result ≡ (if length theirs.now == 32 then shared_with (A.does agreement.now)
            self.now.kept.underway.secret theirs.now else None) }
    {
        match point_in(theirs) {
            Some(point) => self.shared_with_point(agreement, point),
            None => None,
        }
    }

    // The same of 32 bytes.
    fn shared_with_point<A: Agreement>(&self, agreement: &A, theirs: &[u8; 32]) -> Option<[u8; 32]>
        ensures { result ≡ shared_with (A.does agreement.now) self.now.kept.underway.secret theirs.now }
    {
        match agreement.shared(&self.secret, theirs) {
            Some(shared) => {
                ssh_types::laws::are_bytes(&shared);
                ssh_types::laws::has_32_bytes(&shared);
                Some(shared)
            }
            None => None,
        }
    }

    /// The public point of the secret of the exchange under way.
    pub fn own_point<A: Agreement>(&self, agreement: &A) -> [u8; 32]
        ensures { result ≡ (A.does agreement.now).point self.now.kept.underway.secret }
    {
        agreement.public(&self.secret)
    }
}

// The bytes of a point, where there are 32.
fn point_in(bytes: &[u8]) -> Option<&[u8; 32]>
    ensures same { IfSome result (λ point. point.now ≡ bytes.now) }
    ensures size { IfSome result (λ point. length bytes.now ≡ 32) }
    ensures none { result ≡ None → length bytes.now ≡ 32 → ⊥ }
{
    let (point, rest) = bytes.split_first_chunk::<32>()?;
    if rest.is_empty() { Some(point) } else { None }
}
