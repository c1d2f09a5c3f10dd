//! The signature for a login that a client's program gives.

ghost use Rattle.std.specs.Prelude.{◌≡◌, ◌++◌, ◌∷◌, [], Err, IfErr, IfOk, List, None, OnErr, OnOk, Some, false, true};
ghost use Rattle.ssh_model.specs.Protocol.Sessions.Items.{Item};
ghost use Rattle.ssh_model.specs.Protocol.Sessions.Parties.{Parties};
ghost use Rattle.ssh_types.specs.declared.call_error.CallError.TheVariants as CallError;
ghost use Rattle.ssh_held.specs.Signing.{AddsSignature, SigningAt, fits, is_known_in, is_known_to, is_sized, longest_text, text_in};

use crate::login_text::{TextRefusal, write_text_to_sign};
use crate::signing::{GivenSignature, GivenSignatures, is_sized};
use crate::texts;
use ssh_auth::UserSigner;
use ssh_end_machine::{ClientEnd, End, EndRole};
use ssh_packet::Sealing;
use ssh_transport_machine::ClientParts;
use ssh_types::CallError;
use std::alloc::{AllocError, Global};

// The most bytes of a text that is signed. One of a login that fits into a packet has fewer: what the packet has of it, and the session id.
const LONGEST_TEXT: usize = 35_036;

/// Why a signature is not taken.
#[derive(Clone, Copy, Debug, PartialEq, Eq)]
pub enum SignatureRefusal {
    /// The client is over.
    Over,
    /// There is no text to sign.
    Text(TextRefusal),
    /// It has no bytes, or more than 4,096.
    Size,
    /// A signature of this text is known already.
    Known,
}

/// Tests whether a client knows a signature for a login of this user by this key, in its session: by its own signer, or since the program gave
/// one. Without one it is not to be asked for this login (`ssh_auth::UserAsk::Sign`), since it would send no signature.
///
/// # Errors
///
/// - `NotYet`: the session has no id yet.
/// - `TooLong`: the text has more than 35,036 bytes, so that no packet can have the login.
pub fn knows_signature<P: ClientParts, U: UserSigner + Copy + Drop>(
    end: &ClientEnd<P, GivenSignatures<U>>,
    user: &[u8],
    algorithm: &[u8],
    key: &[u8],
) -> Result<bool, TextRefusal>
    ensures known { IfOk result (λ known. known ≡ is_known_in (is_known_to U.signature_of end.now.role.own.signer)
        end.now.machine.kept.session user.now algorithm.now key.now) }
    // Which fault is answered: the first that holds.
    ensures early { end.now.machine.kept.session ≡ None → result ≡ Err TextRefusal.NotYet }
    ensures long { (end.now.machine.kept.session ≡ None → ⊥) → fits longest_text user.now algorithm.now key.now ≡ false →
        result ≡ Err TextRefusal.TooLong }
    ensures otherwise { (end.now.machine.kept.session ≡ None → ⊥) → fits longest_text user.now algorithm.now key.now ≡ true →
        IfErr result (λ why. ⊥) }
{
    let mut room = [0; LONGEST_TEXT];
    let count = write_text_to_sign(end, user, algorithm, key, &mut room)?;
    Ok(end.user().knows(user, algorithm, key, &room[..count]))
}

/// Gives a client the signature for a login of this user by this key, in its session: one of the text of `write_text_to_sign`, which an agent
/// made with this key. The client can log in by it from here on (`knows_signature`).
///
/// # Errors
///
/// Nothing changes.
///
/// - `Over`: the client is over.
/// - `Text`: there is no text to sign.
/// - `Size`: the signature has no bytes, or more than 4,096.
/// - `Known`: a signature for this login is known already.
/// - `Memory`: memory was refused.
pub fn give_signature<P: ClientParts, U: UserSigner + Copy + Drop>(
    alloc: Global,
    end: &mut ClientEnd<P, GivenSignatures<U>>,
    user: &[u8],
    algorithm: &[u8],
    key: &[u8],
    signature: &[u8],
) -> Result<(), CallError<SignatureRefusal>>
    // What it does.
    ensures given { OnOk result (AddsSignature end.old.machine.kept.session user.now algorithm.now key.now signature.now
        end.old.role.own.signer.list.items end.new.role.own.signer.list.items) }
    ensures fresh { OnOk result (is_known_in (is_known_to U.signature_of end.old.role.own.signer) end.old.machine.kept.session user.now
        algorithm.now key.now ≡ false) }
    ensures same { OnErr result (end.new.role.own.signer.list.items ≡ end.old.role.own.signer.list.items) }
    ensures own { end.new.role.own.signer.own ≡ end.old.role.own.signer.own }
    ensures rest { end.new ≡ record end.old {
      role = record end.old.role { own = record end.old.role.own { signer = end.new.role.own.signer } };
    } }
    // Which fault is answered: the first that holds, or that memory was refused.
    ensures over { end.old.machine.kept.dead ≡ true → result ≡ Err (CallError.Refused SignatureRefusal.Over) }
    ensures early { end.old.machine.kept.dead ≡ false → end.old.machine.kept.session ≡ None →
        result ≡ Err (CallError.Refused (SignatureRefusal.Text TextRefusal.NotYet)) }
    ensures long { end.old.machine.kept.dead ≡ false → (end.old.machine.kept.session ≡ None → ⊥) →
        fits longest_text user.now algorithm.now key.now ≡ false →
        result ≡ Err (CallError.Refused (SignatureRefusal.Text TextRefusal.TooLong)) }
    ensures size { end.old.machine.kept.dead ≡ false → (end.old.machine.kept.session ≡ None → ⊥) →
        fits longest_text user.now algorithm.now key.now ≡ true → is_sized signature.now ≡ false →
        result ≡ Err (CallError.Refused SignatureRefusal.Size) }
    ensures known { end.old.machine.kept.dead ≡ false → (end.old.machine.kept.session ≡ None → ⊥) →
        fits longest_text user.now algorithm.now key.now ≡ true → is_sized signature.now ≡ true →
        is_known_in (is_known_to U.signature_of end.old.role.own.signer) end.old.machine.kept.session user.now algorithm.now key.now ≡ true →
        result ≡ Err (CallError.Refused SignatureRefusal.Known) }
    ensures otherwise { end.old.machine.kept.dead ≡ false → (end.old.machine.kept.session ≡ None → ⊥) →
        fits longest_text user.now algorithm.now key.now ≡ true → is_sized signature.now ≡ true →
        is_known_in (is_known_to U.signature_of end.old.role.own.signer) end.old.machine.kept.session user.now algorithm.now key.now ≡ false →
        IfErr result (λ fault. fault ≡ CallError.Memory) }
    // The next place of a run.
    ensures placed { (p : Parties P.Sealing.Key) (history : List Item) →
        SigningAt P.Sealing.crypto P.Agreement.does P.HostTrust.judged U.signature_of p end.old history →
        SigningAt P.Sealing.crypto P.Agreement.does P.HostTrust.judged U.signature_of p end.new history }
{
    if end.is_dead() {
        return Err(CallError::Refused(SignatureRefusal::Over));
    }
    let known = match knows_signature(end, user, algorithm, key) {
        Ok(known) => known,
        Err(why) => return Err(CallError::Refused(SignatureRefusal::Text(why))),
    };
    if !is_sized(signature) {
        return Err(CallError::Refused(SignatureRefusal::Size));
    }
    if known {
        return Err(CallError::Refused(SignatureRefusal::Known));
    }
    let given = GivenSignature {
        algorithm: texts::text(alloc, algorithm)?,
        key: texts::text(alloc, key)?,
        text: text_of_now(alloc, end, user, algorithm, key)?,
        signature: texts::text(alloc, signature)?,
    };
    add(alloc, end, given)?;
    Ok(())
}

// The text of a login, which fits into a packet, in the session that there is.
fn text_of_now<R: EndRole>(
    alloc: Global,
    end: &End<R>,
    user: &[u8],
    algorithm: &[u8],
    key: &[u8],
) -> Result<Vec<u8>, AllocError>
    requires id { end.now.machine.kept.session ≡ None → ⊥ }
    requires fits { fits longest_text user.now algorithm.now key.now ≡ true }
    ensures { IfOk result (λ text. text_in end.now.machine.kept.session user.now algorithm.now key.now ≡ Some text.items) }
{
    let mut room = [0; LONGEST_TEXT];
    match write_text_to_sign(end, user, algorithm, key, &mut room) {
        Ok(count) => texts::text(alloc, &room[..count]),
        Err(_) => unreachable!(),
    }
}

// Adds a signature to those that a live client has.
fn add<P: ClientParts, U: UserSigner + Copy + Drop>(
    alloc: Global,
    end: &mut ClientEnd<P, GivenSignatures<U>>,
    given: GivenSignature,
) -> Result<(), AllocError>
    ensures given { OnOk result (end.new.role.own.signer.list.items ≡ end.old.role.own.signer.list.items ++ given ∷ []) }
    ensures same { OnErr result (end.new.role.own.signer.list.items ≡ end.old.role.own.signer.list.items) }
    ensures own { end.new.role.own.signer.own ≡ end.old.role.own.signer.own }
    ensures rest { end.new ≡ record end.old {
      role = record end.old.role { own = record end.old.role.own { signer = end.new.role.own.signer } };
    } }
    ensures placed { (p : Parties P.Sealing.Key) (history : List Item) → end.old.machine.kept.dead ≡ false →
        SigningAt P.Sealing.crypto P.Agreement.does P.HostTrust.judged U.signature_of p end.old history →
        SigningAt P.Sealing.crypto P.Agreement.does P.HostTrust.judged U.signature_of p end.new history }
{
    ssh_end_machine::parts_laws::parts_exchanged::<<P::Sealing as Sealing>::Key>();
    crate::signing_laws::signatures_added::<<P::Sealing as Sealing>::Key>();
    let none = GivenSignatures::new(alloc, end.user().own);
    let mut signer = end.replace_user(none);
    let done = signer.give(given);
    end.replace_user(signer);
    done
}
