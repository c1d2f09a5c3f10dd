//! How a request is judged (RFC 4252).

ghost use Rattle.std.specs.Prelude.{◌≡◌, ◌<◌, ◌≤◌, ◌&&◌, IfOk, IsTrue, OnErr, Some, codes, length, vec_capacity};
ghost use Rattle.ssh_model.specs.Protocol.Bounds.{longest_algorithm_name, longest_user_key};
ghost use Rattle.ssh_model.specs.Protocol.Authentication.Requests.{is_configured as model_configured};
ghost use Rattle.ssh_model.specs.Protocol.Authentication.Requests.{is_known_key as model_known};
ghost use Rattle.ssh_types.specs.Values.{names};
ghost use Rattle.ssh_message.specs.Meaning.{method_meaning};
ghost use Rattle.ssh_message.specs.Written.{IsShort};
ghost use Rattle.ssh_auth.specs.Serving.{IsJudged, IsShortAnswer, LacksRoom};
ghost use Rattle.ssh_auth.specs.Texts.{IsShortText, text_of};

use crate::answer::ServerAnswer;
use crate::configured::{CONNECTION, PASSWORD, PUBLICKEY, is_configured};
use crate::parts::UserJudge;
use crate::signed_text::{SignedText, put_signed_text};
use ssh_message::Method;
use ssh_types::NameList;
use ssh_types::bounds::{LONGEST_ALGORITHM_NAME, LONGEST_USER_KEY};
use std::alloc::AllocError;

// A request that is judged: who asks for which service, and how (RFC 4252 section 5).
#[derive(Clone, Copy)]
pub(crate) struct Request<'a> {
    pub(crate) user: &'a [u8],
    pub(crate) service: &'a [u8],
    pub(crate) method: Method<'a>,
}

// Judges a request: it is accepted, a good probe, or fails. The text that a signature covers is put into `room`. An error comes only if
// the text does not fit there, and memory is refused.
pub(crate) fn judge_request<'a, J: UserJudge>(
    room: &mut Vec<u8>,
    judge: &J,
    methods: &NameList<'_>,
    session: &[u8; 32],
    request: &Request<'a>,
) -> Result<ServerAnswer<'a>, AllocError>
    requires { IsShort request.now.user.now }
    ensures judged { IfOk result (λ answer. IsJudged (J.verdicts judge.now) (names methods.now) session.now request.now.user.now
        request.now.service.now (method_meaning request.now.method) answer) }
    ensures short { IfOk result (λ answer. IsShortAnswer answer) }
    ensures memory { OnErr result (LacksRoom (vec_capacity room.old) (J.verdicts judge.now) (names methods.now) session.now
        request.now.user.now request.now.service.now (method_meaning request.now.method)) }
    ensures grows { vec_capacity room.old ≤ vec_capacity room.new }
{
    if request.service != CONNECTION {
        return Ok(ServerAnswer::Failed);
    }
    judge_method(room, judge, methods, session, request.user, &request.method)
}

// Judges a request for the connection.
fn judge_method<'a, J: UserJudge>(
    room: &mut Vec<u8>,
    judge: &J,
    methods: &NameList<'_>,
    session: &[u8; 32],
    user: &'a [u8],
    method: &Method<'a>,
) -> Result<ServerAnswer<'a>, AllocError>
    requires { IsShort user.now }
    ensures judged { IfOk result (λ answer. IsJudged (J.verdicts judge.now) (names methods.now) session.now user.now
        (codes "ssh-connection") (method_meaning method.now) answer) }
    ensures short { IfOk result (λ answer. IsShortAnswer answer) }
    ensures memory { OnErr result (LacksRoom (vec_capacity room.old) (J.verdicts judge.now) (names methods.now) session.now user.now
        (codes "ssh-connection") (method_meaning method.now)) }
    ensures grows { vec_capacity room.old ≤ vec_capacity room.new }
{
    let right = match *method {
        Method::None => judge.none(user),
        Method::Password {
            password,
            new_password: None,
        } => is_password(judge, methods, user, password),
        Method::Publickey {
            algorithm,
            key,
            signature,
        } => {
            if !is_key(judge, methods, user, algorithm, key) {
                return Ok(ServerAnswer::Failed);
            }
            let Some(signature) = signature else {
                return Ok(ServerAnswer::KeyOk { algorithm, key });
            };
            let text = SignedText::for_connection(session, user, algorithm, key);
            is_signed(room, judge, &text, signature)?
        }
        _ => false,
    };
    Ok(if right {
        ServerAnswer::Accepted
    } else {
        ServerAnswer::Failed
    })
}

// Tests whether the server names passwords and this one is right.
fn is_password<J: UserJudge>(
    judge: &J,
    methods: &NameList<'_>,
    user: &[u8],
    password: &[u8],
) -> bool
    ensures { result ≡ (model_configured (names methods.now) (codes "password")
        && (J.verdicts judge.now).password_is_right user.now password.now) }
{
    is_configured(methods, PASSWORD) && judge.password(user, password)
}

// Tests whether the server names public keys and knows this one.
fn is_key<J: UserJudge>(
    judge: &J,
    methods: &NameList<'_>,
    user: &[u8],
    algorithm: &[u8],
    key: &[u8],
) -> bool
    ensures known { result ≡ (model_configured (names methods.now) (codes "publickey")
        && model_known (J.verdicts judge.now) user.now algorithm.now key.now) }
    ensures short { IsTrue result → length algorithm.now ≤ longest_algorithm_name }
    ensures key { IsTrue result → length key.now ≤ longest_user_key }
{
    is_configured(methods, PUBLICKEY) && is_known_key(judge, user, algorithm, key)
}

// Tests whether the key is the user's. A longer one than is known is not put to the judge.
fn is_known_key<J: UserJudge>(judge: &J, user: &[u8], algorithm: &[u8], key: &[u8]) -> bool
    ensures known { result ≡ model_known (J.verdicts judge.now) user.now algorithm.now key.now }
    ensures short { IsTrue result → length algorithm.now ≤ longest_algorithm_name }
    ensures key { IsTrue result → length key.now ≤ longest_user_key }
{
    key.len() <= LONGEST_USER_KEY
        && algorithm.len() <= LONGEST_ALGORITHM_NAME
        && judge.key_known(user, algorithm, key)
}

// Tests whether the signature of this text by its key is right.
fn is_signed<J: UserJudge>(
    room: &mut Vec<u8>,
    judge: &J,
    text: &SignedText<'_>,
    signature: &[u8],
) -> Result<bool, AllocError>
    requires text { IsShortText text.now }
    requires named { length text.now.algorithm.now ≤ longest_algorithm_name }
    requires short { length text.now.key.now ≤ longest_user_key }
    ensures right { IfOk result (λ right. right ≡ (J.verdicts judge.now).signature_is_right text.now.algorithm.now text.now.key.now
        (text_of text.now) signature.now) }
    ensures full { OnErr result (vec_capacity room.old < length (text_of text.now)) }
    ensures grows { vec_capacity room.old ≤ vec_capacity room.new }
{
    room.clear();
    put_signed_text(room, text)?;
    Ok(judge.signature(text.algorithm, text.key, room.as_slice(), signature))
}
