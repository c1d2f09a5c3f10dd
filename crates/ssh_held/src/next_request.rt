//! The next packet of a client, looked at before a server takes it.

ghost use Rattle.std.specs.Prelude.{◌≡◌, IfSome, IsSome, None, false, true};
ghost use Rattle.ssh_model.specs.Protocol.Wire.Message.{IsPayload, Msg.UserauthRequest};
ghost use Rattle.ssh_message.specs.Meaning.{method_meaning};
ghost use Rattle.ssh_held.specs.Asking.{RequestFits};
ghost use Rattle.ssh_held.specs.Held.{IsAnswered, IsWanted};

use crate::asking::{Request, request_in};
use crate::book::Verdicts;
use crate::known_algorithms::KnowsAlgorithms;
use ssh_auth::UserJudge;
use ssh_end_machine::{End, EndRole};
use ssh_packet::PacketReader;
use std::marker::Model;

/// A reader of the next packet, and whether that is a request on which an answer is wanted.
#[derive(Drop)]
pub struct NextRequest {
    reader: PacketReader,
    is_wanted: bool,
}

impl Model for NextRequest {
    ghost use Rattle.std.specs.Prelude.{◌≡◌, true};
    ghost use Rattle.ssh_held.specs.Held.{IsRequest, Next};

    ghost Value = { Next };

    ghost view = { λ next. record { payload = next.reader.payload; is_wanted = next.is_wanted } };

    ghost invariant = { λ next. next.is_wanted ≡ true → IsRequest next.reader.payload };
}

impl NextRequest {
    /// Nothing is looked at yet.
    pub fn new(reader: PacketReader) -> NextRequest
        ensures { result.is_wanted ≡ false }
    {
        NextRequest {
            reader,
            is_wanted: false,
        }
    }

    /// Looks at the next packet of this server, and tests whether that is a request that asks the program, which has said nothing on it, or
    /// nothing on its signature, by this book.
    pub fn look<R: EndRole, S: UserJudge + KnowsAlgorithms + Copy + Drop>(
        &mut self,
        end: &End<R>,
        book: &Verdicts<S>,
        bytes: &[u8],
    ) -> bool
        ensures shown { self.new.is_wanted ≡ result }
        ensures wanted { result ≡ true → IsWanted R.Exchange.Sealing.crypto end.now.machine (S.knows book.now.signatures)
            book.now.list.items bytes.now self.new.payload }
        ensures answered { result ≡ false → IsAnswered R.Exchange.Sealing.crypto end.now.machine (S.knows book.now.signatures)
            book.now.list.items bytes.now }
    {
        let is_wanted = unanswered_request(end, book, &mut self.reader, bytes);
        self.is_wanted = is_wanted;
        is_wanted
    }

    /// The request on which an answer is wanted. Its texts are slices of the reader's buffer.
    pub fn request(&self) -> Option<Request<'_>>
        ensures is { IfSome result (λ request. IsPayload false (UserauthRequest request.user.now request.service.now
            (method_meaning request.method)) self.now.payload) }
        ensures fits { IfSome result (λ request. RequestFits request) }
        ensures some { self.now.is_wanted ≡ true → IsSome result }
        ensures none { self.now.is_wanted ≡ false → result ≡ None }
    {
        if !self.is_wanted {
            return None;
        }
        request_in(self.reader.payload())
    }
}

/// Tests whether the next packet of a server is a request that asks the program, which has said nothing on it, or nothing on its
/// signature, by this book. The other reader then shows it. Once the user is authenticated, nothing is looked at.
pub fn unanswered_request<R: EndRole, S: UserJudge + KnowsAlgorithms + Copy + Drop>(
    end: &End<R>,
    book: &Verdicts<S>,
    ahead: &mut PacketReader,
    bytes: &[u8],
) -> bool
    ensures wanted { result ≡ true → IsWanted R.Exchange.Sealing.crypto end.now.machine (S.knows book.now.signatures)
        book.now.list.items bytes.now ahead.new.payload }
    ensures answered { result ≡ false → IsAnswered R.Exchange.Sealing.crypto end.now.machine (S.knows book.now.signatures)
        book.now.list.items bytes.now }
{
    if end.is_authenticated() {
        return false;
    }
    if !end.peek(bytes, ahead) {
        return false;
    }
    let Some(request) = request_in(ahead.payload()) else {
        return false;
    };
    if !request.asks() {
        return false;
    }
    !book.settles(request.user, &request.method)
}
