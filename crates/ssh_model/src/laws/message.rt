ghost use Rattle.std.specs.Prelude.{◌≡◌, ◌<◌, ◌≤◌, ◌+◌, ◌^◌, Bool, List, [], length, ℕ, None, Some, codes};
ghost use Rattle.ssh_model.specs.Protocol.Bounds.{largest_data, longest_algorithm_name};
ghost use Rattle.ssh_model.specs.Protocol.Bounds.{longest_description, longest_payload, longest_user_key};
ghost use Rattle.ssh_model.specs.Protocol.Wire.Message.{Msg, Msg.Disconnect, Msg.Unimplemented, Msg.ServiceRequest, Msg.ServiceAccept};
ghost use Rattle.ssh_model.specs.Protocol.Wire.Message.{Msg.NewKeys, Msg.KexEcdhInit, Msg.KexEcdhReply, Msg.UserauthSuccess};
ghost use Rattle.ssh_model.specs.Protocol.Wire.Message.{Msg.UserauthPkOk, Msg.GlobalRequest, Msg.RequestSuccess, Msg.RequestFailure};
ghost use Rattle.ssh_model.specs.Protocol.Wire.Message.{Msg.ChannelOpen, Msg.ChannelOpenConfirmation, Msg.ChannelOpenFailure};
ghost use Rattle.ssh_model.specs.Protocol.Wire.Message.{Msg.ChannelWindowAdjust, Msg.ChannelData, Msg.ChannelExtendedData, Msg.ChannelEof};
ghost use Rattle.ssh_model.specs.Protocol.Wire.Message.{Msg.ChannelClose, Msg.ChannelRequest, Msg.ChannelSuccess, Msg.ChannelFailure};
ghost use Rattle.ssh_model.specs.Protocol.Wire.Message.{Method.NoMethod, Method.Password, Method.Publickey, IsPayload, IsWrittenPayload};
ghost use Rattle.ssh_model.specs.Protocol.Wire.Message.{message_number};
ghost use Rattle.ssh_model.specs.Protocol.Sessions.Sizes.{request_size};
ghost use Rattle.ssh_model.specs.Protocol.Sessions.TurnClaims.{HasEncoding};
ghost use Rattle.ssh_model.specs.Protocol.Authentication.Rows.{password_size, probe_size, sign_size};
ghost use Rattle.ssh_model.specs.State.Authentication.Kept.{request_by};
ghost use Rattle.ssh_model.specs.Protocol.Sessions.Turns.{number_of};
ghost use Rattle.ssh_model.specs.Laws.Sizes.{HasPayloadSize};

/// A payload is one message at most, for an end that waits for the answer to a key probe (RFC 4252 section 7) and for
/// one that does not.
#[tactic(auto, using(crate::proofs::Wire::OneMessage::same_message))]
pub fn one_message()
    ensures { (probing : Bool) (m n : Msg) (payload : List ℕ) → IsPayload probing m payload → IsPayload probing n payload → m ≡ n }
{}

/// A payload, as it is written, has the size of its message.
#[tactic(auto, using(crate::proofs::Wire::Sizes::payload_sized))]
pub fn payload_sizes()
    ensures { (message : Msg) (payload : List ℕ) → IsWrittenPayload message payload → HasPayloadSize message payload }
{}

/// The first byte of a payload is the number of its message.
pub fn payload_numbers()
    ensures { (probing : Bool) (m : Msg) (payload : List ℕ) → IsPayload probing m payload → number_of payload ≡ message_number m }
{}

/// A message that an end sends has a payload that encodes it and fits into a packet, if its numbers are uint32s and its texts within
/// their bounds.
pub fn encodings()
    ensures disconnect { (reason : ℕ) (description : List ℕ) → reason < 2 ^ 32 → length description ≤ longest_description →
        HasEncoding (Disconnect reason description []) }
    ensures unimplemented { (number : ℕ) → number < 2 ^ 32 → HasEncoding (Unimplemented number) }
    ensures service_request { (service : List ℕ) → length service ≤ 100 → HasEncoding (ServiceRequest service) }
    ensures service_accept { (service : List ℕ) → length service ≤ 100 → HasEncoding (ServiceAccept service) }
    ensures newkeys { HasEncoding NewKeys }
    ensures init { (q_c : List ℕ) → length q_c ≤ 32 → HasEncoding (KexEcdhInit q_c) }
    ensures reply { (k_s q_s signature : List ℕ) → length k_s ≤ 4096 → length q_s ≤ 32 → length signature ≤ 4096 →
        HasEncoding (KexEcdhReply k_s q_s signature) }
    ensures success { HasEncoding UserauthSuccess }
    ensures key_ok { (algorithm key : List ℕ) → length algorithm ≤ longest_algorithm_name → length key ≤ longest_user_key →
        HasEncoding (UserauthPkOk algorithm key) }
    ensures global_request { (name : List ℕ) (want : Bool) (rest : List ℕ) → 2 + (4 + length name) + length rest ≤ longest_payload →
        HasEncoding (GlobalRequest name want rest) }
    ensures request_success { (rest : List ℕ) → 1 + length rest ≤ longest_payload → HasEncoding (RequestSuccess rest) }
    ensures request_failure { HasEncoding RequestFailure }
    ensures channel_open { (kind : List ℕ) (sender window max : ℕ) (rest : List ℕ) → sender < 2 ^ 32 → window < 2 ^ 32 → max < 2 ^ 32 →
        13 + (4 + length kind) + length rest ≤ longest_payload → HasEncoding (ChannelOpen kind sender window max rest) }
    ensures confirmation { (recipient sender window max : ℕ) (rest : List ℕ) → recipient < 2 ^ 32 → sender < 2 ^ 32 → window < 2 ^ 32 →
        max < 2 ^ 32 → 17 + length rest ≤ longest_payload → HasEncoding (ChannelOpenConfirmation recipient sender window max rest) }
    ensures open_failure { (recipient reason : ℕ) → recipient < 2 ^ 32 → reason < 2 ^ 32 →
        HasEncoding (ChannelOpenFailure recipient reason [] []) }
    ensures adjust { (recipient bytes : ℕ) → recipient < 2 ^ 32 → bytes < 2 ^ 32 → HasEncoding (ChannelWindowAdjust recipient bytes) }
    ensures plain_data { (recipient : ℕ) (body : List ℕ) → recipient < 2 ^ 32 → length body ≤ largest_data →
        HasEncoding (ChannelData recipient body) }
    ensures extended_data { (recipient kind : ℕ) (body : List ℕ) → recipient < 2 ^ 32 → kind < 2 ^ 32 → length body ≤ largest_data →
        HasEncoding (ChannelExtendedData recipient kind body) }
    ensures eof { (recipient : ℕ) → recipient < 2 ^ 32 → HasEncoding (ChannelEof recipient) }
    ensures close { (recipient : ℕ) → recipient < 2 ^ 32 → HasEncoding (ChannelClose recipient) }
    ensures request { (recipient : ℕ) (name : List ℕ) (want : Bool) (rest : List ℕ) → recipient < 2 ^ 32 →
        6 + (4 + length name) + length rest ≤ longest_payload → HasEncoding (ChannelRequest recipient name want rest) }
    ensures channel_success { (recipient : ℕ) → recipient < 2 ^ 32 → HasEncoding (ChannelSuccess recipient) }
    ensures channel_failure { (recipient : ℕ) → recipient < 2 ^ 32 → HasEncoding (ChannelFailure recipient) }
{}

/// Each request of a user that is not too long to be asked for has such a payload too.
pub fn request_encodings()
    ensures none { (user : List ℕ) → request_size user (codes "none") ≤ longest_payload → HasEncoding (request_by user NoMethod) }
    ensures password { (user password : List ℕ) → password_size user password ≤ longest_payload →
        HasEncoding (request_by user (Password password None)) }
    ensures probe { (user algorithm key : List ℕ) → probe_size user algorithm key ≤ longest_payload →
        HasEncoding (request_by user (Publickey algorithm key None)) }
    ensures sign { (user algorithm key signature : List ℕ) → sign_size user algorithm key ≤ longest_payload → length signature ≤ 4096 →
        HasEncoding (request_by user (Publickey algorithm key (Some signature))) }
{}
