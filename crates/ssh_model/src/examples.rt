//! The definitions applied to two toy ends.

ghost use Rattle.std.specs.Prelude.{◌≡◌, ℕ, ◌∷◌, ◌++◌, true, false, List, [], Some, None, codes, replicate, length, take, map};
ghost use Rattle.ssh_model.specs.Protocol.Bounds.{longest_description};
ghost use Rattle.ssh_model.specs.declared.side.Side.{Side};
ghost use Rattle.ssh_model.specs.declared.side.Side.TheVariants.{Client, Server};
ghost use Rattle.ssh_model.specs.Protocol.Side.{peer, part};
ghost use Rattle.ssh_model.specs.Protocol.Lists.{IsIn};
ghost use Rattle.ssh_model.specs.Example.Histories.{taken, refusal, ask_refusal, says, hears, says_on, offer_of, opened, lined, offered};
ghost use Rattle.ssh_model.specs.Example.Histories.{first_reply, completed, keyed, userauth, connection, asking, served, right_request};
ghost use Rattle.ssh_model.specs.Example.Histories.{wrong_request, probe, right_signature, requesting, probing_client, failed, admitted};
ghost use Rattle.ssh_model.specs.Example.Histories.{fed_again, rekeying, offered_again, completed_again, open_message, confirm_message};
ghost use Rattle.ssh_model.specs.Example.Histories.{channel_opened, channel_confirmed, closed_by_peer, guessing, requests};
ghost use Rattle.ssh_model.specs.Example.Histories.{plain_crypto, first_inputs, mac_key};
ghost use Rattle.ssh_model.specs.Example.Toys.{toy_key, toy, secret, every_refusal, every_ask_refusal, from_to};
ghost use Rattle.ssh_model.specs.Example.Run.{session};
ghost use Rattle.ssh_model.specs.Protocol.Wire.Message.{Method.NoMethod, Method.Password, Method.Publickey, Method.Other, Msg.Disconnect};
ghost use Rattle.ssh_model.specs.Protocol.Wire.Message.{Msg.Ignore, Msg.Unimplemented, Msg.Debug, Msg.ServiceRequest, Msg.ServiceAccept};
ghost use Rattle.ssh_model.specs.Protocol.Wire.Message.{Msg.KexInit, Msg.NewKeys, Msg.KexEcdhInit, Msg.KexEcdhReply, Msg.UserauthRequest};
ghost use Rattle.ssh_model.specs.Protocol.Wire.Message.{Msg.UserauthFailure, Msg.UserauthSuccess, Msg.UserauthBanner, Msg.UserauthPkOk};
ghost use Rattle.ssh_model.specs.Protocol.Wire.Message.{Msg.GlobalRequest, Msg.RequestSuccess, Msg.RequestFailure, Msg.ChannelOpenFailure};
ghost use Rattle.ssh_model.specs.Protocol.Wire.Message.{Msg.ChannelWindowAdjust, Msg.ChannelData, Msg.ChannelExtendedData, Msg.ChannelEof};
ghost use Rattle.ssh_model.specs.Protocol.Wire.Message.{Msg.ChannelClose, Msg.ChannelRequest, Msg.ChannelSuccess, Msg.ChannelFailure};
ghost use Rattle.ssh_model.specs.Protocol.Wire.Message.{Msg.Unknown};
ghost use Rattle.ssh_model.specs.Protocol.Sessions.Refusals.{refusal_number, refusal_name, refusal_reason, ask_refusal_number};
ghost use Rattle.ssh_model.specs.Protocol.Sessions.Refusals.{ask_refusal_name};
ghost use Rattle.ssh_model.specs.declared.refusal.Refusal.{Refusal};
ghost use Rattle.ssh_model.specs.declared.refusal.Refusal.TheVariants.{Unexpected, NoCommon, NotStrict, NoService, TooManyTries};
ghost use Rattle.ssh_model.specs.declared.refusal.Refusal.TheVariants.{BadPoint, BadHost};
ghost use Rattle.ssh_model.specs.declared.ask_refusal.AskRefusal.{AskRefusal};
ghost use Rattle.ssh_model.specs.declared.ask_refusal.AskRefusal.TheVariants.{NotYet, Busy, TooLong};
ghost use Rattle.ssh_model.specs.declared.ask_refusal.AskRefusal.TheVariants.{WrongSide};
ghost use Rattle.ssh_model.specs.declared.request_kind.RequestKind.TheVariants as kind;
ghost use Rattle.ssh_model.specs.Protocol.Sessions.Parties.{AreLawful, marker_of, lists_of};
ghost use Rattle.ssh_model.specs.Protocol.Sessions.Items.{has_died, sent, took, Ask.AskService, Ask.AskNone, Ask.AskPassword, Ask.AskProbe};
ghost use Rattle.ssh_model.specs.Protocol.Sessions.Items.{Ask.AskSign, Ask.AskRekey, Ask.AskOpen, Ask.AskConfirm, Ask.AskRefuse};
ghost use Rattle.ssh_model.specs.Protocol.Sessions.Items.{Ask.AskData, Ask.AskAdjust, Ask.AskEof, Ask.AskClose, Ask.AskRequest};
ghost use Rattle.ssh_model.specs.Protocol.Sessions.Items.{Ask.AskReply, Ask.AskGlobal, Ask.AskGlobalReply, Ask.AskDisconnect};
ghost use Rattle.ssh_model.specs.Protocol.Sessions.Items.{Fact.Completed, Fact.Service, Fact.Accepted, Fact.Authenticated, Fact.Failed};
ghost use Rattle.ssh_model.specs.Protocol.Sessions.Items.{Fact.Banner, Fact.KeyOk, Fact.Ignored, Fact.Debugged, Fact.NotImplemented};
ghost use Rattle.ssh_model.specs.Protocol.Sessions.Items.{Fact.Disconnected, Fact.Opening, Fact.GotData, Fact.Ended, Item.TookGuess};
ghost use Rattle.ssh_model.specs.Protocol.Sessions.Items.{Item.Told, Item.Died};
ghost use Rattle.ssh_model.specs.Protocol.Sessions.Items.{Credential.ByPassword, Credential.ByKey};
ghost use Rattle.ssh_model.specs.Protocol.Sessions.Epochs.{epoch};
ghost use Rattle.ssh_model.specs.Protocol.KeyExchange.Exchange.{Inputs, exchange_hash, derived};
ghost use Rattle.ssh_model.specs.Protocol.KeyExchange.Exchanges.{sending_number, taking_number, exchange, exchanges, first_common, common};
ghost use Rattle.ssh_model.specs.Protocol.KeyExchange.Exchanges.{choice, iv_letter, cipher_letter, mac_letter, key_of, sending_key};
ghost use Rattle.ssh_model.specs.Protocol.KeyExchange.Exchanges.{taking_key};
ghost use Rattle.ssh_model.specs.Protocol.Sessions.Phases.{is_wrong_guess, own_names};
ghost use Rattle.ssh_model.specs.Protocol.Sessions.Transport.{hash_to_sign, reply_now};
ghost use Rattle.ssh_model.specs.Protocol.Sessions.Turns.{Answer, OnAsk, Run};
ghost use Rattle.ssh_model.specs.Protocol.Sessions.Honest.{IsHonest};
ghost use Rattle.ssh_model.specs.Protocol.Sessions.Claims.{TookUnder, HasAccepted};
ghost use Rattle.ssh_model.specs.Laws.Turns.{AreGood};
ghost use Rattle.ssh_model.specs.Protocol.KeyExchange.Choice.{client_marker, server_marker, Kind.Kex};

pub mod authentication;
pub mod channels;

/// The toy parts keep what is promised of parts, and the toy settings are good.
pub fn toy_parts()
    ensures lawful { AreLawful toy }
    ensures good { (side : Side) → AreGood toy side }
{}

/// There is an honest run of two ends: with two exchanges, of which the second has other keys, an accepted request, and
/// data on a channel.
pub fn honest_run()
    ensures runs { Run toy session }
    ensures honest { IsHonest toy session }
    ensures exchanges_twice { (side : Side) → length (exchanges toy side (part side session)) ≡ 2 }
    ensures accepted { HasAccepted toy session }
    ensures data_came { IsIn (Told (GotData 5 None (codes "hi"))) (part Server session) }
    ensures later_keys { TookUnder 1 (part Server session) }
    // What goes on holding.
    ensures live { (side : Side) → has_died (part side session) ≡ false }
{}

/// Which numbers, from 0 to 255, an end may take next.
pub fn may_take_examples()
    ensures at_first { (side : Side) → taken side (lined side) ≡ 1 ∷ 20 ∷ [] }
    ensures in_first_exchange { taken Client (offered Client) ≡ 1 ∷ 31 ∷ [] }
    ensures in_first_exchange_of_server { taken Server (offered Server) ≡ 1 ∷ 30 ∷ [] }
    ensures after_first_exchange { (side : Side) → taken side (completed side) ≡ 1 ∷ 21 ∷ [] }
    ensures after_wrong_guess { (side : Side) → taken side (hears (KexInit (guessing side true)) ∷ lined side) ≡ from_to 30 49 }
    ensures after_skipped_packet { taken Server (TookGuess [] ∷ hears (KexInit (guessing Server true)) ∷ lined Server) ≡ 1 ∷ 30 ∷ [] }
    ensures after_right_guess { taken Server (hears (KexInit (record (offer_of Client true) { follows = true })) ∷ lined Server) ≡ 1 ∷ 30
        ∷ [] }
    ensures by_keyed_server { taken Server (keyed Server) ≡ from_to 0 5 ++ from_to 8 19 ++ from_to 22 29 ++ from_to 32 49 ++ from_to 54 59
        ++ from_to 61 79 }
    ensures by_keyed_client { taken Client (keyed Client) ≡ from_to 0 4 ++ from_to 8 19 ++ from_to 22 29 ++ from_to 32 49 ++ from_to 54 59
        ++ from_to 61 79 }
    ensures by_server_after_service { taken Server (served Server) ≡ from_to 0 4 ++ from_to 8 19 ++ from_to 22 29 ++ from_to 32 50
        ++ from_to 54 59 ++ from_to 61 79 }
    ensures by_client_that_asks_for_service { taken Client asking ≡ from_to 0 4 ++ from_to 6 6 ++ from_to 8 19 ++ from_to 22 29
        ++ from_to 32 49 ++ from_to 54 59 ++ from_to 61 79 }
    ensures by_client_after_service { taken Client (served Client) ≡ from_to 0 4 ++ from_to 8 19 ++ from_to 22 29 ++ from_to 32 49
        ++ from_to 53 59 ++ from_to 61 79 }
    ensures by_client_that_requests { taken Client requesting ≡ from_to 0 4 ++ from_to 8 19 ++ from_to 22 29 ++ from_to 32 49
        ++ from_to 51 59 ++ from_to 61 79 }
    ensures by_client_that_probes { taken Client probing_client ≡ from_to 0 4 ++ from_to 8 19 ++ from_to 22 29 ++ from_to 32 49
        ++ from_to 51 79 }
    ensures by_authenticated_client { taken Client (admitted Client) ≡ from_to 0 4 ++ from_to 8 20 ++ from_to 22 29 ++ from_to 32 49
        ++ from_to 54 59 ++ from_to 61 255 }
    ensures by_authenticated_server { taken Server (admitted Server) ≡ from_to 0 4 ++ from_to 8 20 ++ from_to 22 29 ++ from_to 32 50
        ++ from_to 54 59 ++ from_to 61 255 }
    ensures by_client_that_rekeys { taken Client (rekeying Client) ≡ from_to 0 4 ++ from_to 8 20 ++ from_to 22 29 ++ from_to 32 49
        ++ from_to 54 59 ++ from_to 61 255 }
    ensures in_later_exchange { taken Client (offered_again Client) ≡ from_to 0 4 ++ from_to 8 19 ++ from_to 22 29 ++ 31 ∷ [] }
    ensures in_later_exchange_of_server { taken Server (offered_again Server) ≡ from_to 0 4 ++ from_to 8 19 ++ from_to 22 30 }
    ensures after_later_exchange { (side : Side) → taken side (completed_again side) ≡ from_to 0 4 ++ from_to 8 19 ++ from_to 21 29 }
    ensures after_later_wrong_guess { (side : Side) → taken side (hears (KexInit (guessing side false)) ∷ rekeying side) ≡ from_to 30 49 }
{}

/// The refusal of a message by an end, or none.
pub fn refusal_examples()
    ensures service { refusal Server (keyed Server) (ServiceRequest userauth) ≡ None }
    ensures other_service { refusal Server (keyed Server) (ServiceRequest (codes "ssh-x")) ≡ Some NoService }
    ensures accepted_service { refusal Client asking (ServiceAccept userauth) ≡ None }
    ensures other_accepted_service { refusal Client asking (ServiceAccept connection) ≡ Some Unexpected }
    ensures first_kexinit { (side : Side) → refusal side (lined side) (KexInit (offer_of (peer side) true)) ≡ None }
    ensures no_marker { (side : Side) → refusal side (lined side) (KexInit (offer_of (peer side) false)) ≡ Some NotStrict }
    ensures marker_of_other_role { (side : Side) → refusal side (lined side) (KexInit (offer_of side true)) ≡ Some NotStrict }
    ensures no_marker_before_no_common { (side : Side) → refusal side (lined side)
        (KexInit (record (offer_of (peer side) false) { host = [] })) ≡ Some NotStrict }
    ensures no_common_method { (side : Side) → refusal side (lined side)
        (KexInit (record (offer_of (peer side) true) { kex = client_marker ∷ server_marker ∷ [] })) ≡ Some NoCommon }
    ensures no_common_host_key { refusal Client (lined Client) (KexInit (record (offer_of Server true) { host = codes "x" ∷ [] }))
        ≡ Some NoCommon }
    ensures no_common_encryption { refusal Client (lined Client) (KexInit (record (offer_of Server true) { enc_cs = codes "x" ∷ [] }))
        ≡ Some NoCommon }
    ensures no_common_encryption_back { refusal Client (lined Client) (KexInit
        (record (offer_of Server true) { enc_sc = codes "x" ∷ [] })) ≡ Some NoCommon }
    ensures no_common_mac { refusal Client (lined Client) (KexInit (record (offer_of Server true) { mac_cs = codes "x" ∷ [] }))
        ≡ Some NoCommon }
    ensures no_common_mac_back { refusal Client (lined Client) (KexInit (record (offer_of Server true) { mac_sc = codes "x" ∷ [] }))
        ≡ Some NoCommon }
    ensures no_common_compression { refusal Client (lined Client) (KexInit
        (record (offer_of Server true) { comp_cs = codes "zlib" ∷ [] })) ≡ Some NoCommon }
    ensures no_common_compression_back { refusal Client (lined Client) (KexInit
        (record (offer_of Server true) { comp_sc = codes "zlib" ∷ [] })) ≡ Some NoCommon }
    ensures other_languages { refusal Client (lined Client) (KexInit
        (record (offer_of Server true) { lang_cs = codes "x" ∷ []; lang_sc = codes "y" ∷ [] })) ≡ None }
    ensures later_kexinit { (side : Side) → refusal side (fed_again side) (KexInit (offer_of (peer side) false)) ≡ None }
    ensures later_kexinit_with_marker { (side : Side) → refusal side (fed_again side) (KexInit (offer_of (peer side) true)) ≡ None }
    ensures no_material { (side : Side) → refusal side (admitted side) (KexInit (offer_of (peer side) false)) ≡ Some Refusal.NoMaterial }
    ensures no_common_before_no_material { (side : Side) → refusal side (admitted side)
        (KexInit (record (offer_of (peer side) false) { host = [] })) ≡ Some NoCommon }
    ensures material_in_use { (side : Side) → refusal side (rekeying side) (KexInit (offer_of (peer side) false)) ≡ None }
    ensures point { refusal Server (offered Server) (KexEcdhInit (secret 1)) ≡ None }
    ensures short_point { refusal Server (offered Server) (KexEcdhInit (replicate 31 1)) ≡ Some BadPoint }
    ensures long_point { refusal Server (offered Server) (KexEcdhInit (replicate 33 1)) ≡ Some BadPoint }
    ensures point_that_shares_nothing { refusal Server (offered Server) (KexEcdhInit (secret 2)) ≡ Some BadPoint }
    ensures reply { refusal Client (offered Client) first_reply ≡ None }
    ensures signature_of_other_point { refusal Client (offered Client) (KexEcdhReply toy_key (secret 3)
        (take 4096 (hash_to_sign toy (offered Server) (secret 1)))) ≡ Some BadHost }
    ensures bad_point_before_bad_host { refusal Client (offered Client) (KexEcdhReply [] (secret 1) []) ≡ Some BadPoint }
    ensures long_point_of_reply { refusal Client (offered Client) (KexEcdhReply toy_key (replicate 33 2) []) ≡ Some BadPoint }
    ensures other_host_key { refusal Client (offered Client) (KexEcdhReply (codes "host") (secret 2)
        (take 4096 (hash_to_sign toy (offered Server) (secret 1)))) ≡ Some BadHost }
    ensures other_signature { refusal Client (offered Client) (KexEcdhReply toy_key (secret 2) []) ≡ Some BadHost }
    ensures tries_left { refusal Server (failed 1) wrong_request ≡ None }
    ensures no_tries_left { refusal Server (failed 2) wrong_request ≡ Some TooManyTries }
    ensures right_after_tries { refusal Server (failed 2) right_request ≡ None }
    ensures good_probe_after_tries { refusal Server (failed 2) (probe (codes "k")) ≡ None }
    ensures bad_probe_after_tries { refusal Server (failed 2) (probe (codes "l")) ≡ Some TooManyTries }
    ensures bare_request_after_tries { refusal Server (failed 2) (UserauthRequest (codes "u") connection NoMethod) ≡ Some TooManyTries }
    ensures new_password_after_tries { refusal Server (failed 2) (UserauthRequest (codes "u") connection
        (Password (codes "p") (Some (codes "p")))) ≡ Some TooManyTries }
    ensures bad_signature_after_tries { refusal Server (failed 2) (UserauthRequest (codes "u") connection
        (Publickey (codes "toy") (codes "k") (Some []))) ≡ Some TooManyTries }
    ensures other_method_after_tries { refusal Server (failed 2) (UserauthRequest (codes "u") connection (Other (codes "x") []))
        ≡ Some TooManyTries }
    ensures other_service_after_tries { refusal Server (failed 2) (UserauthRequest (codes "u") userauth (Password (codes "p") None))
        ≡ Some TooManyTries }
    ensures authenticated_after_tries { refusal Server (says UserauthSuccess ∷ failed 2) wrong_request ≡ None }
    ensures free_of_refusal { refusal Client (admitted Client) (Ignore []) ≡ None }
    ensures unknown_number { refusal Client (admitted Client) (Unknown 200) ≡ None }
{}

/// The refusal of an ask for the transport or for authentication, or none.
pub fn ask_examples()
    ensures service { ask_refusal Client (keyed Client) AskService ≡ None }
    ensures service_at_server { ask_refusal Server (opened Server) AskService ≡ Some WrongSide }
    ensures service_before_newkeys { ask_refusal Client (completed Client) AskService ≡ Some NotYet }
    ensures second_service { ask_refusal Client asking AskService ≡ Some Busy }
    ensures requests { map (ask_refusal Client (served Client)) requests ≡ replicate 4 None }
    ensures requests_at_server { map (ask_refusal Server (served Server)) requests ≡ replicate 4 (Some WrongSide) }
    ensures requests_without_service { map (ask_refusal Client asking) requests ≡ replicate 4 (Some NotYet) }
    ensures requests_while_one_waits { map (ask_refusal Client requesting) requests ≡ replicate 4 (Some Busy) }
    ensures requests_when_authenticated { map (ask_refusal Client (admitted Client)) requests ≡ replicate 4 (Some AskRefusal.Ended) }
    ensures requests_after_failure { map (ask_refusal Client (hears (UserauthFailure [] false) ∷ requesting)) requests ≡ replicate 4 None }
    ensures requests_after_key_ok { map (ask_refusal Client (hears (UserauthPkOk (codes "toy") (codes "k")) ∷ probing_client)) requests
        ≡ replicate 4 None }
    ensures long_user { ask_refusal Client (served Client) (AskNone (replicate 33969 0)) ≡ None }
    ensures too_long_user { ask_refusal Client (served Client) (AskNone (replicate 33970 0)) ≡ Some TooLong }
    ensures authenticated_before_too_long { ask_refusal Client (admitted Client) (AskNone (replicate 33970 0)) ≡ Some AskRefusal.Ended }
    ensures long_password { ask_refusal Client (served Client) (AskPassword (codes "u") (replicate 33959 0)) ≡ None }
    ensures too_long_password { ask_refusal Client (served Client) (AskPassword (codes "u") (replicate 33960 0)) ≡ Some TooLong }
    ensures long_key { ask_refusal Client (served Client) (AskProbe (codes "u") (codes "toy") (replicate 33951 0)) ≡ None }
    ensures too_long_key { ask_refusal Client (served Client) (AskProbe (codes "u") (codes "toy") (replicate 33952 0)) ≡ Some TooLong }
    ensures long_key_with_signature { ask_refusal Client (served Client) (AskSign (codes "u") (codes "toy") (replicate 29851 0)) ≡ None }
    ensures too_long_key_with_signature { ask_refusal Client (served Client) (AskSign (codes "u") (codes "toy") (replicate 29852 0))
        ≡ Some TooLong }
    ensures rekey { (side : Side) → ask_refusal side (fed_again side) AskRekey ≡ None }
    ensures rekey_before_authentication { (side : Side) → ask_refusal side (served side) AskRekey ≡ Some NotYet }
    ensures rekey_while_blocked { (side : Side) → ask_refusal side (rekeying side) AskRekey ≡ Some Busy }
    ensures rekey_before_newkeys_is_taken { (side : Side) → ask_refusal side (completed_again side) AskRekey ≡ Some Busy }
    ensures rekey_without_material { (side : Side) → ask_refusal side (admitted side) AskRekey ≡ Some AskRefusal.NoMaterial }
    ensures disconnect { (side : Side) → ask_refusal side (opened side) (AskDisconnect (replicate longest_description 0)) ≡ None }
    ensures long_disconnect { (side : Side) → ask_refusal side (opened side) (AskDisconnect (replicate 1025 0)) ≡ Some TooLong }
    ensures disconnect_while_blocked { (side : Side) → ask_refusal side (rekeying side) (AskDisconnect []) ≡ None }
{}

/// The items that an end adds to a message of the transport or of authentication that it took, the newest first.
pub fn answer_examples()
    ensures disconnect { Answer toy Client (admitted Client) None (Disconnect 11 (codes "x") [])
        (Died ∷ Told (Disconnected 11 (codes "x")) ∷ []) }
    ensures ignore { Answer toy Client (admitted Client) None (Ignore (codes "x")) (Told Ignored ∷ []) }
    ensures unimplemented { Answer toy Client (admitted Client) None (Unimplemented 5) (Told (NotImplemented 5) ∷ []) }
    ensures debug { Answer toy Client (admitted Client) None (Debug true (codes "x") []) (Told (Debugged true (codes "x")) ∷ []) }
    ensures first_unknown { Answer toy Client (keyed Client) None (Unknown 7) (says (Unimplemented 0) ∷ []) }
    ensures second_unknown { Answer toy Client (hears (Ignore []) ∷ keyed Client) None (Unknown 7) (says (Unimplemented 1) ∷ []) }
    ensures unknown_after_skipped_packet { Answer toy Server (TookGuess [] ∷ hears (KexInit (guessing Server false)) ∷ rekeying Server)
        None (Unknown 7) (says (Unimplemented 4) ∷ []) }
    ensures unknown_while_blocked { Answer toy Client (rekeying Client) None (Unknown 200) (says (Unimplemented 2) ∷ []) }
    ensures service_request { Answer toy Server (keyed Server) None (ServiceRequest userauth) (says (ServiceAccept userauth) ∷ []) }
    ensures service_accept { Answer toy Client asking None (ServiceAccept userauth) (Told Service ∷ []) }
    ensures first_kexinit_at_server { Answer toy Server (lined Server) None (KexInit (offer_of Client true)) [] }
    ensures first_kexinit_at_client { Answer toy Client (lined Client) None (KexInit (offer_of Server true))
        (says (KexEcdhInit (secret 1)) ∷ []) }
    ensures kexinit_answered_at_server { Answer toy Server (fed_again Server) None (KexInit (offer_of Client false))
        (says (KexInit (offer_of Server false)) ∷ []) }
    ensures kexinit_answered_at_client { Answer toy Client (fed_again Client) None (KexInit (offer_of Server false))
        (says (KexEcdhInit (secret 4)) ∷ says (KexInit (offer_of Client false)) ∷ []) }
    ensures kexinit_crossing_at_client { Answer toy Client (rekeying Client) None (KexInit (offer_of Server false))
        (says (KexEcdhInit (secret 4)) ∷ []) }
    ensures kexinit_crossing_at_server { Answer toy Server (rekeying Server) None (KexInit (offer_of Client false)) [] }
    ensures exchange_at_server { Answer toy Server (offered Server) None (KexEcdhInit (secret 1))
        (Told (Completed 1) ∷ says NewKeys ∷ says first_reply ∷ []) }
    ensures exchange_at_client { Answer toy Client (offered Client) None first_reply (Told (Completed 1) ∷ says NewKeys ∷ []) }
    ensures owed_reply_of_server { Answer toy Server (hears (KexInit (offer_of Client false)) ∷ closed_by_peer Server) None
        (KexEcdhInit (secret 4)) (Told (Completed 2) ∷ says_on 5 (ChannelClose 3) ∷ says NewKeys ∷ says
        (reply_now toy (hears (KexInit (offer_of Client false)) ∷ closed_by_peer Server) (secret 4)) ∷ []) }
    ensures owed_reply_of_client { Answer toy Client (says (KexEcdhInit (secret 4)) ∷ hears (KexInit (offer_of Server false))
        ∷ closed_by_peer Client) None (KexEcdhReply toy_key (secret 8) [])
        (Told (Completed 2) ∷ says_on 3 (ChannelClose 5) ∷ says NewKeys ∷ []) }
    ensures newkeys_of_peer { (side : Side) → Answer toy side (completed side) None NewKeys [] }
    ensures right_password { Answer toy Server (served Server) None right_request
        (Told (Accepted (codes "u") ByPassword) ∷ says UserauthSuccess ∷ []) }
    ensures right_signature { Answer toy Server (served Server) None (UserauthRequest (codes "u") connection
        (Publickey (codes "toy") (codes "k") (Some right_signature))) (Told (Accepted (codes "u") (ByKey (codes "toy") (codes "k"))) ∷ says UserauthSuccess ∷ []) }
    ensures known_key { Answer toy Server (served Server) None (probe (codes "k")) (says (UserauthPkOk (codes "toy") (codes "k")) ∷ []) }
    ensures wrong_password { Answer toy Server (served Server) None wrong_request
        (says (UserauthFailure (codes "publickey" ∷ codes "password" ∷ []) false) ∷ []) }
    ensures request_after_success { Answer toy Server (admitted Server) None right_request (Told Ignored ∷ []) }
    ensures failed_request { Answer toy Client requesting None (UserauthFailure (codes "x" ∷ []) true)
        (Told (Failed (codes "x" ∷ []) true) ∷ []) }
    ensures accepted_request { Answer toy Client requesting None UserauthSuccess (Told (Authenticated kind.Password) ∷ []) }
    ensures shown_banner { Answer toy Client requesting None (UserauthBanner (codes "x") []) (Told (Banner (codes "x")) ∷ []) }
    ensures good_key { Answer toy Client probing_client None (UserauthPkOk (codes "toy") (codes "k"))
        (Told (KeyOk (codes "toy") (codes "k")) ∷ []) }
{}

/// The items that an end adds on an ask that it does not refuse, the newest first.
pub fn sending_examples()
    ensures service_sent { OnAsk toy Client (keyed Client) AskService (says (ServiceRequest userauth) ∷ []) }
    ensures none_sent { OnAsk toy Client (served Client) (AskNone (codes "u"))
        (says (UserauthRequest (codes "u") connection NoMethod) ∷ []) }
    ensures password_sent { OnAsk toy Client (served Client) (AskPassword (codes "u") (codes "p")) (says right_request ∷ []) }
    ensures probe_sent { OnAsk toy Client (served Client) (AskProbe (codes "u") (codes "toy") (codes "k")) (says (probe (codes "k")) ∷ []) }
    ensures signature_sent { OnAsk toy Client (served Client) (AskSign (codes "u") (codes "toy") (codes "k"))
        (says (UserauthRequest (codes "u") connection (Publickey (codes "toy") (codes "k") (Some (take 4096 right_signature)))) ∷ []) }
    ensures rekey_sent { (side : Side) → OnAsk toy side (fed_again side) AskRekey (says (KexInit (offer_of side false)) ∷ []) }
    ensures disconnect_sent { OnAsk toy Client (opened Client) (AskDisconnect (codes "x"))
        (Died ∷ says (Disconnect 11 (codes "x") []) ∷ []) }
    ensures open_sent { OnAsk toy Client (admitted Client) (AskOpen (codes "session") 10 8 [])
        (Told (Opening 3) ∷ says_on 3 open_message ∷ []) }
    ensures confirm_sent { OnAsk toy Server (channel_opened Server) (AskConfirm 5 20 16 []) (says_on 5 confirm_message ∷ []) }
    ensures refuse_sent { OnAsk toy Server (channel_opened Server) (AskRefuse 5 1) (says_on 5 (ChannelOpenFailure 3 1 [] []) ∷ []) }
    ensures data_sent { OnAsk toy Client (channel_confirmed Client) (AskData 3 None (codes "x"))
        (says_on 3 (ChannelData 5 (codes "x")) ∷ []) }
    ensures extended_data_sent { OnAsk toy Client (channel_confirmed Client) (AskData 3 (Some 1) (codes "x"))
        (says_on 3 (ChannelExtendedData 5 1 (codes "x")) ∷ []) }
    ensures adjust_sent { OnAsk toy Client (channel_confirmed Client) (AskAdjust 3 7) (says_on 3 (ChannelWindowAdjust 5 7) ∷ []) }
    ensures eof_sent { OnAsk toy Client (channel_confirmed Client) (AskEof 3) (says_on 3 (ChannelEof 5) ∷ []) }
    ensures close_sent { OnAsk toy Client (channel_confirmed Client) (AskClose 3) (says_on 3 (ChannelClose 5) ∷ []) }
    ensures request_sent { OnAsk toy Client (channel_confirmed Client) (AskRequest 3 (codes "x") true (codes "y"))
        (says_on 3 (ChannelRequest 5 (codes "x") true (codes "y")) ∷ []) }
    ensures success_sent { OnAsk toy Client (channel_confirmed Client) (AskReply 3 true) (says_on 3 (ChannelSuccess 5) ∷ []) }
    ensures failure_sent { OnAsk toy Client (channel_confirmed Client) (AskReply 3 false) (says_on 3 (ChannelFailure 5) ∷ []) }
    ensures global_request_sent { OnAsk toy Client (admitted Client) (AskGlobal (codes "x") true (codes "y"))
        (says (GlobalRequest (codes "x") true (codes "y")) ∷ []) }
    ensures global_success_sent { OnAsk toy Client (admitted Client) (AskGlobalReply true (codes "x"))
        (says (RequestSuccess (codes "x")) ∷ []) }
    ensures global_failure_sent { OnAsk toy Client (admitted Client) (AskGlobalReply false []) (says RequestFailure ∷ []) }
{}

/// Which name is chosen, and which guess is wrong.
pub fn choice_examples()
    ensures first_of_client { first_common (codes "a" ∷ codes "b" ∷ codes "c" ∷ []) (codes "c" ∷ codes "b" ∷ []) ≡ Some (codes "b") }
    ensures nothing_in_common { first_common (codes "a" ∷ []) (codes "ab" ∷ []) ≡ None }
    ensures markers_are_not_chosen { common Kex (lists_of (record (offer_of Client true)
        { kex = client_marker ∷ server_marker ∷ codes "a" ∷ [] }))
        (lists_of (record (offer_of Server true) { kex = server_marker ∷ client_marker ∷ codes "a" ∷ [] })) ≡ Some (codes "a") }
    ensures server_order_is_not_followed { (choice Server 0 (hears
        (KexInit (record (offer_of Client true) { host = codes "x" ∷ codes "y" ∷ [] }))
        ∷ says (KexInit (record (offer_of Server true) { host = codes "y" ∷ codes "x" ∷ [] })) ∷ [])).host ≡ codes "x" }
    ensures client_order_is_followed { (choice Client 0 (hears
        (KexInit (record (offer_of Server true) { host = codes "y" ∷ codes "x" ∷ [] }))
        ∷ says (KexInit (record (offer_of Client true) { host = codes "x" ∷ codes "y" ∷ [] })) ∷ [])).host ≡ codes "x" }
    ensures each_direction_is_chosen { (choice Client 0 (hears
        (KexInit (record (offer_of Server true) { mac_cs = codes "y" ∷ codes "x" ∷ []; mac_sc = codes "y" ∷ [] }))
        ∷ says (KexInit (record (offer_of Client true) { mac_cs = codes "x" ∷ codes "y" ∷ []; mac_sc = codes "x" ∷ codes "y" ∷ [] }))
        ∷ [])).mac_sc ≡ codes "y" }
    ensures no_guess { is_wrong_guess (record (offer_of Client true) { host = codes "x" ∷ [] }) (own_names toy Server) ≡ false }
    ensures right_guess { is_wrong_guess (record (offer_of Client true) { follows = true }) (own_names toy Server) ≡ false }
    ensures right_guess_after_marker { is_wrong_guess (record (offer_of Client true)
        { kex = client_marker ∷ codes "curve25519-sha256" ∷ []; follows = true }) (own_names toy Server) ≡ false }
    ensures wrong_guess_of_method { is_wrong_guess (record (offer_of Client true) {
      kex = codes "x" ∷ codes "curve25519-sha256" ∷ [];
      follows = true;
    }) (own_names toy Server) ≡ true }
    ensures wrong_guess_of_host_key { is_wrong_guess (record (offer_of Client true) {
      host = codes "x" ∷ codes "toy@example.com" ∷ [];
      follows = true;
    }) (own_names toy Server) ≡ true }
    ensures marker_stands_last { (side : Side) → (offer_of side true).kex ≡ (offer_of side false).kex ++ marker_of side ∷ [] }
{}

/// Epochs, numbers and keys of a direction.
pub fn number_examples()
    ensures number_before_newkeys { sending_number Client (offered Client) ≡ 2 }
    ensures number_after_newkeys { (side : Side) → sending_number side (completed side) ≡ 0 }
    ensures number_taken_before_newkeys { taking_number Client (completed Client) ≡ 2 }
    ensures number_taken_after_newkeys { (side : Side) → taking_number side (keyed side) ≡ 0 }
    ensures number_later { sending_number Client (admitted Client) ≡ 2 }
    ensures number_after_later_newkeys { (side : Side) → sending_number side (completed_again side) ≡ 0 }
    ensures skipped_packet_has_number { taking_number Server (TookGuess [] ∷ hears (KexInit (guessing Server true)) ∷ lined Server) ≡ 2 }
    ensures epoch_before_newkeys { (side : Side) → epoch (sent (offered side)) ≡ 0 }
    ensures epoch_after_newkeys { (side : Side) → epoch (sent (completed side)) ≡ 1 }
    ensures epoch_of_peer { (side : Side) → epoch (took (completed side)) ≡ 0 }
    ensures epoch_after_later_newkeys { (side : Side) → epoch (sent (completed_again side)) ≡ 2 }
    ensures no_key_before_newkeys { (side : Side) → sending_key toy side (offered side) ≡ None }
    ensures no_key_of_peer_before_newkeys { (side : Side) → taking_key toy side (completed side) ≡ None }
    ensures key_after_newkeys { (side : Side) → sending_key toy side (completed side) ≡ Some (mac_key side (first_inputs side)) }
    ensures key_of_peer_after_newkeys { (side : Side) → taking_key toy side (keyed side) ≡ Some (mac_key (peer side) (first_inputs side)) }
    ensures key_lasts_while_rekeying { (side : Side) → sending_key toy side (offered_again side) ≡ Some (mac_key side (first_inputs side)) }
    ensures letters_of_keys { iv_letter Client ∷ iv_letter Server ∷ cipher_letter Client ∷ cipher_letter Server ∷ mac_letter Client
        ∷ mac_letter Server ∷ [] ≡ codes "ABCDEF" }
    ensures parts_of_key { (x : Inputs) (session_hash : List ℕ) → key_of plain_crypto Server x session_hash
        (choice Client 0 (offered Client)) ≡ derived x.shared (exchange_hash x) (iv_letter Server) session_hash 2
        ++ derived x.shared (exchange_hash x) (cipher_letter Server) session_hash 3
        ++ derived x.shared (exchange_hash x) (mac_letter Server) session_hash 4 }
    ensures same_inputs { first_inputs Client ≡ first_inputs Server }
    ensures shared_of_first_exchange { (side : Side) → (first_inputs side).shared ≡ 3 }
    ensures shared_of_later_exchange { (side : Side) → (exchange toy side 1 (completed_again side)).shared ≡ 12 }
    ensures lines_of_exchange { (side : Side) → (first_inputs side).client_version ≡ codes "SSH-2.0-c" }
    ensures points_of_exchange { (side : Side) → (first_inputs side).server_point ≡ secret 2 }
    ensures points_of_later_exchange { (side : Side) → (exchange toy side 1 (completed_again side)).client_point ≡ secret 4 }
{}

/// The numbers and the names of refusals, and their reason codes (RFC 4253 section 11.1).
pub fn refusals()
    ensures numbers { map refusal_number every_refusal ≡ from_to 1 19 }
    ensures reason_codes { map refusal_reason every_refusal ≡ None ∷ None
        ∷ map Some (2 ∷ 2 ∷ 5 ∷ 2 ∷ 2 ∷ 3 ∷ 3 ∷ 3 ∷ 9 ∷ 3 ∷ 7 ∷ 2 ∷ 14 ∷ 2 ∷ 2 ∷ 2 ∷ 2 ∷ []) }
    ensures names { map refusal_name every_refusal ≡ codes "BadLine" ∷ codes "BadVersion" ∷ codes "BadLength" ∷ codes "BadPadding"
        ∷ codes "BadTag" ∷ codes "BadMessage" ∷ codes "Unexpected" ∷ codes "NoCommon" ∷ codes "NotStrict" ∷ codes "BadPoint"
        ∷ codes "BadHost" ∷ codes "NoMaterial" ∷ codes "NoService" ∷ codes "NumberSpent" ∷ codes "TooManyTries" ∷ codes "UnknownChannel"
        ∷ codes "WindowOverrun" ∷ codes "WindowTooLarge" ∷ codes "OwedFull" ∷ [] }
    ensures ask_numbers { map ask_refusal_number every_ask_refusal ≡ from_to 1 12 }
    ensures ask_names { map ask_refusal_name every_ask_refusal ≡ codes "NotYet" ∷ codes "Busy" ∷ codes "NoChannel" ∷ codes "NoRoom"
        ∷ codes "TooLong" ∷ codes "Ended" ∷ codes "TableFull" ∷ codes "NothingOwed" ∷ codes "RekeyDue" ∷ codes "TooMuch"
        ∷ codes "WrongSide" ∷ codes "NoMaterial" ∷ [] }
{}
