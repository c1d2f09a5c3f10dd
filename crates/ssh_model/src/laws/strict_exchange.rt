//! The definitions applied to peers with and without strict key exchange, and to extensions (RFC 8308).

ghost use Rattle.std.specs.Prelude.{◌≡◌, ◌+◌, ◌-◌, ◌^◌, ◌∷◌, ◌++◌, true, false, List, [], Some, None, codes, length};
ghost use Rattle.ssh_model.specs.declared.side.Side.{Side};
ghost use Rattle.ssh_model.specs.declared.side.Side.TheVariants.{Client, Server};
ghost use Rattle.ssh_model.specs.Protocol.Side.{peer};
ghost use Rattle.ssh_model.specs.Protocol.Wire.Message.{Msg.Ignore, Msg.Unimplemented, Msg.ExtInfo, Msg.KexInit, Msg.NewKeys};
ghost use Rattle.ssh_model.specs.Protocol.Wire.Message.{Msg.KexEcdhInit, Msg.Unknown};
ghost use Rattle.ssh_model.specs.Protocol.KeyExchange.Choice.{Kind.Kex, client_marker, server_marker, client_extension_marker};
ghost use Rattle.ssh_model.specs.Protocol.KeyExchange.Choice.{server_extension_marker};
ghost use Rattle.ssh_model.specs.Protocol.KeyExchange.Exchanges.{common, sending_number, taking_number};
ghost use Rattle.ssh_model.specs.declared.strictness.Strictness.TheVariants.{Offer, Off};
ghost use Rattle.ssh_model.specs.Protocol.Sessions.Parties.{AreLawful, lists_of};
ghost use Rattle.ssh_model.specs.declared.refusal.Refusal.TheVariants.{Unexpected, NoCommon, NotStrict};
ghost use Rattle.ssh_model.specs.Protocol.Sessions.Items.{Payload, took, Fact.Completed, Fact.GotExtensions, Item.TookGuess, Item.Told};
ghost use Rattle.ssh_model.specs.Protocol.Sessions.Epochs.{count, wire_number};
ghost use Rattle.ssh_model.specs.Protocol.Sessions.Phases.{is_wrong_guess, may_take};
ghost use Rattle.ssh_model.specs.Protocol.Sessions.Transport.{reply_now};
ghost use Rattle.ssh_model.specs.Protocol.Sessions.Turns.{Answer, Run};
ghost use Rattle.ssh_model.specs.Protocol.Sessions.Honest.{IsHonest};
ghost use Rattle.ssh_model.specs.Protocol.Sessions.Claims.{Beginning};
ghost use Rattle.ssh_model.specs.Example.Toys.{announcing, from_to, plain, plain_announcing, secret, toy, toy_extensions, toys_announcing};
ghost use Rattle.ssh_model.specs.Example.Toys.{toys_with};
ghost use Rattle.ssh_model.specs.Example.Histories.{completed_by, first_reply_by, guessing_by, hears, keyed_by, lined_by, offer_by};
ghost use Rattle.ssh_model.specs.Example.Histories.{offered_by, refusal_by, says, taken_by};
ghost use Rattle.ssh_model.specs.Example.PlainRun.{plain_session};

/// Which numbers, from 0 to 255, an end may take next if it offers strict key exchange, or if it or the peer
/// doesn't.
pub fn numbers_by_strictness()
    ensures at_first_where_offered { (side : Side) → taken_by (toys_with Offer Offer) side (lined_by (toys_with Offer Offer) side)
        ≡ from_to 1 4 ++ 20 ∷ [] }
    ensures at_first_without { (side : Side) → taken_by plain side (lined_by plain side) ≡ from_to 1 4 ++ 20 ∷ [] }
    ensures after_ignore_where_offered { (side : Side) → taken_by (toys_with Offer Offer) side
        (hears (Ignore []) ∷ lined_by (toys_with Offer Offer) side) ≡ from_to 1 4 ++ 20 ∷ [] }
    ensures in_strict_exchange { taken_by (toys_with Offer Offer) Client (offered_by (toys_with Offer Offer) Client) ≡ 1 ∷ 31 ∷ [] }
    ensures in_strict_exchange_of_server { taken_by (toys_with Offer Offer) Server (offered_by (toys_with Offer Offer) Server) ≡ 1 ∷ 30
        ∷ [] }
    ensures in_plain_exchange { taken_by plain Client (offered_by plain Client) ≡ from_to 1 4 ++ 31 ∷ [] }
    ensures in_plain_exchange_of_server { taken_by plain Server (offered_by plain Server) ≡ from_to 1 4 ++ 30 ∷ [] }
    ensures where_only_the_client_offers { taken_by (toys_with Offer Off) Client (offered_by (toys_with Offer Off) Client) ≡ from_to 1 4
        ++ 31 ∷ [] }
    ensures where_only_the_peer_offers { taken_by (toys_with Offer Off) Server (offered_by (toys_with Offer Off) Server) ≡ from_to 1 4
        ++ 30 ∷ [] }
    ensures after_strict_exchange { (side : Side) → taken_by (toys_with Offer Offer) side (completed_by (toys_with Offer Offer) side) ≡ 1
        ∷ 21 ∷ [] }
    ensures after_plain_exchange { (side : Side) → taken_by plain side (completed_by plain side) ≡ from_to 1 4 ++ 21 ∷ [] }
    ensures after_plain_wrong_guess { (side : Side) → taken_by plain side
        (hears (KexInit (guessing_by plain side true)) ∷ lined_by plain side) ≡ from_to 30 49 }
    ensures after_plain_skipped_packet { taken_by plain Server (TookGuess [] ∷ hears (KexInit (guessing_by plain Server true)) ∷ lined_by
        plain Server) ≡ from_to 1 4 ++ 30 ∷ [] }
    ensures with_plain_keys { taken_by plain Client (keyed_by plain Client) ≡ from_to 0 4 ++ from_to 8 19 ++ from_to 22 29
        ++ from_to 32 49 ++ from_to 54 59 ++ from_to 61 79 }
    ensures with_plain_keys_of_server { taken_by plain Server (keyed_by plain Server) ≡ from_to 0 5 ++ from_to 8 19 ++ from_to 22 29
        ++ from_to 32 49 ++ from_to 54 59 ++ from_to 61 79 }
{}

/// The refusal of the peer's first KEXINIT, or none. A KEXINIT without the marker is taken if
/// strict key exchange is not required.
pub fn first_kexinits()
    ensures unmarked_where_offered { (side : Side) → refusal_by (toys_with Offer Offer) side (lined_by (toys_with Offer Offer) side)
        (KexInit (offer_by plain (peer side) true)) ≡ None }
    ensures unmarked_without { (side : Side) → refusal_by plain side (lined_by plain side) (KexInit (offer_by plain (peer side) true))
        ≡ None }
    ensures marked_where_offered { (side : Side) → refusal_by (toys_with Offer Offer) side (lined_by (toys_with Offer Offer) side)
        (KexInit (offer_by toy (peer side) true)) ≡ None }
    ensures marked_without { (side : Side) → refusal_by plain side (lined_by plain side) (KexInit (offer_by toy (peer side) true)) ≡ None }
    ensures marked_and_late { (side : Side) → refusal_by (toys_with Offer Offer) side
        (hears (Ignore []) ∷ lined_by (toys_with Offer Offer) side) (KexInit (offer_by toy (peer side) true)) ≡ Some Unexpected }
    ensures marked_and_late_where_required { (side : Side) → refusal_by toy side (hears (Ignore []) ∷ lined_by toy side)
        (KexInit (offer_by toy (peer side) true)) ≡ Some Unexpected }
    ensures unmarked_and_late { (side : Side) → refusal_by (toys_with Offer Offer) side
        (hears (Ignore []) ∷ lined_by (toys_with Offer Offer) side) (KexInit (offer_by plain (peer side) true)) ≡ None }
    ensures late_without { (side : Side) → refusal_by plain side (hears (Ignore []) ∷ lined_by plain side)
        (KexInit (offer_by toy (peer side) true)) ≡ None }
    ensures late_before_no_common { (side : Side) → refusal_by (toys_with Offer Offer) side
        (hears (Ignore []) ∷ lined_by (toys_with Offer Offer) side) (KexInit (record (offer_by toy (peer side) true) { host = [] }))
        ≡ Some Unexpected }
    ensures not_strict_before_late { (side : Side) → refusal_by toy side (hears (Ignore []) ∷ lined_by toy side)
        (KexInit (offer_by plain (peer side) true)) ≡ Some NotStrict }
    ensures no_common_where_unmarked { (side : Side) → refusal_by (toys_with Offer Offer) side (lined_by (toys_with Offer Offer) side)
        (KexInit (record (offer_by plain (peer side) true) { host = [] })) ≡ Some NoCommon }
{}

/// The sequence numbers begin anew at NEWKEYS if key exchange is strict, and otherwise go on, modulo 2^32. Whether the
/// numbers of an epoch are spent is judged by the count of its payloads in both.
pub fn sequence_numbers()
    ensures in_strict_session { (side : Side) → taking_number side (keyed_by (toys_with Offer Offer) side) ≡ 0 }
    ensures own_in_strict_session { (side : Side) → sending_number side (completed_by (toys_with Offer Offer) side) ≡ 0 }
    ensures in_plain_session { (side : Side) → taking_number side (keyed_by plain side) ≡ 3 }
    ensures own_in_plain_session { (side : Side) → sending_number side (completed_by plain side) ≡ 3 }
    ensures where_one_end_offers { (side : Side) → taking_number side (keyed_by (toys_with Offer Off) side) ≡ 3 }
    ensures count_of_plain_epoch { (side : Side) → count (took (keyed_by plain side)) ≡ 0 }
    ensures last_number { (l : List Payload) → length l ≡ 2 ^ 32 - 1 → wire_number false l ≡ 2 ^ 32 - 1 }
    ensures after_the_last { (l : List Payload) → length l ≡ 2 ^ 32 → wire_number false l ≡ 0 }
    ensures unimplemented { Answer plain Client (keyed_by plain Client) None (Unknown 9) (says (Unimplemented 3) ∷ []) }
    ensures next_unimplemented { Answer plain Client (hears (Ignore []) ∷ keyed_by plain Client) None (Unknown 9)
        (says (Unimplemented 4) ∷ []) }
{}

/// The markers stand in the first KEXINIT and in no later one, and neither choice nor guess depends on them.
pub fn markers()
    ensures required { (offer_by toy Client true).kex ≡ codes "curve25519-sha256" ∷ client_marker ∷ [] }
    ensures offered { (offer_by (toys_with Offer Offer) Server true).kex ≡ codes "curve25519-sha256" ∷ server_marker ∷ [] }
    ensures not_offered { (side : Side) → (offer_by plain side true).kex ≡ codes "curve25519-sha256" ∷ [] }
    ensures of_extensions { (offer_by announcing Client true).kex ≡ codes "curve25519-sha256" ∷ client_extension_marker ∷ client_marker
        ∷ [] }
    ensures of_extensions_of_server { (offer_by announcing Server true).kex ≡ codes "curve25519-sha256" ∷ server_extension_marker
        ∷ server_marker ∷ [] }
    ensures of_none_taken { (side : Side) → (offer_by (toys_announcing toy_extensions toy_extensions false) side true).kex
        ≡ (offer_by toy side true).kex }
    ensures not_later { (side : Side) → (offer_by announcing side false).kex ≡ codes "curve25519-sha256" ∷ [] }
    ensures not_chosen { common Kex (lists_of (record (offer_by toy Client true)
        { kex = client_marker ∷ server_marker ∷ client_extension_marker ∷ server_extension_marker ∷ [] }))
        (lists_of (record (offer_by toy Server true) {
          kex = client_marker ∷ server_marker ∷ client_extension_marker
              ∷ server_extension_marker ∷ [];
        })) ≡ None }
    ensures not_guessed { (side : Side) → is_wrong_guess
        (record (offer_by announcing (peer side) true) {
          kex = client_extension_marker ∷ server_extension_marker ∷ codes
              "curve25519-sha256" ∷ [];
          follows = true;
        }) (offer_by announcing side false) ≡ false }
{}

/// When EXT_INFO is taken, and when it is sent (RFC 8308 section 2.4): once, right after the first NEWKEYS of the end
/// that sends it.
pub fn extensions()
    ensures taken_first { (side : Side) → may_take announcing side (keyed_by announcing side) 7 ≡ true }
    ensures taken_first_in_plain_session { (side : Side) → may_take plain_announcing side (keyed_by plain_announcing side) 7 ≡ true }
    ensures not_before_newkeys { (side : Side) → may_take announcing side (completed_by announcing side) 7 ≡ false }
    ensures not_after_another { (side : Side) → may_take announcing side (hears (Ignore []) ∷ keyed_by announcing side) 7 ≡ false }
    ensures not_twice { (side : Side) → may_take announcing side (hears (ExtInfo toy_extensions) ∷ keyed_by announcing side) 7 ≡ false }
    ensures not_without_own_marker { (side : Side) → may_take toy side (keyed_by toy side) 7 ≡ false }
    ensures not_after_later_newkeys { (side : Side) → may_take announcing side
        (hears NewKeys ∷ says NewKeys ∷ hears (KexInit (offer_by announcing (peer side) false))
        ∷ says (KexInit (offer_by announcing side false)) ∷ keyed_by announcing side) 7 ≡ false }
    ensures told { (side : Side) → Answer announcing side (keyed_by announcing side) None (ExtInfo toy_extensions)
        (Told (GotExtensions toy_extensions) ∷ []) }
    ensures none_told { (side : Side) → Answer announcing side (keyed_by announcing side) None (ExtInfo []) (Told (GotExtensions []) ∷ []) }
    ensures sent_by_server { Answer announcing Server (offered_by announcing Server) None (KexEcdhInit (secret 1))
        (Told (Completed 1) ∷ says (ExtInfo toy_extensions) ∷ says NewKeys ∷ says (first_reply_by announcing) ∷ []) }
    ensures sent_by_client { Answer announcing Client (offered_by announcing Client) None (first_reply_by announcing)
        (Told (Completed 1) ∷ says (ExtInfo toy_extensions) ∷ says NewKeys ∷ []) }
    ensures none_to_announce { Answer (toys_announcing [] [] true) Server (offered_by (toys_announcing [] [] true) Server) None
        (KexEcdhInit (secret 1)) (Told (Completed 1) ∷ says NewKeys ∷ says (first_reply_by (toys_announcing [] [] true)) ∷ []) }
    ensures none_taken_by_peer { Answer (toys_announcing toy_extensions toy_extensions false) Server
        (offered_by (toys_announcing toy_extensions toy_extensions false) Server) None (KexEcdhInit (secret 1))
        (Told (Completed 1) ∷ says NewKeys ∷ says (first_reply_by (toys_announcing toy_extensions toy_extensions false)) ∷ []) }
    ensures none_in_later_exchange { Answer announcing Server (hears (KexInit (offer_by announcing Client false)) ∷ says
        (KexInit (offer_by announcing Server false)) ∷ keyed_by announcing Server) None (KexEcdhInit (secret 4))
        (Told (Completed 2) ∷ says NewKeys ∷ says
        (reply_now announcing (hears (KexInit (offer_by announcing Client false)) ∷ says (KexInit (offer_by announcing Server false))
        ∷ keyed_by announcing Server) (secret 4)) ∷ []) }
{}

/// Without strict key exchange there is an honest run of two lawful ends in which the first packet under the keys is
/// lost, and neither end notices. So the laws of two ends need that both offer strict key exchange.
pub fn lost_prefix()
    ensures lawful { AreLawful plain }
    ensures runs { Run plain plain_session }
    ensures honest { IsHonest plain plain_session }
    ensures lost { Beginning plain_session → ⊥ }
{}
