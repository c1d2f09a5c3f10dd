//! Drawn sessions and their tables, written by tools/second_reading.

ghost use Rattle.std.specs.Prelude.{map, ◌≡◌, replicate, ◌++◌, true, false, [], ◌∷◌, length, None, Some, codes, take};
ghost use Rattle.ssh_model.specs.Protocol.Sessions.Phases.{phase, Phase.Start, Phase.Exchanging, Phase.Keying, Phase.Normal};
ghost use Rattle.ssh_model.specs.Protocol.Sessions.Phases.{blocked, other_lines, may_take_extensions, service_requested};
ghost use Rattle.ssh_model.specs.Protocol.Sessions.Phases.{took_service_accept, authenticated, failures, outstanding};
ghost use Rattle.ssh_model.specs.Protocol.Sessions.Phases.{sent_service_accept};
ghost use Rattle.ssh_model.specs.declared.side.Side.TheVariants.{Client, Server};
ghost use Rattle.test_histories.specs.Words.{moments, allowed, request_number, verdicts, ask_verdicts, channel_state, held};
ghost use Rattle.test_histories.specs.Words.{numbers_from, replies, owed_closes, waiting_globals, whole, proposing, names_of};
ghost use Rattle.test_histories.specs.Words.{named};
ghost use Rattle.ssh_model.specs.Protocol.Sessions.Items.{has_died, sent, took};
ghost use Rattle.ssh_model.specs.Protocol.Sessions.Turns.{can_feed};
ghost use Rattle.ssh_model.specs.Protocol.Sessions.Transport.{point_now, next_cookie, announces};
ghost use Rattle.ssh_model.specs.Protocol.KeyExchange.Exchanges.{is_strict, sending_number, taking_number, sending_key};
ghost use Rattle.ssh_model.specs.Protocol.KeyExchange.Exchanges.{taking_key, exchanges, choices, session_id, sending_name};
ghost use Rattle.ssh_model.specs.Protocol.KeyExchange.Exchanges.{taking_name};
ghost use Rattle.ssh_model.specs.Protocol.Sessions.Epochs.{epoch, count, after_first};
ghost use Rattle.ssh_model.specs.Protocol.Sessions.Parties.{offer};
ghost use Rattle.ssh_model.specs.Protocol.KeyExchange.Exchange.{exchange_text};
ghost use Rattle.sha2.specs.Sha256.{sha256};
ghost use Rattle.test_histories.specs.Drawn.Client10 as client10;
ghost use Rattle.test_histories.specs.Drawn.Server10 as server10;
ghost use Rattle.test_histories.specs.Drawn.Client11 as client11;

/// Client10: values after each of 56 turns.
#[tactic(auto, unfolding(ssh_model::specs::Protocol::Channels::History::has_place, ssh_model::specs::Protocol::Channels::History::some_free, ssh_model::specs::Protocol::KeyExchange::Choice::methods, ssh_model::specs::Protocol::KeyExchange::Exchange::string_of))]
pub fn client10()
    ensures phases { map (phase client10.ends Client) (moments client10.turns) ≡ replicate 2 Start ++ replicate 2 Exchanging
        ++ replicate 3 Keying ++ replicate 26 Normal ++ replicate 6 Exchanging ++ replicate 3 Keying ++ replicate 2 Normal
        ++ replicate 2 Exchanging ++ replicate 4 Keying ++ replicate 6 Normal }
    ensures blocked { map blocked (moments client10.turns) ≡ replicate 4 true ++ replicate 25 false ++ replicate 10 true
        ++ replicate 5 false ++ replicate 2 true ++ replicate 10 false }
    ensures died { map has_died (moments client10.turns) ≡ replicate 56 false }
    ensures can_feed { map can_feed (moments client10.turns) ≡ replicate 26 true ++ replicate 3 false ++ replicate 3 true
        ++ replicate 12 false ++ replicate 12 true }
    ensures points { map (point_now client10.ends Client) (moments client10.turns) ≡ replicate 4 (replicate 32 229) ++ replicate 22 []
        ++ replicate 13 (replicate 32 50) ++ replicate 7 (replicate 32 41) ++ replicate 10 [] }
    ensures cookies { map next_cookie (moments client10.turns) ≡ replicate 26 [] ++ replicate 3 (replicate 16 162) ++ replicate 3 []
        ++ replicate 12 (replicate 16 1) ++ replicate 12 [] }
    ensures other_lines { map other_lines (moments client10.turns) ≡ replicate 56 0 }
    ensures strict { map (is_strict Client) (moments client10.turns) ≡ replicate 2 false ++ replicate 54 true }
    ensures epochs_sent { map (λ h. epoch (sent h)) (moments client10.turns) ≡ replicate 4 0 ++ replicate 35 1 ++ replicate 7 2
        ++ replicate 10 3 }
    ensures epochs_taken { map (λ h. epoch (took h)) (moments client10.turns) ≡ replicate 7 0 ++ replicate 35 1 ++ replicate 8 2
        ++ replicate 6 3 }
    ensures counts_sent { map (λ h. count (sent h)) (moments client10.turns) ≡ replicate 2 1 ++ replicate 2 2 ++ replicate 6 0
        ++ replicate 10 1 ++ replicate 3 2 ++ replicate 2 3 ++ replicate 4 4 ++ replicate 4 5 ++ 6 ∷ replicate 5 7 ++ 0 ∷ replicate 4 1
        ++ replicate 2 3 ++ 0 ∷ 1 ∷ 2 ∷ replicate 3 3 ++ replicate 4 4 }
    ensures counts_taken { map (λ h. count (took h)) (moments client10.turns) ≡ replicate 2 0 ++ replicate 2 1 ++ replicate 3 2 ++ 0 ∷ 1
        ∷ replicate 2 2 ++ 3 ∷ replicate 2 4 ++ 5 ∷ replicate 3 6 ++ replicate 3 7 ++ 8 ∷ 9 ∷ 10 ∷ replicate 4 11 ++ replicate 2 12 ++ 13
        ∷ replicate 2 14 ++ 15 ∷ 16 ∷ 17 ∷ replicate 3 18 ++ replicate 2 19 ++ 20 ∷ 0 ∷ 1 ∷ 2 ∷ 3 ∷ replicate 4 4 ++ 0 ∷ 1 ∷ 2 ∷ 3
        ∷ replicate 2 4 }
    ensures later_sent { map (λ h. length (after_first (sent h))) (moments client10.turns) ≡ replicate 10 0 ++ replicate 10 1
        ++ replicate 3 2 ++ replicate 2 3 ++ replicate 4 4 ++ replicate 4 5 ++ 6 ∷ replicate 5 7 ++ 8 ∷ replicate 4 9 ++ replicate 2 11
        ++ 12 ∷ 13 ∷ 14 ∷ replicate 3 15 ++ replicate 4 16 }
    ensures later_taken { map (λ h. length (after_first (took h))) (moments client10.turns) ≡ replicate 8 0 ++ 1 ∷ replicate 2 2 ++ 3
        ∷ replicate 2 4 ++ 5 ∷ replicate 3 6 ++ replicate 3 7 ++ 8 ∷ 9 ∷ 10 ∷ replicate 4 11 ++ replicate 2 12 ++ 13 ∷ replicate 2 14 ++ 15
        ∷ 16 ∷ 17 ∷ replicate 3 18 ++ replicate 2 19 ++ 20 ∷ 21 ∷ 22 ∷ 23 ∷ 24 ∷ replicate 4 25 ++ 26 ∷ 27 ∷ 28 ∷ 29 ∷ replicate 2 30 }
    ensures numbers_sent { map (sending_number Client) (moments client10.turns) ≡ replicate 2 1 ++ replicate 2 2 ++ replicate 6 0
        ++ replicate 10 1 ++ replicate 3 2 ++ replicate 2 3 ++ replicate 4 4 ++ replicate 4 5 ++ 6 ∷ replicate 5 7 ++ 0 ∷ replicate 4 1
        ++ replicate 2 3 ++ 0 ∷ 1 ∷ 2 ∷ replicate 3 3 ++ replicate 4 4 }
    ensures numbers_taken { map (taking_number Client) (moments client10.turns) ≡ replicate 2 0 ++ replicate 2 1 ++ replicate 3 2 ++ 0 ∷ 1
        ∷ replicate 2 2 ++ 3 ∷ replicate 2 4 ++ 5 ∷ replicate 3 6 ++ replicate 3 7 ++ 8 ∷ 9 ∷ 10 ∷ replicate 4 11 ++ replicate 2 12 ++ 13
        ∷ replicate 2 14 ++ 15 ∷ 16 ∷ 17 ∷ replicate 3 18 ++ replicate 2 19 ++ 20 ∷ 0 ∷ 1 ∷ 2 ∷ 3 ∷ replicate 4 4 ++ 0 ∷ 1 ∷ 2 ∷ 3
        ∷ replicate 2 4 }
    ensures keys_sent { map (sending_key client10.ends Client) (moments client10.turns) ≡ replicate 4 None
        ++ replicate 52 (Some (codes "e2m2")) }
    ensures keys_taken { map (taking_key client10.ends Client) (moments client10.turns) ≡ replicate 7 None
        ++ replicate 49 (Some (codes "e2m2")) }
    ensures may_take { map (allowed client10.ends Client client10.numbers) (moments client10.turns) ≡ replicate 2 (1 ∷ []) ++ replicate 2 (1
        ∷ 31 ∷ []) ++ replicate 3 (1 ∷ 21 ∷ []) ++ replicate 3 (1 ∷ 4 ∷ 19 ∷ 22 ∷ 29 ∷ []) ++ replicate 5 (1 ∷ 4 ∷ 6 ∷ 19 ∷ 22 ∷ 29 ∷ [])
        ++ replicate 6 (1 ∷ 4 ∷ 19 ∷ 22 ∷ 29 ∷ 53 ∷ []) ++ replicate 12 (1 ∷ 4 ∷ 19 ∷ 22 ∷ 29 ∷ 89 ∷ 101 ∷ []) ++ replicate 6 (1 ∷ 4 ∷ 19
        ∷ 22 ∷ 29 ∷ 31 ∷ []) ++ replicate 3 (1 ∷ 4 ∷ 19 ∷ 21 ∷ 22 ∷ 29 ∷ []) ++ replicate 2 (1 ∷ 4 ∷ 19 ∷ 22 ∷ 29 ∷ 89 ∷ 101 ∷ [])
        ++ replicate 2 (1 ∷ 4 ∷ 19 ∷ 22 ∷ 29 ∷ 31 ∷ []) ++ replicate 4 (1 ∷ 4 ∷ 19 ∷ 21 ∷ 22 ∷ 29 ∷ []) ++ replicate 6 (1 ∷ 4 ∷ 19 ∷ 22 ∷ 29
        ∷ 89 ∷ 101 ∷ []) }
    ensures extensions { map (may_take_extensions Client) (moments client10.turns) ≡ replicate 56 false }
    ensures announces { map (announces client10.ends Client) (moments client10.turns) ≡ replicate 56 false }
    ensures requested { map (service_requested Client) (moments client10.turns) ≡ replicate 10 false ++ replicate 46 true }
    ensures accepted { map took_service_accept (moments client10.turns) ≡ replicate 15 false ++ replicate 41 true }
    ensures authenticated { map (authenticated Client) (moments client10.turns) ≡ replicate 21 false ++ replicate 35 true }
    ensures failures { map failures (moments client10.turns) ≡ replicate 56 0 }
    ensures outstanding { map (λ h. request_number (outstanding h)) (moments client10.turns) ≡ replicate 20 0 ++ 2 ∷ replicate 35 0 }
    ensures refused { map (verdicts client10.ends Client client10.messages) (moments client10.turns) ≡ replicate 2 (replicate 2 9
        ++ replicate 12 7) ++ replicate 2 (replicate 5 7 ++ 0 ∷ 11 ∷ 0 ∷ replicate 6 7) ++ replicate 3 (replicate 14 7)
        ++ replicate 13 (replicate 11 7 ++ replicate 2 0 ++ 7 ∷ []) ++ (replicate 11 7 ++ replicate 3 0) ∷ replicate 3 (replicate 2 12
        ++ replicate 3 16 ++ replicate 3 7 ++ 16 ∷ replicate 2 7 ++ replicate 2 0 ++ 7 ∷ []) ++ replicate 2 (replicate 2 12
        ++ replicate 3 16 ++ replicate 6 7 ++ replicate 2 0 ++ 7 ∷ []) ++ replicate 7 (replicate 2 0 ++ replicate 3 16 ++ replicate 6 7
        ++ replicate 2 0 ++ 7 ∷ []) ++ replicate 6 (replicate 5 7 ++ 0 ∷ 11 ∷ 0 ∷ replicate 4 7 ++ 0 ∷ 7 ∷ [])
        ++ replicate 3 (replicate 12 7 ++ 0 ∷ 7 ∷ []) ++ replicate 2 (replicate 2 0 ++ replicate 3 16 ++ replicate 6 7 ++ replicate 2 0 ++ 7
        ∷ []) ++ replicate 2 (replicate 5 7 ++ 0 ∷ 11 ∷ 0 ∷ replicate 4 7 ++ 0 ∷ 7 ∷ []) ++ replicate 4 (replicate 12 7 ++ 0 ∷ 7 ∷ [])
        ++ replicate 4 (replicate 2 12 ++ 0 ∷ replicate 2 16 ++ replicate 6 7 ++ replicate 2 0 ++ 7 ∷ []) ++ replicate 2 (replicate 2 12
        ++ 17 ∷ replicate 2 16 ++ replicate 6 7 ++ replicate 2 0 ++ 7 ∷ []) }
    ensures asks_refused { map (ask_verdicts client10.ends Client client10.asks) (moments client10.turns) ≡ replicate 7 (replicate 9 1)
        ++ replicate 3 (replicate 5 1 ++ 0 ∷ replicate 3 1) ++ replicate 5 (replicate 5 1 ++ 2 ∷ replicate 3 1)
        ++ replicate 5 (replicate 2 1 ++ 0 ∷ 1 ∷ 0 ∷ 2 ∷ 1 ∷ 0 ∷ 1 ∷ []) ++ (replicate 2 1 ++ 2 ∷ 1 ∷ replicate 2 2 ++ 1 ∷ 2 ∷ 1 ∷ [])
        ∷ replicate 3 (replicate 2 3 ++ 6 ∷ 3 ∷ 6 ∷ 2 ∷ 3 ∷ 6 ∷ 3 ∷ []) ++ replicate 5 (replicate 2 3 ++ 6 ∷ 0 ∷ 6 ∷ 2 ∷ 3 ∷ 6 ∷ 0 ∷ [])
        ++ replicate 10 (replicate 2 2 ++ 6 ∷ 2 ∷ 6 ∷ replicate 2 2 ++ 6 ∷ 2 ∷ []) ++ replicate 5 (replicate 2 3 ++ 6 ∷ 0 ∷ 6 ∷ 2 ∷ 3 ∷ 6
        ∷ 0 ∷ []) ++ replicate 2 (replicate 2 2 ++ 6 ∷ 2 ∷ 6 ∷ replicate 2 2 ++ 6 ∷ 2 ∷ []) ++ replicate 10 (replicate 2 3 ++ 6 ∷ 0 ∷ 6 ∷ 2
        ∷ 3 ∷ 6 ∷ 0 ∷ []) }
    ensures channel_0 { map (channel_state Client 0) (moments client10.turns) ≡ replicate 56 [] }
    ensures channel_1 { map (channel_state Client 1) (moments client10.turns) ≡ replicate 24 [] ++ replicate 32 (2 ∷ 12 ∷ 6 ∷ 5 ∷ []) }
    ensures channel_2 { map (channel_state Client 2) (moments client10.turns) ≡ replicate 30 [] ++ replicate 19 (2 ∷ replicate 2 5 ++ 2
        ∷ []) ++ replicate 3 (3 ∷ replicate 2 5 ++ 7 ∷ 32768 ∷ 2 ∷ replicate 5 0) ++ replicate 4 [] }
    ensures held { map (held Client (numbers_from 0 3)) (moments client10.turns) ≡ replicate 24 (replicate 3 false) ++ replicate 6 (false
        ∷ true ∷ false ∷ []) ++ replicate 22 (false ∷ replicate 2 true) ++ replicate 4 (false ∷ true ∷ false ∷ []) }
    ensures replies { map (replies Client (numbers_from 0 3)) (moments client10.turns) ≡ replicate 49 (replicate 3 [])
        ++ replicate 3 (replicate 2 [] ++ (replicate 2 2 ∷ []) ∷ []) ++ replicate 4 (replicate 3 []) }
    ensures owed { map (owed_closes Client) (moments client10.turns) ≡ replicate 56 [] }
    ensures globals { map waiting_globals (moments client10.turns) ≡ replicate 25 (replicate 2 0) ++ replicate 3 (0 ∷ 1 ∷ [])
        ++ replicate 12 (replicate 2 1) ++ replicate 7 (1 ∷ 2 ∷ []) ++ replicate 9 (0 ∷ 2 ∷ []) }
    ensures all_numbers_36 { allowed client10.ends Client (numbers_from 0 256) (whole (take 36 client10.turns)) ≡ numbers_from 0 5
        ++ numbers_from 8 12 ++ numbers_from 22 8 ++ numbers_from 31 1 }
    ensures all_numbers_56 { allowed client10.ends Client (numbers_from 0 256) (whole (take 56 client10.turns)) ≡ numbers_from 0 5
        ++ numbers_from 8 13 ++ numbers_from 22 8 ++ numbers_from 32 18 ++ numbers_from 54 6 ++ numbers_from 61 195 }
    ensures first_offer { offer client10.ends Client true [] ≡ proposing (codes "k2" ∷ codes "kex-strict-c-v00@openssh.com"
        ∷ []) (codes "h1" ∷ []) (codes "e2" ∷ codes "e1" ∷ []) (codes "e2" ∷ codes "e1" ∷ []) (codes "m2" ∷ codes "m1" ∷ codes "m3"
        ∷ []) (codes "m2" ∷ codes "m1" ∷ codes "m3" ∷ []) }
    ensures later_offer { offer client10.ends Client false [] ≡ proposing (codes "k2" ∷ []) (codes "h1" ∷ []) (codes "e2" ∷ codes "e1"
        ∷ []) (codes "e2" ∷ codes "e1" ∷ []) (codes "m2" ∷ codes "m1" ∷ codes "m3" ∷ []) (codes "m2" ∷ codes "m1" ∷ codes "m3" ∷ []) }
    ensures texts { map exchange_text (exchanges client10.ends Client (whole client10.turns)) ≡ client10.text_2 ∷ client10.text_1
        ∷ client10.text_0 ∷ [] }
    ensures algorithms { map names_of (choices Client (whole client10.turns)) ≡ replicate 3 (codes "k2" ∷ codes "h1"
        ∷ replicate 2 (codes "e2") ++ replicate 2 (codes "m2") ++ replicate 2 (codes "none")) }
    ensures session { session_id (exchanges client10.ends Client (whole client10.turns)) ≡ sha256 client10.text_0 }
    ensures sending_key { sending_name client10.ends Client (whole client10.turns)
        ≡ named Client (sha256 client10.text_2) (sha256 client10.text_0) }
    ensures taking_key { taking_name client10.ends Client (whole client10.turns)
        ≡ named Server (sha256 client10.text_2) (sha256 client10.text_0) }
{}

/// Server10: values after each of 56 turns.
#[tactic(auto, unfolding(ssh_model::specs::Protocol::Channels::History::has_place, ssh_model::specs::Protocol::Channels::History::some_free, ssh_model::specs::Protocol::KeyExchange::Choice::methods, ssh_model::specs::Protocol::KeyExchange::Exchange::string_of))]
pub fn server10()
    ensures phases { map (phase server10.ends Server) (moments server10.turns) ≡ replicate 2 Start ++ Exchanging ∷ Keying
        ∷ replicate 6 Normal ++ replicate 5 Exchanging ++ replicate 5 Keying ++ replicate 5 Normal ++ Exchanging ∷ replicate 2 Keying
        ++ replicate 8 Normal ++ Exchanging ∷ replicate 3 Keying ++ replicate 16 Normal }
    ensures blocked { map blocked (moments server10.turns) ≡ replicate 3 true ++ replicate 7 false ++ replicate 5 true ++ replicate 7 false
        ++ replicate 4 true ++ replicate 10 false ++ true ∷ replicate 19 false }
    ensures died { map has_died (moments server10.turns) ≡ replicate 56 false }
    ensures can_feed { map can_feed (moments server10.turns) ≡ replicate 8 true ++ replicate 2 false ++ replicate 7 true
        ++ replicate 5 false ++ replicate 8 true ++ replicate 6 false ++ replicate 17 true ++ replicate 3 false }
    ensures points { map (point_now server10.ends Server) (moments server10.turns) ≡ replicate 3 (replicate 32 61) ++ replicate 5 []
        ++ replicate 7 (replicate 32 49) ++ replicate 2 [] ++ replicate 9 (replicate 32 96) ++ replicate 4 []
        ++ replicate 7 (replicate 32 62) ++ replicate 16 [] ++ replicate 3 (replicate 32 50) }
    ensures cookies { map next_cookie (moments server10.turns) ≡ replicate 8 [] ++ replicate 2 (replicate 16 77) ++ replicate 7 []
        ++ replicate 5 (replicate 16 69) ++ replicate 8 [] ++ replicate 6 (replicate 16 17) ++ replicate 17 []
        ++ replicate 3 (replicate 16 122) }
    ensures other_lines { map other_lines (moments server10.turns) ≡ replicate 56 0 }
    ensures strict { map (is_strict Server) (moments server10.turns) ≡ replicate 2 false ++ replicate 54 true }
    ensures epochs_sent { map (λ h. epoch (sent h)) (moments server10.turns) ≡ replicate 3 0 ++ replicate 12 1 ++ replicate 11 2
        ++ replicate 11 3 ++ replicate 19 4 }
    ensures epochs_taken { map (λ h. epoch (took h)) (moments server10.turns) ≡ replicate 4 0 ++ replicate 16 1 ++ replicate 8 2
        ++ replicate 12 3 ++ replicate 16 4 }
    ensures counts_sent { map (λ h. count (sent h)) (moments server10.turns) ≡ replicate 3 1 ++ replicate 3 0 ++ 1 ∷ replicate 3 2
        ++ replicate 5 3 ++ 0 ∷ replicate 2 1 ++ 2 ∷ replicate 2 3 ++ 4 ∷ replicate 4 5 ++ 0 ∷ replicate 6 1 ++ 2 ∷ 3 ∷ 4 ∷ 5 ∷ 0 ∷ 1
        ∷ replicate 6 2 ++ replicate 9 3 ++ replicate 2 4 }
    ensures counts_taken { map (λ h. count (took h)) (moments server10.turns) ≡ replicate 2 0 ++ 1 ∷ 2 ∷ 0 ∷ 1 ∷ 2 ∷ replicate 2 3 ++ 4 ∷ 5
        ∷ 6 ∷ 7 ∷ 8 ∷ 9 ∷ replicate 5 10 ++ replicate 3 0 ++ 1 ∷ 2 ∷ 3 ∷ replicate 2 4 ++ 0 ∷ replicate 2 1 ++ 2 ∷ replicate 2 3
        ++ replicate 2 4 ++ 5 ∷ replicate 3 6 ++ 0 ∷ 1 ∷ 2 ∷ 3 ∷ replicate 2 4 ++ 5 ∷ 6 ∷ 7 ∷ 8 ∷ 9 ∷ 10 ∷ replicate 2 11 ++ 12 ∷ 13 ∷ [] }
    ensures later_sent { map (λ h. length (after_first (sent h))) (moments server10.turns) ≡ replicate 6 0 ++ 1 ∷ replicate 3 2
        ++ replicate 5 3 ++ 5 ∷ replicate 2 6 ++ 7 ∷ replicate 2 8 ++ 9 ∷ replicate 4 10 ++ 12 ∷ replicate 6 13 ++ 14 ∷ 15 ∷ 16 ∷ 17 ∷ 19
        ∷ 20 ∷ replicate 6 21 ++ replicate 9 22 ++ replicate 2 23 }
    ensures later_taken { map (λ h. length (after_first (took h))) (moments server10.turns) ≡ replicate 5 0 ++ 1 ∷ 2 ∷ replicate 2 3 ++ 4
        ∷ 5 ∷ 6 ∷ 7 ∷ 8 ∷ 9 ∷ replicate 5 10 ++ replicate 3 11 ++ 12 ∷ 13 ∷ 14 ∷ replicate 2 15 ++ 16 ∷ replicate 2 17 ++ 18
        ∷ replicate 2 19 ++ replicate 2 20 ++ 21 ∷ replicate 3 22 ++ 23 ∷ 24 ∷ 25 ∷ 26 ∷ replicate 2 27 ++ 28 ∷ 29 ∷ 30 ∷ 31 ∷ 32 ∷ 33
        ∷ replicate 2 34 ++ 35 ∷ 36 ∷ [] }
    ensures numbers_sent { map (sending_number Server) (moments server10.turns) ≡ replicate 3 1 ++ replicate 3 0 ++ 1 ∷ replicate 3 2
        ++ replicate 5 3 ++ 0 ∷ replicate 2 1 ++ 2 ∷ replicate 2 3 ++ 4 ∷ replicate 4 5 ++ 0 ∷ replicate 6 1 ++ 2 ∷ 3 ∷ 4 ∷ 5 ∷ 0 ∷ 1
        ∷ replicate 6 2 ++ replicate 9 3 ++ replicate 2 4 }
    ensures numbers_taken { map (taking_number Server) (moments server10.turns) ≡ replicate 2 0 ++ 1 ∷ 2 ∷ 0 ∷ 1 ∷ 2 ∷ replicate 2 3 ++ 4
        ∷ 5 ∷ 6 ∷ 7 ∷ 8 ∷ 9 ∷ replicate 5 10 ++ replicate 3 0 ++ 1 ∷ 2 ∷ 3 ∷ replicate 2 4 ++ 0 ∷ replicate 2 1 ++ 2 ∷ replicate 2 3
        ++ replicate 2 4 ++ 5 ∷ replicate 3 6 ++ 0 ∷ 1 ∷ 2 ∷ 3 ∷ replicate 2 4 ++ 5 ∷ 6 ∷ 7 ∷ 8 ∷ 9 ∷ 10 ∷ replicate 2 11 ++ 12 ∷ 13 ∷ [] }
    ensures keys_sent { map (sending_key server10.ends Server) (moments server10.turns) ≡ replicate 3 None
        ++ replicate 12 (Some (codes "e1m3")) ++ replicate 11 (Some (codes "e2m3")) ++ replicate 11 (Some (codes "e1m3"))
        ++ replicate 19 (Some (codes "e2m3")) }
    ensures keys_taken { map (taking_key server10.ends Server) (moments server10.turns) ≡ replicate 4 None
        ++ replicate 16 (Some (codes "e2m3")) ++ replicate 8 (Some (codes "e1m3")) ++ replicate 28 (Some (codes "e2m3")) }
    ensures may_take { map (allowed server10.ends Server server10.numbers) (moments server10.turns) ≡ replicate 4 [] ++ replicate 3 (2 ∷ 8
        ∷ 49 ∷ 54 ∷ 79 ∷ []) ++ replicate 3 (2 ∷ 8 ∷ 49 ∷ 54 ∷ 79 ∷ 82 ∷ 89 ∷ 192 ∷ 255 ∷ []) ++ replicate 10 (2 ∷ 8 ∷ []) ++ replicate 5 (2
        ∷ 8 ∷ 49 ∷ 54 ∷ 79 ∷ 82 ∷ 89 ∷ 192 ∷ 255 ∷ []) ++ replicate 3 (2 ∷ 8 ∷ []) ++ replicate 8 (2 ∷ 8 ∷ 49 ∷ 54 ∷ 79 ∷ 82 ∷ 89 ∷ 192
        ∷ 255 ∷ []) ++ replicate 4 (2 ∷ 8 ∷ []) ++ replicate 16 (2 ∷ 8 ∷ 49 ∷ 54 ∷ 79 ∷ 82 ∷ 89 ∷ 192 ∷ 255 ∷ []) }
    ensures extensions { map (may_take_extensions Server) (moments server10.turns) ≡ replicate 4 false ++ true ∷ replicate 51 false }
    ensures announces { map (announces server10.ends Server) (moments server10.turns) ≡ replicate 56 false }
    ensures requested { map (service_requested Server) (moments server10.turns) ≡ replicate 6 false ++ replicate 50 true }
    ensures accepted { map sent_service_accept (moments server10.turns) ≡ replicate 6 false ++ replicate 50 true }
    ensures authenticated { map (authenticated Server) (moments server10.turns) ≡ replicate 7 false ++ replicate 49 true }
    ensures failures { map failures (moments server10.turns) ≡ replicate 56 0 }
    ensures outstanding { map (λ h. request_number (outstanding h)) (moments server10.turns) ≡ replicate 56 0 }
    ensures refused { map (verdicts server10.ends Server server10.messages) (moments server10.turns) ≡ replicate 2 (replicate 2 9
        ++ replicate 9 7 ++ 0 ∷ replicate 5 7) ++ (replicate 5 7 ++ replicate 2 10 ++ 0 ∷ replicate 3 7 ++ 0 ∷ replicate 5 7)
        ∷ (replicate 11 7 ++ 0 ∷ replicate 5 7) ∷ replicate 2 (replicate 11 7 ++ replicate 2 0 ++ replicate 3 7 ++ 0 ∷ []) ++ (replicate 8 7
        ++ replicate 5 0 ++ replicate 3 7 ++ 0 ∷ []) ∷ (replicate 2 12 ++ replicate 3 16 ++ replicate 3 7 ++ replicate 5 0 ++ 7 ∷ 16 ∷ 7 ∷ 0
        ∷ []) ∷ replicate 2 (replicate 2 0 ++ replicate 3 16 ++ replicate 3 7 ++ replicate 5 0 ++ 7 ∷ 16 ∷ 7 ∷ 0 ∷ [])
        ++ replicate 5 (replicate 5 7 ++ replicate 2 10 ++ 0 ∷ replicate 3 7 ++ replicate 2 0 ++ replicate 3 7 ++ 0 ∷ [])
        ++ replicate 5 (replicate 11 7 ++ replicate 2 0 ++ replicate 3 7 ++ 0 ∷ []) ++ replicate 3 (replicate 2 0 ++ replicate 3 16
        ++ replicate 3 7 ++ replicate 5 0 ++ 7 ∷ 0 ∷ 7 ∷ 0 ∷ []) ++ (replicate 3 0 ++ 17 ∷ 16 ∷ replicate 3 7 ++ replicate 5 0
        ++ replicate 3 7 ++ 0 ∷ []) ∷ (replicate 2 0 ++ replicate 2 7 ++ 16 ∷ replicate 3 7 ++ replicate 5 0 ++ replicate 3 7 ++ 0 ∷ [])
        ∷ (replicate 5 7 ++ replicate 2 10 ++ 0 ∷ replicate 3 7 ++ replicate 2 0 ++ replicate 3 7 ++ 0 ∷ []) ∷ replicate 2 (replicate 11 7
        ++ replicate 2 0 ++ replicate 3 7 ++ 0 ∷ []) ++ replicate 2 (replicate 2 12 ++ replicate 2 7 ++ 16 ∷ replicate 3 7 ++ replicate 5 0
        ++ replicate 3 7 ++ 0 ∷ []) ++ replicate 4 (replicate 2 0 ++ replicate 2 7 ++ 16 ∷ replicate 3 7 ++ replicate 5 0 ++ replicate 3 7
        ++ 0 ∷ []) ++ (replicate 2 0 ++ replicate 3 16 ++ replicate 3 7 ++ replicate 5 0 ++ 7 ∷ 16 ∷ 7 ∷ 0 ∷ []) ∷ (replicate 2 0
        ++ replicate 3 16 ++ replicate 3 7 ++ replicate 5 0 ++ 7 ∷ 0 ∷ 7 ∷ 0 ∷ []) ∷ (replicate 5 7 ++ replicate 2 10 ++ 0 ∷ replicate 3 7
        ++ replicate 2 0 ++ replicate 3 7 ++ 0 ∷ []) ∷ replicate 3 (replicate 11 7 ++ replicate 2 0 ++ replicate 3 7 ++ 0 ∷ [])
        ++ (replicate 2 12 ++ replicate 3 16 ++ replicate 3 7 ++ replicate 5 0 ++ 7 ∷ 0 ∷ 7 ∷ 0 ∷ []) ∷ (replicate 2 12 ++ 0 ∷ 17 ∷ 16
        ∷ replicate 3 7 ++ replicate 5 0 ++ replicate 3 7 ++ 0 ∷ []) ∷ replicate 8 (replicate 2 12 ++ 0 ∷ 17 ∷ 0 ∷ replicate 3 7
        ++ replicate 5 0 ++ replicate 3 7 ++ 0 ∷ []) ++ replicate 3 (replicate 2 12 ++ replicate 2 7 ++ 0 ∷ replicate 3 7 ++ replicate 5 0
        ++ replicate 3 7 ++ 0 ∷ []) ++ replicate 3 (replicate 2 0 ++ replicate 2 7 ++ 0 ∷ replicate 3 7 ++ replicate 5 0 ++ replicate 3 7
        ++ 0 ∷ []) }
    ensures asks_refused { map (ask_verdicts server10.ends Server server10.asks) (moments server10.turns) ≡ replicate 7 (replicate 3 1 ++ 11
        ∷ replicate 5 1) ++ replicate 2 (replicate 3 3 ++ 11 ∷ 8 ∷ replicate 4 3) ++ (replicate 3 3 ++ 11 ∷ 0 ∷ replicate 4 3)
        ∷ replicate 5 (replicate 3 2 ++ 11 ∷ replicate 5 2) ++ replicate 7 (replicate 3 3 ++ 11 ∷ 0 ∷ replicate 4 3)
        ++ replicate 4 (replicate 3 2 ++ 11 ∷ replicate 5 2) ++ replicate 7 (3 ∷ 0 ∷ 8 ∷ 11 ∷ replicate 2 0 ++ replicate 2 3 ++ 0 ∷ [])
        ++ (3 ∷ 6 ∷ 8 ∷ 11 ∷ replicate 2 0 ++ replicate 2 3 ++ 6 ∷ []) ∷ replicate 2 (replicate 3 3 ++ 11 ∷ 0 ∷ replicate 4 3)
        ++ (replicate 3 2 ++ 11 ∷ replicate 5 2) ∷ (replicate 3 3 ++ 11 ∷ 0 ∷ replicate 4 3) ∷ replicate 3 (replicate 3 3 ++ 11 ∷ 8
        ∷ replicate 4 3) ++ (3 ∷ 0 ∷ 8 ∷ 11 ∷ 8 ∷ 0 ∷ replicate 2 3 ++ 0 ∷ []) ∷ (5 ∷ 0 ∷ 8 ∷ 11 ∷ 8 ∷ 0 ∷ replicate 2 3 ++ 0 ∷ [])
        ∷ replicate 13 (5 ∷ replicate 2 0 ++ 11 ∷ 8 ∷ 0 ∷ replicate 2 3 ++ 0 ∷ []) }
    ensures channel_0 { map (channel_state Server 0) (moments server10.turns) ≡ replicate 16 [] ++ replicate 7 (1 ∷ 5 ∷ 6 ∷ []) ++ (3 ∷ 8
        ∷ 6 ∷ 5 ∷ 6 ∷ 5 ∷ replicate 5 0) ∷ replicate 3 (3 ∷ 8 ∷ 6 ∷ 5 ∷ 6 ∷ 5 ∷ replicate 2 0 ++ 1 ∷ replicate 2 0) ++ replicate 6 (3 ∷ 7
        ∷ 6 ∷ 5 ∷ 6 ∷ 5 ∷ replicate 2 0 ++ 1 ∷ replicate 2 0) ++ (3 ∷ 7 ∷ 6 ∷ 5 ∷ 6 ∷ 5 ∷ 1 ∷ 0 ∷ 1 ∷ replicate 2 0) ∷ [] ∷ replicate 6 (1
        ∷ replicate 2 4) ++ replicate 2 (3 ∷ 6 ∷ 8 ∷ replicate 3 4 ++ replicate 5 0) ++ replicate 2 (3 ∷ 6 ∷ 8 ∷ replicate 3 4
        ++ replicate 3 0 ++ 1 ∷ 0 ∷ []) ++ (3 ∷ 2 ∷ 8 ∷ replicate 3 4 ++ replicate 3 0 ++ 1 ∷ 0 ∷ []) ∷ replicate 2 (3 ∷ 9 ∷ 8
        ∷ replicate 3 4 ++ replicate 3 0 ++ 1 ∷ 0 ∷ []) ++ replicate 2 (3 ∷ 9 ∷ 8 ∷ 0 ∷ replicate 2 4 ++ replicate 3 0 ++ 1 ∷ 0 ∷ [])
        ++ replicate 6 (3 ∷ 9 ∷ 8 ∷ 0 ∷ replicate 2 4 ++ replicate 2 0 ++ replicate 2 1 ++ 0 ∷ []) }
    ensures channel_1 { map (channel_state Server 1) (moments server10.turns) ≡ replicate 56 [] }
    ensures channel_2 { map (channel_state Server 2) (moments server10.turns) ≡ replicate 21 [] ++ replicate 21 (1 ∷ 7 ∷ 8 ∷ [])
        ++ replicate 13 (3 ∷ 5 ∷ 4 ∷ 7 ∷ replicate 2 8 ++ replicate 5 0) ++ (3 ∷ 5 ∷ 4 ∷ 7 ∷ replicate 2 8 ++ replicate 3 0 ++ 1 ∷ 0 ∷ [])
        ∷ [] }
    ensures held { map (held Server (numbers_from 0 3)) (moments server10.turns) ≡ replicate 16 (replicate 3 false) ++ replicate 5 (true
        ∷ replicate 2 false) ++ replicate 13 (true ∷ false ∷ true ∷ []) ++ (replicate 2 false ++ true ∷ []) ∷ replicate 21 (true ∷ false
        ∷ true ∷ []) }
    ensures replies { map (replies Server (numbers_from 0 3)) (moments server10.turns) ≡ replicate 26 (replicate 3 []) ++ replicate 8 (((0
        ∷ 5 ∷ []) ∷ []) ∷ replicate 2 []) ++ replicate 7 (replicate 3 []) ++ (((0 ∷ 4 ∷ []) ∷ []) ∷ replicate 2 []) ∷ replicate 14 (((0 ∷ 4
        ∷ []) ∷ []) ∷ [] ∷ ((2 ∷ 8 ∷ []) ∷ []) ∷ []) }
    ensures owed { map (owed_closes Server) (moments server10.turns) ≡ replicate 56 [] }
    ensures globals { map waiting_globals (moments server10.turns) ≡ replicate 9 (replicate 2 0) ++ replicate 10 (1 ∷ 0 ∷ [])
        ++ replicate 10 (replicate 2 1) ++ replicate 9 (1 ∷ 0 ∷ []) ++ replicate 2 0 ∷ replicate 5 (0 ∷ 1 ∷ [])
        ++ replicate 12 (replicate 2 0) }
    ensures all_numbers_43 { allowed server10.ends Server (numbers_from 0 256) (whole (take 43 server10.turns)) ≡ numbers_from 0 5
        ++ numbers_from 8 13 ++ numbers_from 22 8 ++ numbers_from 32 19 ++ numbers_from 54 6 ++ numbers_from 61 195 }
    ensures all_numbers_56 { allowed server10.ends Server (numbers_from 0 256) (whole (take 56 server10.turns)) ≡ numbers_from 0 5
        ++ numbers_from 8 13 ++ numbers_from 22 8 ++ numbers_from 32 19 ++ numbers_from 54 6 ++ numbers_from 61 195 }
    ensures first_offer { offer server10.ends Server true [] ≡ proposing (codes "k3" ∷ codes "ext-info-s"
        ∷ codes "kex-strict-s-v00@openssh.com" ∷ []) (codes "h1" ∷ []) (codes "e2" ∷ codes "e1" ∷ []) (codes "e2" ∷ codes "e1"
        ∷ []) (codes "m3" ∷ []) (codes "m3" ∷ []) }
    ensures later_offer { offer server10.ends Server false [] ≡ proposing (codes "k3" ∷ []) (codes "h1" ∷ []) (codes "e2" ∷ codes "e1"
        ∷ []) (codes "e2" ∷ codes "e1" ∷ []) (codes "m3" ∷ []) (codes "m3" ∷ []) }
    ensures texts { map exchange_text (exchanges server10.ends Server (whole server10.turns)) ≡ server10.text_3 ∷ server10.text_2
        ∷ server10.text_1 ∷ server10.text_0 ∷ [] }
    ensures algorithms { map names_of (choices Server (whole server10.turns)) ≡ (codes "k3" ∷ codes "h1" ∷ replicate 2 (codes "e2")
        ++ replicate 2 (codes "m3") ++ replicate 2 (codes "none")) ∷ (codes "k3" ∷ codes "h1" ∷ codes "e2" ∷ codes "e1"
        ∷ replicate 2 (codes "m3") ++ replicate 2 (codes "none")) ∷ (codes "k3" ∷ codes "h1" ∷ codes "e1" ∷ codes "e2"
        ∷ replicate 2 (codes "m3") ++ replicate 2 (codes "none")) ∷ (codes "k3" ∷ codes "h1" ∷ codes "e2" ∷ codes "e1"
        ∷ replicate 2 (codes "m3") ++ replicate 2 (codes "none")) ∷ [] }
    ensures session { session_id (exchanges server10.ends Server (whole server10.turns)) ≡ sha256 server10.text_0 }
    ensures sending_key { sending_name server10.ends Server (whole server10.turns)
        ≡ named Server (sha256 server10.text_3) (sha256 server10.text_0) }
    ensures taking_key { taking_name server10.ends Server (whole server10.turns)
        ≡ named Client (sha256 server10.text_3) (sha256 server10.text_0) }
{}

/// Client11: values after each of 56 turns.
#[tactic(auto, unfolding(ssh_model::specs::Protocol::Channels::History::has_place, ssh_model::specs::Protocol::Channels::History::some_free, ssh_model::specs::Protocol::KeyExchange::Choice::methods, ssh_model::specs::Protocol::KeyExchange::Exchange::string_of))]
pub fn client11()
    ensures phases { map (phase client11.ends Client) (moments client11.turns) ≡ replicate 2 Start ++ replicate 2 Exchanging ++ Keying
        ∷ replicate 17 Normal ++ Exchanging ∷ replicate 2 Keying ++ replicate 7 Normal ++ Exchanging ∷ replicate 2 Keying
        ++ replicate 14 Normal ++ replicate 3 Exchanging ++ replicate 4 Keying }
    ensures blocked { map blocked (moments client11.turns) ≡ replicate 4 true ++ replicate 18 false ++ true ∷ replicate 7 false
        ++ replicate 3 true ++ replicate 10 false ++ replicate 9 true ++ replicate 4 false }
    ensures died { map has_died (moments client11.turns) ≡ replicate 56 false }
    ensures can_feed { map can_feed (moments client11.turns) ≡ replicate 21 true ++ false ∷ replicate 7 true ++ false ∷ true
        ∷ replicate 12 false ++ replicate 8 true ++ replicate 5 false }
    ensures points { map (point_now client11.ends Client) (moments client11.turns) ≡ replicate 4 (replicate 32 27) ++ replicate 17 []
        ++ replicate 2 (replicate 32 179) ++ replicate 6 [] ++ replicate 4 (replicate 32 129) ++ replicate 19 (replicate 32 138)
        ++ replicate 4 (replicate 32 48) }
    ensures cookies { map next_cookie (moments client11.turns) ≡ replicate 21 [] ++ replicate 16 38 ∷ replicate 7 [] ++ replicate 16 221
        ∷ [] ∷ replicate 12 (replicate 16 156) ++ replicate 8 [] ++ replicate 5 (replicate 16 87) }
    ensures other_lines { map other_lines (moments client11.turns) ≡ replicate 56 0 }
    ensures strict { map (is_strict Client) (moments client11.turns) ≡ replicate 2 false ++ replicate 54 true }
    ensures epochs_sent { map (λ h. epoch (sent h)) (moments client11.turns) ≡ replicate 4 0 ++ replicate 19 1 ++ replicate 10 2
        ++ replicate 19 3 ++ replicate 4 4 }
    ensures epochs_taken { map (λ h. epoch (took h)) (moments client11.turns) ≡ replicate 5 0 ++ replicate 20 1 ++ replicate 10 2
        ++ replicate 21 3 }
    ensures counts_sent { map (λ h. count (sent h)) (moments client11.turns) ≡ replicate 2 1 ++ replicate 2 2 ++ replicate 2 1
        ++ replicate 2 2 ++ replicate 2 3 ++ replicate 4 4 ++ replicate 6 5 ++ replicate 2 6 ++ 8 ∷ 0 ∷ replicate 6 1 ++ replicate 2 2 ++ 3
        ∷ 0 ∷ replicate 4 1 ++ replicate 3 2 ++ 3 ∷ 4 ∷ replicate 6 5 ++ replicate 3 6 ++ 0 ∷ 1 ∷ replicate 2 2 }
    ensures counts_taken { map (λ h. count (took h)) (moments client11.turns) ≡ replicate 2 0 ++ replicate 2 1 ++ 2 ∷ replicate 2 0
        ++ replicate 2 1 ++ replicate 3 2 ++ 3 ∷ replicate 2 4 ++ 5 ∷ 6 ∷ 7 ∷ 8 ∷ replicate 3 9 ++ 10 ∷ replicate 2 11 ++ 0 ∷ replicate 2 1
        ++ replicate 4 2 ++ 3 ∷ replicate 2 4 ++ replicate 4 0 ++ 1 ∷ replicate 4 2 ++ 3 ∷ 4 ∷ 5 ∷ 6 ∷ 7 ∷ 8 ∷ replicate 2 9
        ++ replicate 4 10 }
    ensures later_sent { map (λ h. length (after_first (sent h))) (moments client11.turns) ≡ replicate 4 0 ++ replicate 2 1 ++ replicate 2 2
        ++ replicate 2 3 ++ replicate 4 4 ++ replicate 6 5 ++ replicate 2 6 ++ 8 ∷ 9 ∷ replicate 6 10 ++ replicate 2 11 ++ 12 ∷ 13
        ∷ replicate 4 14 ++ replicate 3 15 ++ 16 ∷ 17 ∷ replicate 6 18 ++ replicate 3 19 ++ 20 ∷ 21 ∷ replicate 2 22 }
    ensures later_taken { map (λ h. length (after_first (took h))) (moments client11.turns) ≡ replicate 7 0 ++ replicate 2 1
        ++ replicate 3 2 ++ 3 ∷ replicate 2 4 ++ 5 ∷ 6 ∷ 7 ∷ 8 ∷ replicate 3 9 ++ 10 ∷ replicate 2 11 ++ 12 ∷ replicate 2 13
        ++ replicate 4 14 ++ 15 ∷ replicate 2 16 ++ replicate 4 17 ++ 18 ∷ replicate 4 19 ++ 20 ∷ 21 ∷ 22 ∷ 23 ∷ 24 ∷ 25 ∷ replicate 2 26
        ++ replicate 4 27 }
    ensures numbers_sent { map (sending_number Client) (moments client11.turns) ≡ replicate 2 1 ++ replicate 2 2 ++ replicate 2 1
        ++ replicate 2 2 ++ replicate 2 3 ++ replicate 4 4 ++ replicate 6 5 ++ replicate 2 6 ++ 8 ∷ 0 ∷ replicate 6 1 ++ replicate 2 2 ++ 3
        ∷ 0 ∷ replicate 4 1 ++ replicate 3 2 ++ 3 ∷ 4 ∷ replicate 6 5 ++ replicate 3 6 ++ 0 ∷ 1 ∷ replicate 2 2 }
    ensures numbers_taken { map (taking_number Client) (moments client11.turns) ≡ replicate 2 0 ++ replicate 2 1 ++ 2 ∷ replicate 2 0
        ++ replicate 2 1 ++ replicate 3 2 ++ 3 ∷ replicate 2 4 ++ 5 ∷ 6 ∷ 7 ∷ 8 ∷ replicate 3 9 ++ 10 ∷ replicate 2 11 ++ 0 ∷ replicate 2 1
        ++ replicate 4 2 ++ 3 ∷ replicate 2 4 ++ replicate 4 0 ++ 1 ∷ replicate 4 2 ++ 3 ∷ 4 ∷ 5 ∷ 6 ∷ 7 ∷ 8 ∷ replicate 2 9
        ++ replicate 4 10 }
    ensures keys_sent { map (sending_key client11.ends Client) (moments client11.turns) ≡ replicate 4 None
        ++ replicate 52 (Some (codes "e2m3")) }
    ensures keys_taken { map (taking_key client11.ends Client) (moments client11.turns) ≡ replicate 5 None
        ++ replicate 51 (Some (codes "e2m3")) }
    ensures may_take { map (allowed client11.ends Client client11.numbers) (moments client11.turns) ≡ replicate 2 (20 ∷ [])
        ++ replicate 3 [] ++ replicate 2 (22 ∷ 32 ∷ 61 ∷ []) ++ (22 ∷ 32 ∷ 53 ∷ 61 ∷ []) ∷ (22 ∷ 32 ∷ 52 ∷ 53 ∷ 61 ∷ []) ∷ (22 ∷ 32 ∷ 53
        ∷ 61 ∷ []) ∷ replicate 2 (22 ∷ 32 ∷ 52 ∷ 53 ∷ 61 ∷ []) ++ replicate 10 (20 ∷ 22 ∷ 32 ∷ 61 ∷ 82 ∷ 101 ∷ 255 ∷ []) ++ replicate 3 (22
        ∷ []) ++ replicate 7 (20 ∷ 22 ∷ 32 ∷ 61 ∷ 82 ∷ 101 ∷ 255 ∷ []) ++ replicate 3 (22 ∷ []) ++ replicate 14 (20 ∷ 22 ∷ 32 ∷ 61 ∷ 82
        ∷ 101 ∷ 255 ∷ []) ++ replicate 7 (22 ∷ []) }
    ensures extensions { map (may_take_extensions Client) (moments client11.turns) ≡ replicate 56 false }
    ensures announces { map (announces client11.ends Client) (moments client11.turns) ≡ replicate 2 false ++ replicate 2 true
        ++ replicate 52 false }
    ensures requested { map (service_requested Client) (moments client11.turns) ≡ replicate 6 false ++ replicate 50 true }
    ensures accepted { map took_service_accept (moments client11.turns) ≡ replicate 7 false ++ replicate 49 true }
    ensures authenticated { map (authenticated Client) (moments client11.turns) ≡ replicate 12 false ++ replicate 44 true }
    ensures failures { map failures (moments client11.turns) ≡ replicate 56 0 }
    ensures outstanding { map (λ h. request_number (outstanding h)) (moments client11.turns) ≡ replicate 8 0 ++ 4 ∷ 0 ∷ replicate 2 2
        ++ replicate 44 0 }
    ensures refused { map (verdicts client11.ends Client client11.messages) (moments client11.turns) ≡ replicate 2 (replicate 2 9
        ++ replicate 12 7) ++ replicate 2 (replicate 5 7 ++ replicate 2 0 ++ 11 ∷ replicate 6 7) ++ replicate 8 (replicate 14 7)
        ++ (replicate 2 12 ++ replicate 3 16 ++ replicate 5 7 ++ 16 ∷ 7 ∷ replicate 2 16) ∷ (replicate 2 12 ++ replicate 3 16
        ++ replicate 5 7 ++ 16 ∷ replicate 2 7 ++ 16 ∷ []) ∷ replicate 4 (replicate 2 12 ++ replicate 3 16 ++ replicate 5 7 ++ 16 ∷ 0 ∷ 7
        ∷ 16 ∷ []) ++ replicate 2 (replicate 2 12 ++ replicate 3 16 ++ replicate 5 7 ++ 16 ∷ replicate 2 7 ++ 16 ∷ []) ++ (replicate 2 12
        ++ replicate 3 16 ++ replicate 5 7 ++ 16 ∷ 0 ∷ 7 ∷ 16 ∷ []) ∷ (replicate 2 0 ++ replicate 3 16 ++ replicate 5 7 ++ 16 ∷ 0 ∷ 7 ∷ 16
        ∷ []) ∷ (replicate 5 7 ++ replicate 2 0 ++ 11 ∷ replicate 6 7) ∷ replicate 2 (replicate 14 7) ++ replicate 3 (replicate 2 12
        ++ replicate 2 16 ++ 0 ∷ replicate 5 7 ++ 16 ∷ 0 ∷ 7 ∷ 16 ∷ []) ++ (replicate 2 12 ++ replicate 2 16 ++ 0 ∷ replicate 5 7 ++ 16
        ∷ replicate 2 7 ++ 16 ∷ []) ∷ replicate 3 (replicate 2 0 ++ replicate 2 16 ++ 0 ∷ replicate 5 7 ++ 16 ∷ replicate 2 7 ++ 16 ∷ [])
        ++ (replicate 5 7 ++ replicate 2 0 ++ 11 ∷ replicate 6 7) ∷ replicate 2 (replicate 14 7) ++ replicate 4 (replicate 2 0
        ++ replicate 2 16 ++ 0 ∷ replicate 5 7 ++ 16 ∷ 0 ∷ 7 ∷ 16 ∷ []) ++ replicate 2 (replicate 2 0 ++ replicate 2 16 ++ 18
        ∷ replicate 5 7 ++ 16 ∷ 0 ∷ 7 ∷ 16 ∷ []) ++ replicate 8 (replicate 4 0 ++ 18 ∷ replicate 5 7 ++ 16 ∷ 0 ∷ 7 ∷ 16 ∷ [])
        ++ replicate 3 (replicate 5 7 ++ replicate 2 0 ++ 11 ∷ replicate 6 7) ++ replicate 4 (replicate 14 7) }
    ensures asks_refused { map (ask_verdicts client11.ends Client client11.asks) (moments client11.turns) ≡ replicate 5 (replicate 9 1)
        ++ (replicate 7 1 ++ 0 ∷ 1 ∷ []) ∷ (replicate 7 1 ++ 2 ∷ 1 ∷ []) ∷ (replicate 5 1 ++ replicate 2 0 ++ 2 ∷ 1 ∷ []) ∷ (replicate 5 1
        ++ replicate 3 2 ++ 1 ∷ []) ∷ (replicate 5 1 ++ replicate 2 0 ++ 2 ∷ 1 ∷ []) ∷ replicate 2 (replicate 5 1 ++ replicate 3 2 ++ 1
        ∷ []) ++ (replicate 2 3 ++ 8 ∷ replicate 2 3 ++ replicate 2 6 ++ 2 ∷ 0 ∷ []) ∷ replicate 4 (replicate 2 3 ++ 8 ∷ 3 ∷ 10
        ∷ replicate 2 6 ++ 2 ∷ 0 ∷ []) ++ replicate 5 (replicate 2 3 ++ 8 ∷ 0 ∷ 10 ∷ replicate 2 6 ++ 2 ∷ 0 ∷ []) ++ (replicate 5 2
        ++ replicate 2 6 ++ replicate 2 2) ∷ (replicate 2 3 ++ 8 ∷ 0 ∷ 10 ∷ replicate 2 6 ++ 2 ∷ 0 ∷ []) ∷ replicate 6 (3 ∷ 0 ∷ 8 ∷ 3 ∷ 10
        ∷ replicate 2 6 ++ 2 ∷ 0 ∷ []) ++ replicate 3 (replicate 5 2 ++ replicate 2 6 ++ replicate 2 2) ++ replicate 7 (3 ∷ 0 ∷ 8 ∷ 3 ∷ 10
        ∷ replicate 2 6 ++ 2 ∷ 0 ∷ []) ++ replicate 3 (3 ∷ replicate 2 0 ++ 3 ∷ 10 ∷ replicate 2 6 ++ 2 ∷ 0 ∷ [])
        ++ replicate 9 (replicate 5 2 ++ replicate 2 6 ++ replicate 2 2) ++ replicate 4 (3 ∷ replicate 2 0 ++ 3 ∷ 10 ∷ replicate 2 6 ++ 2
        ∷ 0 ∷ []) }
    ensures channel_0 { map (channel_state Client 0) (moments client11.turns) ≡ replicate 13 [] ++ replicate 43 (2 ∷ 8 ∷ 5 ∷ 3 ∷ []) }
    ensures channel_1 { map (channel_state Client 1) (moments client11.turns) ≡ replicate 16 [] ++ replicate 25 (2 ∷ 8 ∷ replicate 2 7)
        ++ (3 ∷ 8 ∷ replicate 2 7 ++ 8 ∷ 7 ∷ replicate 5 0) ∷ replicate 3 (3 ∷ 4 ∷ replicate 2 7 ++ 8 ∷ 7 ∷ replicate 5 0) ++ replicate 8 (3
        ∷ 4 ∷ 7 ∷ 6 ∷ 8 ∷ 7 ∷ replicate 5 0) ++ replicate 3 (3 ∷ 4 ∷ 7 ∷ 6 ∷ 8 ∷ 7 ∷ replicate 4 0 ++ 1 ∷ []) }
    ensures channel_2 { map (channel_state Client 2) (moments client11.turns) ≡ replicate 17 [] ++ replicate 7 (2 ∷ 7 ∷ 5 ∷ 9 ∷ [])
        ++ replicate 14 (3 ∷ 7 ∷ 5 ∷ replicate 2 4 ++ 9 ∷ replicate 5 0) ++ (replicate 2 3 ++ 5 ∷ replicate 2 4 ++ 9 ∷ replicate 5 0)
        ∷ replicate 7 (3 ∷ 4294967291 ∷ 5 ∷ replicate 2 4 ++ 9 ∷ replicate 5 0) ++ replicate 10 (3 ∷ 4294967291 ∷ 5 ∷ replicate 2 4 ++ 9
        ∷ replicate 3 0 ++ 1 ∷ 0 ∷ []) }
    ensures held { map (held Client (numbers_from 0 3)) (moments client11.turns) ≡ replicate 13 (replicate 3 false) ++ replicate 3 (true
        ∷ replicate 2 false) ++ (replicate 2 true ++ false ∷ []) ∷ replicate 39 (replicate 3 true) }
    ensures replies { map (replies Client (numbers_from 0 3)) (moments client11.turns) ≡ replicate 24 (replicate 3 [])
        ++ replicate 6 (replicate 2 [] ++ ((2 ∷ 9 ∷ []) ∷ []) ∷ []) ++ replicate 3 (replicate 3 []) ++ replicate 8 (replicate 2 [] ++ ((2
        ∷ 9 ∷ []) ∷ []) ∷ []) ++ replicate 2 ([] ∷ ((1 ∷ 7 ∷ []) ∷ []) ∷ ((2 ∷ 9 ∷ []) ∷ []) ∷ []) ++ replicate 9 (replicate 3 [])
        ++ replicate 4 ([] ∷ ((1 ∷ 7 ∷ []) ∷ []) ∷ ((2 ∷ 9 ∷ []) ∷ []) ∷ []) }
    ensures owed { map (owed_closes Client) (moments client11.turns) ≡ replicate 56 [] }
    ensures globals { map waiting_globals (moments client11.turns) ≡ replicate 14 (replicate 2 0) ++ replicate 4 (0 ∷ 1 ∷ [])
        ++ replicate 2 (replicate 2 0) ++ replicate 8 (0 ∷ 1 ∷ []) ++ replicate 6 (replicate 2 0) ++ replicate 6 (0 ∷ 1 ∷ [])
        ++ replicate 16 (replicate 2 1) }
    ensures all_numbers_26 { allowed client11.ends Client (numbers_from 0 256) (whole (take 26 client11.turns)) ≡ numbers_from 0 5
        ++ numbers_from 8 13 ++ numbers_from 22 8 ++ numbers_from 32 18 ++ numbers_from 54 6 ++ numbers_from 61 195 }
    ensures all_numbers_56 { allowed client11.ends Client (numbers_from 0 256) (whole (take 56 client11.turns)) ≡ numbers_from 0 5
        ++ numbers_from 8 12 ++ numbers_from 21 9 }
    ensures first_offer { offer client11.ends Client true [] ≡ proposing (codes "k3" ∷ codes "k2" ∷ codes "k1"
        ∷ codes "kex-strict-c-v00@openssh.com" ∷ []) (codes "h1" ∷ []) (codes "e2" ∷ []) (codes "e2" ∷ []) (codes "m3" ∷ codes "m1"
        ∷ []) (codes "m3" ∷ codes "m1" ∷ []) }
    ensures later_offer { offer client11.ends Client false [] ≡ proposing (codes "k3" ∷ codes "k2" ∷ codes "k1" ∷ []) (codes "h1"
        ∷ []) (codes "e2" ∷ []) (codes "e2" ∷ []) (codes "m3" ∷ codes "m1" ∷ []) (codes "m3" ∷ codes "m1" ∷ []) }
    ensures texts { map exchange_text (exchanges client11.ends Client (whole client11.turns)) ≡ client11.text_3 ∷ client11.text_2
        ∷ client11.text_1 ∷ client11.text_0 ∷ [] }
    ensures algorithms { map names_of (choices Client (whole client11.turns)) ≡ replicate 4 (codes "k3" ∷ codes "h1"
        ∷ replicate 2 (codes "e2") ++ replicate 2 (codes "m3") ++ replicate 2 (codes "none")) }
    ensures session { session_id (exchanges client11.ends Client (whole client11.turns)) ≡ sha256 client11.text_0 }
    ensures sending_key { sending_name client11.ends Client (whole client11.turns)
        ≡ named Client (sha256 client11.text_3) (sha256 client11.text_0) }
    ensures taking_key { taking_name client11.ends Client (whole client11.turns)
        ≡ named Server (sha256 client11.text_2) (sha256 client11.text_0) }
{}
