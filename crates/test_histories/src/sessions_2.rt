//! Drawn sessions and their tables, written by tools/second_reading.

ghost use Rattle.std.specs.Prelude.{map, ◌≡◌, replicate, ◌++◌, ◌∷◌, true, false, [], length, None, Some, codes, take};
ghost use Rattle.ssh_model.specs.Protocol.Sessions.Phases.{phase, Phase.Start, Phase.Exchanging, Phase.Keying, Phase.Normal};
ghost use Rattle.ssh_model.specs.Protocol.Sessions.Phases.{Phase.Guessed, blocked, other_lines, may_take_extensions};
ghost use Rattle.ssh_model.specs.Protocol.Sessions.Phases.{service_requested, sent_service_accept, authenticated, failures};
ghost use Rattle.ssh_model.specs.Protocol.Sessions.Phases.{outstanding, took_service_accept};
ghost use Rattle.ssh_model.specs.declared.side.Side.TheVariants.{Server, Client};
ghost use Rattle.test_histories.specs.Words.{moments, allowed, request_number, verdicts, ask_verdicts, channel_state, held};
ghost use Rattle.test_histories.specs.Words.{numbers_from, replies, owed_closes, waiting_globals, whole, proposing, names_of};
ghost use Rattle.test_histories.specs.Words.{named};
ghost use Rattle.ssh_model.specs.Protocol.Sessions.Items.{has_died, sent, took};
ghost use Rattle.ssh_model.specs.Protocol.Sessions.Turns.{can_feed};
ghost use Rattle.ssh_model.specs.Protocol.Sessions.Transport.{point_now, next_cookie, announces};
ghost use Rattle.ssh_model.specs.Protocol.KeyExchange.Exchanges.{is_strict, sending_number, taking_number, sending_key};
ghost use Rattle.ssh_model.specs.Protocol.KeyExchange.Exchanges.{taking_key, exchanges, choices, session_id, sending_name};
ghost use Rattle.ssh_model.specs.Protocol.KeyExchange.Exchanges.{taking_name};
ghost use Rattle.ssh_model.specs.Protocol.Sessions.Epochs.{epoch, count, after_first};
ghost use Rattle.ssh_model.specs.Protocol.Sessions.Parties.{offer};
ghost use Rattle.ssh_model.specs.Protocol.KeyExchange.Exchange.{exchange_text};
ghost use Rattle.sha2.specs.Sha256.{sha256};
ghost use Rattle.test_histories.specs.Drawn.Server02 as server02;
ghost use Rattle.test_histories.specs.Drawn.Client03 as client03;
ghost use Rattle.test_histories.specs.Drawn.Server03 as server03;

/// Server02: values after each of 53 turns.
#[tactic(auto, unfolding(ssh_model::specs::Protocol::Channels::History::has_place, ssh_model::specs::Protocol::Channels::History::some_free, ssh_model::specs::Protocol::KeyExchange::Choice::methods, ssh_model::specs::Protocol::KeyExchange::Exchange::string_of))]
pub fn server02()
    ensures phases { map (phase server02.ends Server) (moments server02.turns) ≡ replicate 18 Start ++ Exchanging ∷ Keying
        ∷ replicate 23 Normal ++ Guessed ∷ Exchanging ∷ Keying ∷ replicate 7 Normal }
    ensures blocked { map blocked (moments server02.turns) ≡ replicate 19 true ++ replicate 17 false ++ replicate 9 true
        ++ replicate 4 false ++ replicate 4 true }
    ensures died { map has_died (moments server02.turns) ≡ replicate 52 false ++ true ∷ [] }
    ensures can_feed { map can_feed (moments server02.turns) ≡ replicate 32 true ++ replicate 4 false ++ replicate 4 true
        ++ replicate 9 false ++ replicate 2 true ++ replicate 2 false }
    ensures points { map (point_now server02.ends Server) (moments server02.turns) ≡ replicate 19 (replicate 32 93) ++ replicate 13 []
        ++ replicate 13 (replicate 32 235) ++ replicate 8 (replicate 32 249) }
    ensures cookies { map next_cookie (moments server02.turns) ≡ replicate 32 [] ++ replicate 4 (replicate 16 141) ++ replicate 4 []
        ++ replicate 9 (replicate 16 27) ++ replicate 2 [] ++ replicate 2 (replicate 16 52) }
    ensures other_lines { map other_lines (moments server02.turns) ≡ replicate 53 0 }
    ensures strict { map (is_strict Server) (moments server02.turns) ≡ replicate 53 false }
    ensures epochs_sent { map (λ h. epoch (sent h)) (moments server02.turns) ≡ replicate 19 0 ++ replicate 26 1 ++ replicate 8 2 }
    ensures epochs_taken { map (λ h. epoch (took h)) (moments server02.turns) ≡ replicate 20 0 ++ replicate 26 1 ++ replicate 7 2 }
    ensures counts_sent { map (λ h. count (sent h)) (moments server02.turns) ≡ replicate 21 1 ++ 2 ∷ 3 ∷ replicate 2 4 ++ 5 ∷ replicate 2 6
        ++ 7 ∷ 8 ∷ replicate 6 9 ++ replicate 9 10 ++ replicate 2 0 ++ replicate 2 1 ++ replicate 3 2 ++ 3 ∷ [] }
    ensures counts_taken { map (λ h. count (took h)) (moments server02.turns) ≡ replicate 2 0 ++ 1 ∷ 2 ∷ 3 ∷ 4 ∷ 5 ∷ 6 ∷ 7 ∷ 8 ∷ 9 ∷ 10 ∷ 11
        ∷ 12 ∷ 13 ∷ 14 ∷ 15 ∷ 16 ∷ 17 ∷ 18 ∷ 0 ∷ 1 ∷ 2 ∷ 3 ∷ replicate 3 4 ++ replicate 4 5 ++ replicate 2 6 ++ replicate 2 7
        ++ replicate 3 8 ++ 9 ∷ replicate 2 10 ++ 11 ∷ 12 ∷ 13 ∷ 14 ∷ 15 ∷ replicate 2 0 ++ replicate 2 1 ++ replicate 3 2 }
    ensures later_sent { map (λ h. length (after_first (sent h))) (moments server02.turns) ≡ replicate 19 0 ++ replicate 2 1 ++ 2 ∷ 3
        ∷ replicate 2 4 ++ 5 ∷ replicate 2 6 ++ 7 ∷ 8 ∷ replicate 6 9 ++ replicate 9 10 ++ replicate 2 12 ++ replicate 2 13
        ++ replicate 3 14 ++ 15 ∷ [] }
    ensures later_taken { map (λ h. length (after_first (took h))) (moments server02.turns) ≡ replicate 21 0 ++ 1 ∷ 2 ∷ 3 ∷ replicate 3 4
        ++ replicate 4 5 ++ replicate 2 6 ++ replicate 2 7 ++ replicate 3 8 ++ 9 ∷ replicate 2 10 ++ 11 ∷ 12 ∷ 13 ∷ 14 ∷ 15 ∷ replicate 2 16
        ++ replicate 2 17 ++ replicate 3 18 }
    ensures numbers_sent { map (sending_number Server) (moments server02.turns) ≡ replicate 19 1 ++ replicate 2 4 ++ 5 ∷ 6 ∷ replicate 2 7
        ++ 8 ∷ replicate 2 9 ++ 10 ∷ 11 ∷ replicate 6 12 ++ replicate 9 13 ++ replicate 2 15 ++ replicate 2 16 ++ replicate 3 17 ++ 18
        ∷ [] }
    ensures numbers_taken { map (taking_number Server) (moments server02.turns) ≡ replicate 2 0 ++ 1 ∷ 2 ∷ 3 ∷ 4 ∷ 5 ∷ 6 ∷ 7 ∷ 8 ∷ 9 ∷ 10
        ∷ 11 ∷ 12 ∷ 13 ∷ 14 ∷ 15 ∷ 16 ∷ 17 ∷ 18 ∷ 19 ∷ 20 ∷ 21 ∷ 22 ∷ replicate 3 23 ++ replicate 4 24 ++ replicate 2 25 ++ replicate 2 26
        ++ replicate 3 27 ++ 28 ∷ replicate 2 29 ++ 30 ∷ 31 ∷ 32 ∷ 33 ∷ 34 ∷ replicate 2 35 ++ replicate 2 36 ++ replicate 3 37 }
    ensures keys_sent { map (sending_key server02.ends Server) (moments server02.turns) ≡ replicate 19 None
        ++ replicate 34 (Some (codes "e2m3")) }
    ensures keys_taken { map (taking_key server02.ends Server) (moments server02.turns) ≡ replicate 20 None
        ++ replicate 26 (Some (codes "e2m2")) ++ replicate 7 (Some (codes "e2m3")) }
    ensures may_take { map (allowed server02.ends Server server02.numbers) (moments server02.turns) ≡ replicate 18 (4 ∷ 20 ∷ []) ++ (4 ∷ 30
        ∷ []) ∷ (4 ∷ []) ∷ replicate 3 (0 ∷ 4 ∷ 8 ∷ 22 ∷ 29 ∷ 32 ∷ []) ++ replicate 20 (0 ∷ 4 ∷ 8 ∷ 20 ∷ 22 ∷ 29 ∷ 32 ∷ 90 ∷ []) ++ (30 ∷ 31
        ∷ 32 ∷ []) ∷ (0 ∷ 4 ∷ 8 ∷ 22 ∷ 29 ∷ 30 ∷ []) ∷ (0 ∷ 4 ∷ 8 ∷ 22 ∷ 29 ∷ []) ∷ replicate 7 (0 ∷ 4 ∷ 8 ∷ 20 ∷ 22 ∷ 29 ∷ 32 ∷ 90 ∷ []) }
    ensures extensions { map (may_take_extensions Server) (moments server02.turns) ≡ replicate 53 false }
    ensures announces { map (announces server02.ends Server) (moments server02.turns) ≡ replicate 18 false ++ true ∷ replicate 34 false }
    ensures requested { map (service_requested Server) (moments server02.turns) ≡ replicate 21 false ++ replicate 32 true }
    ensures accepted { map sent_service_accept (moments server02.turns) ≡ replicate 21 false ++ replicate 32 true }
    ensures authenticated { map (authenticated Server) (moments server02.turns) ≡ replicate 23 false ++ replicate 30 true }
    ensures failures { map failures (moments server02.turns) ≡ replicate 22 0 ++ replicate 31 1 }
    ensures outstanding { map (λ h. request_number (outstanding h)) (moments server02.turns) ≡ replicate 53 0 }
    ensures refused { map (verdicts server02.ends Server server02.messages) (moments server02.turns) ≡ replicate 18 (replicate 2 0
        ++ replicate 12 7 ++ 0 ∷ replicate 2 7) ++ (replicate 5 7 ++ 0 ∷ 10 ∷ 0 ∷ replicate 6 7 ++ 0 ∷ replicate 2 7) ∷ (replicate 14 7 ++ 0
        ∷ replicate 2 7) ∷ (replicate 12 7 ++ 0 ∷ 7 ∷ 0 ∷ replicate 2 7) ∷ (replicate 8 7 ++ replicate 3 0 ++ 7 ∷ 0 ∷ 7 ∷ 0 ∷ replicate 2 7)
        ∷ (replicate 8 7 ++ 0 ∷ 15 ∷ 0 ∷ 7 ∷ 0 ∷ 7 ∷ 0 ∷ replicate 2 7) ∷ (replicate 2 12 ++ replicate 3 16 ++ replicate 3 7
        ++ replicate 3 0 ++ 16 ∷ 0 ∷ 16 ∷ 0 ∷ replicate 2 16) ∷ (replicate 2 12 ++ replicate 3 16 ++ replicate 3 7 ++ replicate 3 0 ++ 16
        ∷ 0 ∷ 7 ∷ 0 ∷ replicate 2 16) ∷ replicate 7 (replicate 2 12 ++ replicate 3 16 ++ replicate 3 7 ++ replicate 5 0 ++ 7 ∷ 0
        ∷ replicate 2 16) ++ replicate 11 (replicate 2 0 ++ replicate 3 16 ++ replicate 3 7 ++ replicate 5 0 ++ 7 ∷ 0 ∷ replicate 2 16)
        ++ (replicate 5 7 ++ replicate 3 0 ++ replicate 9 7) ∷ (replicate 5 7 ++ 0 ∷ 10 ∷ 0 ∷ replicate 4 7 ++ 0 ∷ 7 ∷ 0 ∷ replicate 2 7)
        ∷ (replicate 12 7 ++ 0 ∷ 7 ∷ 0 ∷ replicate 2 7) ∷ replicate 7 (replicate 2 0 ++ replicate 3 16 ++ replicate 3 7 ++ replicate 5 0
        ++ 7 ∷ 0 ∷ replicate 2 16) }
    ensures asks_refused { map (ask_verdicts server02.ends Server server02.asks) (moments server02.turns) ≡ replicate 23 (replicate 3 1
        ++ 11 ∷ 0 ∷ 11 ∷ replicate 3 1) ++ (replicate 2 3 ++ 8 ∷ 11 ∷ 0 ∷ 11 ∷ 0 ∷ 12 ∷ 3 ∷ []) ∷ (replicate 2 3 ++ 8 ∷ 11 ∷ 0 ∷ 11 ∷ 0 ∷ 12
        ∷ 0 ∷ []) ∷ replicate 7 (replicate 2 3 ++ 8 ∷ 11 ∷ 0 ∷ 11 ∷ 0 ∷ 12 ∷ 3 ∷ []) ++ replicate 4 (replicate 2 3 ++ 8 ∷ 11 ∷ 0 ∷ 11
        ∷ replicate 2 0 ++ 3 ∷ []) ++ replicate 9 (replicate 3 2 ++ 11 ∷ 0 ∷ 11 ∷ replicate 3 2) ++ (replicate 2 3 ++ 8 ∷ 11 ∷ 0 ∷ 11 ∷ 0
        ∷ 2 ∷ 3 ∷ []) ∷ replicate 3 (replicate 2 3 ++ 8 ∷ 11 ∷ 0 ∷ 11 ∷ replicate 2 0 ++ 3 ∷ []) ++ replicate 4 (replicate 3 2 ++ 11 ∷ 0
        ∷ 11 ∷ replicate 3 2) }
    ensures channel_0 { map (channel_state Server 0) (moments server02.turns) ≡ replicate 47 [] ++ replicate 6 (1 ∷ 8 ∷ 6 ∷ []) }
    ensures channel_1 { map (channel_state Server 1) (moments server02.turns) ≡ replicate 24 [] ++ (2 ∷ 6 ∷ 4 ∷ 5 ∷ []) ∷ (3 ∷ 6 ∷ 4 ∷ 8
        ∷ 32768 ∷ 5 ∷ replicate 5 0) ∷ replicate 2 (3 ∷ 6 ∷ 4 ∷ 28 ∷ 32768 ∷ 5 ∷ replicate 5 0) ++ replicate 3 (3 ∷ 6 ∷ 4 ∷ 28 ∷ 32768 ∷ 5
        ∷ replicate 2 1 ++ replicate 3 0) ++ replicate 8 (3 ∷ 6 ∷ 4 ∷ 27 ∷ 32768 ∷ 5 ∷ replicate 2 1 ++ replicate 3 0) ++ replicate 2 (3 ∷ 6
        ∷ 4 ∷ 21 ∷ 32768 ∷ 5 ∷ replicate 2 1 ++ replicate 3 0) ++ replicate 9 (3 ∷ 6 ∷ 4 ∷ 15 ∷ 32768 ∷ 5 ∷ replicate 2 1 ++ replicate 3 0)
        ++ replicate 3 (3 ∷ 6 ∷ 4 ∷ 14 ∷ 32768 ∷ 5 ∷ replicate 2 1 ++ replicate 3 0) }
    ensures channel_2 { map (channel_state Server 2) (moments server02.turns) ≡ replicate 38 [] ++ replicate 15 (2 ∷ 9 ∷ 4 ∷ 0 ∷ []) }
    ensures held { map (held Server (numbers_from 0 3)) (moments server02.turns) ≡ replicate 24 (replicate 3 false) ++ replicate 14 (false
        ∷ true ∷ false ∷ []) ++ replicate 9 (false ∷ replicate 2 true) ++ replicate 6 (replicate 3 true) }
    ensures replies { map (replies Server (numbers_from 0 3)) (moments server02.turns) ≡ replicate 25 (replicate 3 []) ++ replicate 3 ([]
        ∷ ((1 ∷ 5 ∷ []) ∷ []) ∷ [] ∷ []) ++ replicate 25 (replicate 3 []) }
    ensures owed { map (owed_closes Server) (moments server02.turns) ≡ replicate 53 [] }
    ensures globals { map waiting_globals (moments server02.turns) ≡ replicate 30 (replicate 2 0) ++ replicate 23 (0 ∷ 1 ∷ []) }
    ensures all_numbers_30 { allowed server02.ends Server (numbers_from 0 256) (whole (take 30 server02.turns)) ≡ numbers_from 0 5
        ++ numbers_from 8 13 ++ numbers_from 22 8 ++ numbers_from 32 19 ++ numbers_from 54 6 ++ numbers_from 61 195 }
    ensures all_numbers_53 { allowed server02.ends Server (numbers_from 0 256) (whole (take 53 server02.turns)) ≡ numbers_from 0 5
        ++ numbers_from 8 13 ++ numbers_from 22 8 ++ numbers_from 32 19 ++ numbers_from 54 6 ++ numbers_from 61 195 }
    ensures first_offer { offer server02.ends Server true [] ≡ proposing (codes "k2" ∷ codes "k1" ∷ codes "kex-strict-s-v00@openssh.com"
        ∷ []) (codes "h1" ∷ []) (codes "e2" ∷ []) (codes "e2" ∷ []) (codes "m3" ∷ codes "m2" ∷ []) (codes "m3" ∷ codes "m2" ∷ []) }
    ensures later_offer { offer server02.ends Server false [] ≡ proposing (codes "k2" ∷ codes "k1" ∷ []) (codes "h1" ∷ []) (codes "e2"
        ∷ []) (codes "e2" ∷ []) (codes "m3" ∷ codes "m2" ∷ []) (codes "m3" ∷ codes "m2" ∷ []) }
    ensures texts { map exchange_text (exchanges server02.ends Server (whole server02.turns)) ≡ server02.text_1 ∷ server02.text_0 ∷ [] }
    ensures algorithms { map names_of (choices Server (whole server02.turns)) ≡ (codes "k1" ∷ codes "h1" ∷ replicate 2 (codes "e2")
        ++ replicate 2 (codes "m3") ++ replicate 2 (codes "none")) ∷ (codes "k2" ∷ codes "h1" ∷ replicate 2 (codes "e2") ++ codes "m2"
        ∷ codes "m3" ∷ replicate 2 (codes "none")) ∷ [] }
    ensures session { session_id (exchanges server02.ends Server (whole server02.turns)) ≡ sha256 server02.text_0 }
    ensures sending_key { sending_name server02.ends Server (whole server02.turns)
        ≡ named Server (sha256 server02.text_1) (sha256 server02.text_0) }
    ensures taking_key { taking_name server02.ends Server (whole server02.turns)
        ≡ named Client (sha256 server02.text_1) (sha256 server02.text_0) }
{}

/// Client03: values after each of 56 turns.
#[tactic(auto, unfolding(ssh_model::specs::Protocol::Channels::History::has_place, ssh_model::specs::Protocol::Channels::History::some_free, ssh_model::specs::Protocol::KeyExchange::Choice::methods, ssh_model::specs::Protocol::KeyExchange::Exchange::string_of))]
pub fn client03()
    ensures phases { map (phase client03.ends Client) (moments client03.turns) ≡ replicate 4 Start ++ replicate 2 Exchanging ++ Keying
        ∷ replicate 13 Normal ++ replicate 2 Exchanging ++ Keying ∷ replicate 18 Normal ++ replicate 2 Exchanging ++ replicate 4 Keying
        ++ replicate 6 Normal ++ Guessed ∷ Exchanging ∷ Keying ∷ [] }
    ensures blocked { map blocked (moments client03.turns) ≡ replicate 6 true ++ replicate 13 false ++ replicate 3 true
        ++ replicate 15 false ++ replicate 6 true ++ replicate 10 false ++ replicate 2 true ++ false ∷ [] }
    ensures died { map has_died (moments client03.turns) ≡ replicate 56 false }
    ensures can_feed { map can_feed (moments client03.turns) ≡ replicate 18 true ++ false ∷ replicate 16 true ++ replicate 2 false ++ true
        ∷ replicate 15 false ++ replicate 3 true }
    ensures points { map (point_now client03.ends Client) (moments client03.turns) ≡ replicate 6 (replicate 32 109) ++ replicate 12 []
        ++ replicate 4 (replicate 32 38) ++ replicate 13 [] ++ replicate 8 (replicate 32 148) ++ replicate 12 (replicate 32 154) ++ []
        ∷ [] }
    ensures cookies { map next_cookie (moments client03.turns) ≡ replicate 18 [] ++ replicate 16 96 ∷ replicate 16 []
        ++ replicate 2 (replicate 16 183) ++ [] ∷ replicate 15 (replicate 16 223) ++ replicate 3 [] }
    ensures other_lines { map other_lines (moments client03.turns) ≡ 0 ∷ 1 ∷ replicate 54 2 }
    ensures strict { map (is_strict Client) (moments client03.turns) ≡ replicate 56 false }
    ensures epochs_sent { map (λ h. epoch (sent h)) (moments client03.turns) ≡ replicate 6 0 ++ replicate 16 1 ++ replicate 21 2
        ++ replicate 12 3 ++ 4 ∷ [] }
    ensures epochs_taken { map (λ h. epoch (took h)) (moments client03.turns) ≡ replicate 7 0 ++ replicate 16 1 ++ replicate 24 2
        ++ replicate 9 3 }
    ensures counts_sent { map (λ h. count (sent h)) (moments client03.turns) ≡ replicate 4 1 ++ replicate 2 2 ++ replicate 3 0
        ++ replicate 4 1 ++ replicate 2 2 ++ replicate 2 3 ++ replicate 2 4 ++ 5 ∷ 6 ∷ 7 ∷ replicate 3 0 ++ replicate 3 1 ++ 2
        ∷ replicate 3 3 ++ replicate 4 4 ++ 5 ∷ replicate 4 6 ++ replicate 2 7 ++ 0 ∷ 1 ∷ replicate 4 2 ++ 3 ∷ 4 ∷ replicate 2 5
        ++ replicate 2 7 ++ 0 ∷ [] }
    ensures counts_taken { map (λ h. count (took h)) (moments client03.turns) ≡ replicate 4 0 ++ 1 ∷ 2 ∷ 3 ∷ 0 ∷ replicate 2 1 ++ 2 ∷ 3
        ∷ replicate 2 4 ++ replicate 2 5 ++ replicate 4 6 ++ 7 ∷ 8 ∷ 9 ∷ 0 ∷ replicate 2 1 ++ replicate 4 2 ++ 3 ∷ replicate 2 4 ++ 5
        ∷ replicate 5 6 ++ 7 ∷ 8 ∷ 9 ∷ 10 ∷ replicate 3 11 ++ 12 ∷ 0 ∷ replicate 2 1 ++ replicate 2 2 ++ 3 ∷ 4 ∷ 5 ∷ 6 ∷ [] }
    ensures later_sent { map (λ h. length (after_first (sent h))) (moments client03.turns) ≡ replicate 9 0 ++ replicate 4 1 ++ replicate 2 2
        ++ replicate 2 3 ++ replicate 2 4 ++ 5 ∷ 6 ∷ 7 ∷ replicate 3 8 ++ replicate 3 9 ++ 10 ∷ replicate 3 11 ++ replicate 4 12 ++ 13
        ∷ replicate 4 14 ++ replicate 2 15 ++ 16 ∷ 17 ∷ replicate 4 18 ++ 19 ∷ 20 ∷ replicate 2 21 ++ replicate 2 23 ++ 24 ∷ [] }
    ensures later_taken { map (λ h. length (after_first (took h))) (moments client03.turns) ≡ replicate 8 0 ++ replicate 2 1 ++ 2 ∷ 3
        ∷ replicate 2 4 ++ replicate 2 5 ++ replicate 4 6 ++ 7 ∷ 8 ∷ 9 ∷ 10 ∷ replicate 2 11 ++ replicate 4 12 ++ 13 ∷ replicate 2 14 ++ 15
        ∷ replicate 5 16 ++ 17 ∷ 18 ∷ 19 ∷ 20 ∷ replicate 3 21 ++ 22 ∷ 23 ∷ replicate 2 24 ++ replicate 2 25 ++ 26 ∷ 27 ∷ 28 ∷ 29 ∷ [] }
    ensures numbers_sent { map (sending_number Client) (moments client03.turns) ≡ replicate 4 1 ++ replicate 2 2 ++ replicate 3 3
        ++ replicate 4 4 ++ replicate 2 5 ++ replicate 2 6 ++ replicate 2 7 ++ 8 ∷ 9 ∷ 10 ∷ replicate 3 11 ++ replicate 3 12 ++ 13
        ∷ replicate 3 14 ++ replicate 4 15 ++ 16 ∷ replicate 4 17 ++ replicate 2 18 ++ 19 ∷ 20 ∷ replicate 4 21 ++ 22 ∷ 23 ∷ replicate 2 24
        ++ replicate 2 26 ++ 27 ∷ [] }
    ensures numbers_taken { map (taking_number Client) (moments client03.turns) ≡ replicate 4 0 ++ 1 ∷ 2 ∷ 3 ∷ 4 ∷ replicate 2 5 ++ 6 ∷ 7
        ∷ replicate 2 8 ++ replicate 2 9 ++ replicate 4 10 ++ 11 ∷ 12 ∷ 13 ∷ 14 ∷ replicate 2 15 ++ replicate 4 16 ++ 17 ∷ replicate 2 18
        ++ 19 ∷ replicate 5 20 ++ 21 ∷ 22 ∷ 23 ∷ 24 ∷ replicate 3 25 ++ 26 ∷ 27 ∷ replicate 2 28 ++ replicate 2 29 ++ 30 ∷ 31 ∷ 32 ∷ 33
        ∷ [] }
    ensures keys_sent { map (sending_key client03.ends Client) (moments client03.turns) ≡ replicate 6 None
        ++ replicate 16 (Some (codes "e1m2")) ++ replicate 34 (Some (codes "e1m1")) }
    ensures keys_taken { map (taking_key client03.ends Client) (moments client03.turns) ≡ replicate 7 None
        ++ replicate 16 (Some (codes "e1m2")) ++ replicate 33 (Some (codes "e1m1")) }
    ensures may_take { map (allowed client03.ends Client client03.numbers) (moments client03.turns) ≡ replicate 7 (1 ∷ 4 ∷ [])
        ++ replicate 6 (1 ∷ 4 ∷ 19 ∷ 32 ∷ 49 ∷ 61 ∷ []) ++ (1 ∷ 4 ∷ 19 ∷ 32 ∷ 49 ∷ 52 ∷ 61 ∷ []) ∷ (1 ∷ 4 ∷ 19 ∷ 32 ∷ 49 ∷ 61 ∷ []) ∷ (1 ∷ 4
        ∷ 19 ∷ 32 ∷ 49 ∷ 52 ∷ 60 ∷ 61 ∷ []) ∷ replicate 4 (1 ∷ 4 ∷ 19 ∷ 32 ∷ 49 ∷ 61 ∷ 83 ∷ 97 ∷ 100 ∷ 192 ∷ []) ++ replicate 3 (1 ∷ 4 ∷ 19
        ∷ []) ++ replicate 18 (1 ∷ 4 ∷ 19 ∷ 32 ∷ 49 ∷ 61 ∷ 83 ∷ 97 ∷ 100 ∷ 192 ∷ []) ++ replicate 6 (1 ∷ 4 ∷ 19 ∷ []) ++ replicate 6 (1 ∷ 4
        ∷ 19 ∷ 32 ∷ 49 ∷ 61 ∷ 83 ∷ 97 ∷ 100 ∷ 192 ∷ []) ++ (32 ∷ 49 ∷ []) ∷ replicate 2 (1 ∷ 4 ∷ 19 ∷ []) }
    ensures extensions { map (may_take_extensions Client) (moments client03.turns) ≡ replicate 7 false ++ true ∷ replicate 48 false }
    ensures announces { map (announces client03.ends Client) (moments client03.turns) ≡ replicate 56 false }
    ensures requested { map (service_requested Client) (moments client03.turns) ≡ replicate 9 false ++ replicate 47 true }
    ensures accepted { map took_service_accept (moments client03.turns) ≡ replicate 10 false ++ replicate 46 true }
    ensures authenticated { map (authenticated Client) (moments client03.turns) ≡ replicate 16 false ++ replicate 40 true }
    ensures failures { map failures (moments client03.turns) ≡ replicate 56 0 }
    ensures outstanding { map (λ h. request_number (outstanding h)) (moments client03.turns) ≡ replicate 13 0 ++ 4 ∷ 0 ∷ 3
        ∷ replicate 40 0 }
    ensures refused { map (verdicts client03.ends Client client03.messages) (moments client03.turns) ≡ replicate 4 (replicate 2 0
        ++ replicate 7 7 ++ 0 ∷ replicate 4 7) ++ replicate 2 (replicate 5 7 ++ replicate 2 0 ++ 11 ∷ 7 ∷ 0 ∷ replicate 4 7)
        ++ (replicate 9 7 ++ 0 ∷ replicate 2 7 ++ 0 ∷ 7 ∷ []) ∷ replicate 3 (replicate 9 7 ++ 0 ∷ replicate 4 7)
        ++ replicate 5 (replicate 9 7 ++ 0 ∷ 7 ∷ 0 ∷ replicate 2 7) ++ (replicate 9 7 ++ 0 ∷ 7 ∷ 0 ∷ 7 ∷ 0 ∷ [])
        ∷ replicate 2 (replicate 2 12 ++ replicate 3 16 ++ replicate 3 7 ++ 16 ∷ 0 ∷ replicate 4 7) ++ replicate 2 (replicate 2 0
        ++ replicate 3 16 ++ replicate 3 7 ++ 16 ∷ 0 ∷ replicate 4 7) ++ replicate 2 (replicate 5 7 ++ replicate 2 11 ++ 0 ∷ 7 ∷ 0
        ∷ replicate 4 7) ++ (replicate 9 7 ++ 0 ∷ replicate 2 7 ++ 0 ∷ 7 ∷ []) ∷ replicate 3 (replicate 2 12 ++ replicate 3 16
        ++ replicate 3 7 ++ 16 ∷ 0 ∷ replicate 4 7) ++ replicate 4 (replicate 2 12 ++ 16 ∷ 0 ∷ 16 ∷ replicate 3 7 ++ 16 ∷ 0 ∷ replicate 4 7)
        ++ (replicate 2 12 ++ 16 ∷ 0 ∷ 16 ∷ replicate 4 7 ++ 0 ∷ replicate 4 7) ∷ replicate 2 (replicate 2 12 ++ replicate 3 0
        ++ replicate 4 7 ++ 0 ∷ replicate 4 7) ++ replicate 2 (replicate 2 12 ++ 7 ∷ replicate 2 0 ++ replicate 4 7 ++ 0 ∷ replicate 4 7)
        ++ replicate 6 (replicate 2 0 ++ 7 ∷ replicate 2 0 ++ replicate 4 7 ++ 0 ∷ replicate 4 7) ++ replicate 2 (replicate 5 7
        ++ replicate 2 11 ++ 0 ∷ 7 ∷ 0 ∷ replicate 4 7) ++ replicate 4 (replicate 9 7 ++ 0 ∷ replicate 2 7 ++ 0 ∷ 7 ∷ []) ++ (replicate 2 0
        ++ 7 ∷ replicate 2 0 ++ replicate 4 7 ++ replicate 2 0 ++ replicate 3 7) ∷ replicate 2 (replicate 2 0 ++ replicate 2 7 ++ 0
        ∷ replicate 4 7 ++ replicate 2 0 ++ replicate 3 7) ++ replicate 3 (replicate 2 0 ++ 7 ∷ 16 ∷ 0 ∷ replicate 4 7 ++ replicate 2 0
        ++ replicate 3 7) ++ (replicate 5 7 ++ replicate 3 0 ++ replicate 6 7) ∷ (replicate 5 7 ++ replicate 2 11 ++ 10 ∷ 7 ∷ 0
        ∷ replicate 4 7) ∷ (replicate 9 7 ++ 0 ∷ replicate 2 7 ++ 0 ∷ 7 ∷ []) ∷ [] }
    ensures asks_refused { map (ask_verdicts client03.ends Client client03.asks) (moments client03.turns) ≡ replicate 10 (replicate 9 1)
        ++ replicate 3 (replicate 3 1 ++ 0 ∷ replicate 2 1 ++ 0 ∷ replicate 2 1) ++ (replicate 3 1 ++ 2 ∷ replicate 2 1 ++ 2
        ∷ replicate 2 1) ∷ (replicate 3 1 ++ 0 ∷ replicate 2 1 ++ 0 ∷ replicate 2 1) ∷ (replicate 3 1 ++ 2 ∷ replicate 2 1 ++ 2
        ∷ replicate 2 1) ∷ replicate 3 (replicate 2 3 ++ 0 ∷ 6 ∷ replicate 2 3 ++ 6 ∷ replicate 2 3) ++ replicate 3 (replicate 3 2 ++ 6
        ∷ replicate 2 2 ++ 6 ∷ replicate 2 2) ++ replicate 4 (replicate 2 3 ++ 0 ∷ 6 ∷ replicate 2 3 ++ 6 ∷ replicate 2 3) ++ replicate 3 (0
        ∷ 3 ∷ 0 ∷ 6 ∷ replicate 2 3 ++ 6 ∷ replicate 2 3) ++ (6 ∷ 3 ∷ 0 ∷ 6 ∷ replicate 2 3 ++ 6 ∷ replicate 2 3) ∷ (6 ∷ 3 ∷ 0 ∷ 6 ∷ 3 ∷ 0
        ∷ 6 ∷ 3 ∷ 0 ∷ []) ∷ replicate 5 (6 ∷ 3 ∷ 0 ∷ 6 ∷ replicate 2 0 ++ 6 ∷ replicate 2 0) ++ (6 ∷ replicate 2 0 ++ 6 ∷ 0 ∷ 3 ∷ 6 ∷ 0 ∷ 3
        ∷ []) ∷ replicate 6 (replicate 3 2 ++ 6 ∷ replicate 2 2 ++ 6 ∷ replicate 2 2) ++ (6 ∷ replicate 2 0 ++ 6 ∷ 0 ∷ 3 ∷ 6 ∷ 0 ∷ 3 ∷ [])
        ∷ replicate 6 (6 ∷ replicate 2 0 ++ replicate 2 6 ++ 3 ∷ 6 ∷ 0 ∷ 3 ∷ []) ++ replicate 3 (3 ∷ replicate 2 0 ++ replicate 2 6 ++ 3 ∷ 6
        ∷ 0 ∷ 3 ∷ []) ++ replicate 2 (replicate 3 2 ++ 6 ∷ replicate 2 2 ++ 6 ∷ replicate 2 2) ++ (3 ∷ replicate 2 0 ++ replicate 2 6 ++ 3
        ∷ 6 ∷ 0 ∷ 3 ∷ []) ∷ [] }
    ensures channel_0 { map (channel_state Client 0) (moments client03.turns) ≡ replicate 25 [] ++ (1 ∷ 12 ∷ 6 ∷ []) ∷ replicate 3 (3 ∷ 6
        ∷ 7 ∷ 12 ∷ 6 ∷ 3 ∷ replicate 5 0) ++ replicate 11 (3 ∷ 6 ∷ 7 ∷ 12 ∷ 6 ∷ 3 ∷ 1 ∷ replicate 4 0) ++ replicate 8 (3 ∷ replicate 2 7
        ++ 12 ∷ 6 ∷ 3 ∷ 1 ∷ replicate 4 0) ++ replicate 2 (3 ∷ replicate 2 7 ++ 12 ∷ 6 ∷ 3 ∷ 1 ∷ 0 ∷ 1 ∷ replicate 2 0) ++ replicate 6 [] }
    ensures channel_1 { map (channel_state Client 1) (moments client03.turns) ≡ replicate 17 [] ++ replicate 14 (1 ∷ 5 ∷ 6 ∷ []) ++ (3 ∷ 8
        ∷ replicate 2 5 ++ 6 ∷ 8 ∷ replicate 5 0) ∷ (3 ∷ 8 ∷ replicate 2 5 ++ 6 ∷ 8 ∷ replicate 4 0 ++ 1 ∷ []) ∷ replicate 6 (3 ∷ 8
        ∷ replicate 2 5 ++ 6 ∷ 8 ∷ replicate 2 0 ++ 1 ∷ 0 ∷ 1 ∷ []) ++ replicate 5 (3 ∷ 8 ∷ replicate 2 5 ++ 6 ∷ 8 ∷ replicate 2 0
        ++ replicate 3 1) ++ replicate 7 (3 ∷ 8 ∷ replicate 2 5 ++ 6 ∷ 8 ∷ 1 ∷ 0 ∷ replicate 3 1) ++ replicate 5 (3 ∷ 8 ∷ replicate 2 5 ++ 6
        ∷ 8 ∷ 1 ∷ 0 ∷ replicate 2 1 ++ 2 ∷ []) }
    ensures channel_2 { map (channel_state Client 2) (moments client03.turns) ≡ replicate 56 [] }
    ensures held { map (held Client (numbers_from 0 3)) (moments client03.turns) ≡ replicate 17 (replicate 3 false) ++ replicate 8 (false
        ∷ true ∷ false ∷ []) ++ replicate 25 (replicate 2 true ++ false ∷ []) ++ replicate 6 (false ∷ true ∷ false ∷ []) }
    ensures replies { map (replies Client (numbers_from 0 3)) (moments client03.turns) ≡ replicate 26 (replicate 3 []) ++ replicate 5 (((0
        ∷ 3 ∷ []) ∷ []) ∷ replicate 2 []) ++ replicate 6 (((0 ∷ 3 ∷ []) ∷ []) ∷ ((1 ∷ 8 ∷ []) ∷ []) ∷ [] ∷ [])
        ++ replicate 6 (replicate 3 []) ++ replicate 7 (((0 ∷ 3 ∷ []) ∷ []) ∷ ((1 ∷ 8 ∷ []) ∷ []) ∷ [] ∷ []) ++ replicate 3 ([] ∷ ((1 ∷ 8
        ∷ []) ∷ []) ∷ [] ∷ []) ++ replicate 2 (replicate 3 []) ++ ([] ∷ ((1 ∷ 8 ∷ []) ∷ []) ∷ [] ∷ []) ∷ [] }
    ensures owed { map (owed_closes Client) (moments client03.turns) ≡ replicate 56 [] }
    ensures globals { map waiting_globals (moments client03.turns) ≡ replicate 45 (replicate 2 0) ++ replicate 11 (0 ∷ 1 ∷ []) }
    ensures all_numbers_9 { allowed client03.ends Client (numbers_from 0 256) (whole (take 9 client03.turns)) ≡ numbers_from 0 5
        ++ numbers_from 8 12 ++ numbers_from 22 8 ++ numbers_from 32 18 ++ numbers_from 54 6 ++ numbers_from 61 19 }
    ensures all_numbers_56 { allowed client03.ends Client (numbers_from 0 256) (whole (take 56 client03.turns)) ≡ numbers_from 0 5
        ++ numbers_from 8 12 ++ numbers_from 21 9 }
    ensures first_offer { offer client03.ends Client true [] ≡ proposing (codes "k2" ∷ codes "k3" ∷ codes "k1" ∷ codes "ext-info-c"
        ∷ []) (codes "h1" ∷ codes "h3" ∷ []) (codes "e1" ∷ []) (codes "e1" ∷ []) (codes "m1" ∷ codes "m2" ∷ []) (codes "m1" ∷ codes "m2"
        ∷ []) }
    ensures later_offer { offer client03.ends Client false [] ≡ proposing (codes "k2" ∷ codes "k3" ∷ codes "k1" ∷ []) (codes "h1"
        ∷ codes "h3" ∷ []) (codes "e1" ∷ []) (codes "e1" ∷ []) (codes "m1" ∷ codes "m2" ∷ []) (codes "m1" ∷ codes "m2" ∷ []) }
    ensures texts { map exchange_text (exchanges client03.ends Client (whole client03.turns)) ≡ client03.text_3 ∷ client03.text_2
        ∷ client03.text_1 ∷ client03.text_0 ∷ [] }
    ensures algorithms { map names_of (choices Client (whole client03.turns)) ≡ (codes "k2" ∷ codes "h1" ∷ replicate 2 (codes "e1")
        ++ codes "m1" ∷ codes "m2" ∷ replicate 2 (codes "none")) ∷ replicate 2 (codes "k2" ∷ codes "h1" ∷ replicate 2 (codes "e1")
        ++ replicate 2 (codes "m1") ++ replicate 2 (codes "none")) ++ (codes "k2" ∷ codes "h3" ∷ replicate 2 (codes "e1")
        ++ replicate 2 (codes "m2") ++ replicate 2 (codes "none")) ∷ [] }
    ensures session { session_id (exchanges client03.ends Client (whole client03.turns)) ≡ sha256 client03.text_0 }
    ensures sending_key { sending_name client03.ends Client (whole client03.turns)
        ≡ named Client (sha256 client03.text_3) (sha256 client03.text_0) }
    ensures taking_key { taking_name client03.ends Client (whole client03.turns)
        ≡ named Server (sha256 client03.text_2) (sha256 client03.text_0) }
{}

/// Server03: values after each of 56 turns.
#[tactic(auto, unfolding(ssh_model::specs::Protocol::Channels::History::has_place, ssh_model::specs::Protocol::Channels::History::some_free, ssh_model::specs::Protocol::KeyExchange::Choice::methods, ssh_model::specs::Protocol::KeyExchange::Exchange::string_of))]
pub fn server03()
    ensures phases { map (phase server03.ends Server) (moments server03.turns) ≡ replicate 4 Start ++ Exchanging ∷ replicate 2 Keying
        ++ replicate 23 Normal ++ Exchanging ∷ replicate 6 Keying ++ replicate 5 Normal ++ replicate 6 Exchanging ++ replicate 2 Keying
        ++ replicate 6 Normal }
    ensures blocked { map blocked (moments server03.turns) ≡ replicate 5 true ++ replicate 23 false ++ replicate 3 true
        ++ replicate 11 false ++ replicate 6 true ++ replicate 8 false }
    ensures died { map has_died (moments server03.turns) ≡ replicate 56 false }
    ensures can_feed { map can_feed (moments server03.turns) ≡ replicate 25 true ++ replicate 3 false ++ true ∷ replicate 13 false
        ++ replicate 2 true ++ replicate 12 false }
    ensures points { map (point_now server03.ends Server) (moments server03.turns) ≡ replicate 5 (replicate 32 105) ++ replicate 20 []
        ++ replicate 6 (replicate 32 132) ++ replicate 17 (replicate 32 163) ++ replicate 8 (replicate 32 1) }
    ensures cookies { map next_cookie (moments server03.turns) ≡ replicate 25 [] ++ replicate 3 (replicate 16 55) ++ []
        ∷ replicate 13 (replicate 16 150) ++ replicate 2 [] ++ replicate 12 (replicate 16 158) }
    ensures other_lines { map other_lines (moments server03.turns) ≡ replicate 56 0 }
    ensures strict { map (is_strict Server) (moments server03.turns) ≡ replicate 56 false }
    ensures epochs_sent { map (λ h. epoch (sent h)) (moments server03.turns) ≡ replicate 5 0 ++ replicate 26 1 ++ replicate 17 2
        ++ replicate 8 3 }
    ensures epochs_taken { map (λ h. epoch (took h)) (moments server03.turns) ≡ replicate 7 0 ++ replicate 30 1 ++ replicate 13 2
        ++ replicate 6 3 }
    ensures counts_sent { map (λ h. count (sent h)) (moments server03.turns) ≡ replicate 9 1 ++ replicate 2 2 ++ 3 ∷ 4 ∷ 5 ∷ replicate 3 6
        ++ replicate 5 7 ++ replicate 5 8 ++ 9 ∷ replicate 3 10 ++ 0 ∷ 1 ∷ replicate 2 2 ++ 3 ∷ replicate 5 4 ++ 5 ∷ replicate 6 6 ++ 0
        ∷ replicate 7 1 }
    ensures counts_taken { map (λ h. count (took h)) (moments server03.turns) ≡ replicate 2 0 ++ 1 ∷ 2 ∷ 3 ∷ 4 ∷ 5 ∷ 0 ∷ 1 ∷ 2 ∷ 3 ∷ 4 ∷ 5
        ∷ 6 ∷ 7 ∷ 8 ∷ 9 ∷ 10 ∷ replicate 2 11 ++ 12 ∷ 13 ∷ 14 ∷ 15 ∷ replicate 3 16 ++ replicate 3 17 ++ 18 ∷ replicate 3 19
        ++ replicate 3 20 ++ 0 ∷ replicate 2 1 ++ replicate 2 2 ++ 3 ∷ replicate 2 4 ++ replicate 2 5 ++ 6 ∷ replicate 2 7 ++ 0
        ∷ replicate 2 1 ++ replicate 2 2 ++ 3 ∷ [] }
    ensures later_sent { map (λ h. length (after_first (sent h))) (moments server03.turns) ≡ replicate 5 0 ++ replicate 4 1 ++ replicate 2 2
        ++ 3 ∷ 4 ∷ 5 ∷ replicate 3 6 ++ replicate 5 7 ++ replicate 5 8 ++ 9 ∷ replicate 3 10 ++ 12 ∷ 13 ∷ replicate 2 14 ++ 15
        ∷ replicate 5 16 ++ 17 ∷ replicate 6 18 ++ 20 ∷ replicate 7 21 }
    ensures later_taken { map (λ h. length (after_first (took h))) (moments server03.turns) ≡ replicate 8 0 ++ 1 ∷ 2 ∷ 3 ∷ 4 ∷ 5 ∷ 6 ∷ 7 ∷ 8
        ∷ 9 ∷ 10 ∷ replicate 2 11 ++ 12 ∷ 13 ∷ 14 ∷ 15 ∷ replicate 3 16 ++ replicate 3 17 ++ 18 ∷ replicate 3 19 ++ replicate 3 20 ++ 21
        ∷ replicate 2 22 ++ replicate 2 23 ++ 24 ∷ replicate 2 25 ++ replicate 2 26 ++ 27 ∷ replicate 2 28 ++ 29 ∷ replicate 2 30
        ++ replicate 2 31 ++ 32 ∷ [] }
    ensures numbers_sent { map (sending_number Server) (moments server03.turns) ≡ replicate 5 1 ++ replicate 4 4 ++ replicate 2 5 ++ 6 ∷ 7
        ∷ 8 ∷ replicate 3 9 ++ replicate 5 10 ++ replicate 5 11 ++ 12 ∷ replicate 3 13 ++ 15 ∷ 16 ∷ replicate 2 17 ++ 18 ∷ replicate 5 19
        ++ 20 ∷ replicate 6 21 ++ 23 ∷ replicate 7 24 }
    ensures numbers_taken { map (taking_number Server) (moments server03.turns) ≡ replicate 2 0 ++ 1 ∷ 2 ∷ 3 ∷ 4 ∷ 5 ∷ 6 ∷ 7 ∷ 8 ∷ 9 ∷ 10
        ∷ 11 ∷ 12 ∷ 13 ∷ 14 ∷ 15 ∷ 16 ∷ replicate 2 17 ++ 18 ∷ 19 ∷ 20 ∷ 21 ∷ replicate 3 22 ++ replicate 3 23 ++ 24 ∷ replicate 3 25
        ++ replicate 3 26 ++ 27 ∷ replicate 2 28 ++ replicate 2 29 ++ 30 ∷ replicate 2 31 ++ replicate 2 32 ++ 33 ∷ replicate 2 34 ++ 35
        ∷ replicate 2 36 ++ replicate 2 37 ++ 38 ∷ [] }
    ensures keys_sent { map (sending_key server03.ends Server) (moments server03.turns) ≡ replicate 5 None
        ++ replicate 51 (Some (codes "e2m1")) }
    ensures keys_taken { map (taking_key server03.ends Server) (moments server03.turns) ≡ replicate 7 None
        ++ replicate 49 (Some (codes "e2m1")) }
    ensures may_take { map (allowed server03.ends Server server03.numbers) (moments server03.turns) ≡ replicate 7 (1 ∷ 2 ∷ [])
        ++ replicate 4 (1 ∷ 2 ∷ 61 ∷ []) ++ replicate 6 (1 ∷ 2 ∷ 50 ∷ 61 ∷ []) ++ replicate 13 (1 ∷ 2 ∷ 50 ∷ 61 ∷ 80 ∷ 83 ∷ 89 ∷ 100 ∷ 101
        ∷ 192 ∷ 255 ∷ []) ++ replicate 7 (1 ∷ 2 ∷ []) ++ replicate 5 (1 ∷ 2 ∷ 50 ∷ 61 ∷ 80 ∷ 83 ∷ 89 ∷ 100 ∷ 101 ∷ 192 ∷ 255 ∷ [])
        ++ replicate 8 (1 ∷ 2 ∷ []) ++ replicate 6 (1 ∷ 2 ∷ 50 ∷ 61 ∷ 80 ∷ 83 ∷ 89 ∷ 100 ∷ 101 ∷ 192 ∷ 255 ∷ []) }
    ensures extensions { map (may_take_extensions Server) (moments server03.turns) ≡ replicate 56 false }
    ensures announces { map (announces server03.ends Server) (moments server03.turns) ≡ replicate 4 false ++ true ∷ replicate 51 false }
    ensures requested { map (service_requested Server) (moments server03.turns) ≡ replicate 11 false ++ replicate 45 true }
    ensures accepted { map sent_service_accept (moments server03.turns) ≡ replicate 11 false ++ replicate 45 true }
    ensures authenticated { map (authenticated Server) (moments server03.turns) ≡ replicate 17 false ++ replicate 39 true }
    ensures failures { map failures (moments server03.turns) ≡ replicate 12 0 ++ 1 ∷ replicate 43 2 }
    ensures outstanding { map (λ h. request_number (outstanding h)) (moments server03.turns) ≡ replicate 56 0 }
    ensures refused { map (verdicts server03.ends Server server03.messages) (moments server03.turns) ≡ replicate 4 (8 ∷ 0 ∷ replicate 10 7
        ++ 0 ∷ replicate 2 7 ++ 0 ∷ 7 ∷ []) ++ (replicate 5 7 ++ 0 ∷ 10 ∷ 0 ∷ replicate 4 7 ++ 0 ∷ replicate 2 7 ++ 0 ∷ 7 ∷ [])
        ∷ replicate 2 (replicate 12 7 ++ 0 ∷ replicate 2 7 ++ 0 ∷ 7 ∷ []) ++ replicate 4 (replicate 12 7 ++ 0 ∷ replicate 2 7
        ++ replicate 2 0) ++ replicate 2 (replicate 8 7 ++ replicate 3 0 ++ 7 ∷ 0 ∷ replicate 2 7 ++ 0 ∷ 7 ∷ [])
        ++ replicate 4 (replicate 8 7 ++ replicate 3 15 ++ 7 ∷ 0 ∷ replicate 2 7 ++ 0 ∷ 7 ∷ []) ++ replicate 8 (8 ∷ 12 ∷ replicate 3 16
        ++ replicate 3 7 ++ replicate 3 0 ++ 7 ∷ 0 ∷ 7 ∷ 16 ∷ 0 ∷ 7 ∷ []) ++ replicate 5 (8 ∷ 0 ∷ replicate 3 16 ++ replicate 3 7
        ++ replicate 3 0 ++ 7 ∷ 0 ∷ 7 ∷ 16 ∷ 0 ∷ 7 ∷ []) ++ (replicate 5 7 ++ 0 ∷ 10 ∷ 0 ∷ replicate 4 7 ++ 0 ∷ replicate 2 7 ++ 0 ∷ 7 ∷ [])
        ∷ replicate 6 (replicate 12 7 ++ 0 ∷ replicate 2 7 ++ 0 ∷ 7 ∷ []) ++ replicate 5 (8 ∷ replicate 3 0 ++ 16 ∷ replicate 3 7
        ++ replicate 3 0 ++ 7 ∷ 0 ∷ 7 ∷ 16 ∷ 0 ∷ 7 ∷ []) ++ replicate 6 (replicate 5 7 ++ 0 ∷ replicate 2 10 ++ replicate 4 7 ++ 0
        ∷ replicate 2 7 ++ 0 ∷ 7 ∷ []) ++ replicate 2 (replicate 12 7 ++ 0 ∷ replicate 2 7 ++ 0 ∷ 7 ∷ []) ++ replicate 6 (8 ∷ replicate 4 0
        ++ replicate 3 7 ++ replicate 3 0 ++ 7 ∷ 0 ∷ replicate 2 7 ++ 0 ∷ 7 ∷ []) }
    ensures asks_refused { map (ask_verdicts server03.ends Server server03.asks) (moments server03.turns) ≡ replicate 17 (replicate 7 1
        ++ 11 ∷ 1 ∷ []) ++ replicate 8 (replicate 3 9 ++ 12 ∷ replicate 3 9 ++ 11 ∷ 9 ∷ []) ++ replicate 3 (replicate 3 9 ++ 0
        ∷ replicate 3 9 ++ 11 ∷ 9 ∷ []) ++ replicate 3 (replicate 7 2 ++ 11 ∷ 2 ∷ []) ++ replicate 6 (replicate 2 3 ++ 0 ∷ 2 ∷ replicate 3 3
        ++ 11 ∷ 8 ∷ []) ++ replicate 5 (replicate 2 3 ++ replicate 2 0 ++ replicate 3 3 ++ 11 ∷ 8 ∷ []) ++ replicate 6 (replicate 7 2 ++ 11
        ∷ 2 ∷ []) ++ (replicate 2 3 ++ 0 ∷ 2 ∷ replicate 3 3 ++ 11 ∷ 8 ∷ []) ∷ (0 ∷ replicate 2 3 ++ 2 ∷ replicate 2 3 ++ 0 ∷ 11 ∷ 8 ∷ [])
        ∷ replicate 6 (0 ∷ replicate 2 3 ++ 0 ∷ replicate 2 3 ++ 0 ∷ 11 ∷ 8 ∷ []) }
    ensures channel_0 { map (channel_state Server 0) (moments server03.turns) ≡ replicate 20 [] ++ replicate 29 (2 ∷ 10 ∷ replicate 2 8)
        ++ replicate 2 (3 ∷ 10 ∷ 8 ∷ 9 ∷ 6 ∷ 8 ∷ replicate 5 0) ++ replicate 5 (3 ∷ 10 ∷ 8 ∷ 3 ∷ 6 ∷ 8 ∷ replicate 5 0) }
    ensures channel_1 { map (channel_state Server 1) (moments server03.turns) ≡ replicate 18 [] ++ replicate 14 (2 ∷ 12 ∷ replicate 2 6)
        ++ replicate 4 (3 ∷ 12 ∷ 6 ∷ 9 ∷ 8 ∷ 6 ∷ replicate 5 0) ++ replicate 5 (3 ∷ 8 ∷ 6 ∷ 9 ∷ 8 ∷ 6 ∷ replicate 5 0) ++ replicate 12 (3
        ∷ 7 ∷ 6 ∷ 9 ∷ 8 ∷ 6 ∷ replicate 5 0) ++ replicate 2 (3 ∷ 7 ∷ 6 ∷ replicate 2 8 ++ 6 ∷ replicate 5 0) ++ (3 ∷ 7 ∷ 6 ∷ 4 ∷ 8 ∷ 6
        ∷ replicate 5 0) ∷ [] }
    ensures channel_2 { map (channel_state Server 2) (moments server03.turns) ≡ replicate 23 [] ++ replicate 33 (2 ∷ 8 ∷ 4 ∷ 2 ∷ []) }
    ensures held { map (held Server (numbers_from 0 3)) (moments server03.turns) ≡ replicate 18 (replicate 3 false) ++ replicate 2 (false
        ∷ true ∷ false ∷ []) ++ replicate 3 (replicate 2 true ++ false ∷ []) ++ replicate 33 (replicate 3 true) }
    ensures replies { map (replies Server (numbers_from 0 3)) (moments server03.turns) ≡ replicate 32 (replicate 3 []) ++ replicate 10 ([]
        ∷ ((1 ∷ 6 ∷ []) ∷ []) ∷ [] ∷ []) ++ replicate 6 (replicate 3 []) ++ ([] ∷ ((1 ∷ 6 ∷ []) ∷ []) ∷ [] ∷ []) ∷ replicate 7 (((0 ∷ 8
        ∷ []) ∷ []) ∷ ((1 ∷ 6 ∷ []) ∷ []) ∷ [] ∷ []) }
    ensures owed { map (owed_closes Server) (moments server03.turns) ≡ replicate 56 [] }
    ensures globals { map waiting_globals (moments server03.turns) ≡ replicate 56 (replicate 2 0) }
    ensures all_numbers_47 { allowed server03.ends Server (numbers_from 0 256) (whole (take 47 server03.turns)) ≡ numbers_from 0 5
        ++ numbers_from 8 12 ++ numbers_from 22 9 }
    ensures all_numbers_56 { allowed server03.ends Server (numbers_from 0 256) (whole (take 56 server03.turns)) ≡ numbers_from 0 5
        ++ numbers_from 8 13 ++ numbers_from 22 8 ++ numbers_from 32 19 ++ numbers_from 54 6 ++ numbers_from 61 195 }
    ensures first_offer { offer server03.ends Server true [] ≡ proposing (codes "k3" ∷ codes "kex-strict-s-v00@openssh.com"
        ∷ []) (codes "h1" ∷ []) (codes "e2" ∷ []) (codes "e2" ∷ []) (codes "m1" ∷ []) (codes "m1" ∷ []) }
    ensures later_offer { offer server03.ends Server false [] ≡ proposing (codes "k3" ∷ []) (codes "h1" ∷ []) (codes "e2" ∷ []) (codes "e2"
        ∷ []) (codes "m1" ∷ []) (codes "m1" ∷ []) }
    ensures texts { map exchange_text (exchanges server03.ends Server (whole server03.turns)) ≡ server03.text_2 ∷ server03.text_1
        ∷ server03.text_0 ∷ [] }
    ensures algorithms { map names_of (choices Server (whole server03.turns)) ≡ replicate 3 (codes "k3" ∷ codes "h1"
        ∷ replicate 2 (codes "e2") ++ replicate 2 (codes "m1") ++ replicate 2 (codes "none")) }
    ensures session { session_id (exchanges server03.ends Server (whole server03.turns)) ≡ sha256 server03.text_0 }
    ensures sending_key { sending_name server03.ends Server (whole server03.turns)
        ≡ named Server (sha256 server03.text_2) (sha256 server03.text_0) }
    ensures taking_key { taking_name server03.ends Server (whole server03.turns)
        ≡ named Client (sha256 server03.text_2) (sha256 server03.text_0) }
{}
