//! Drawn sessions and their tables, written by tools/second_reading.

ghost use Rattle.std.specs.Prelude.{map, ◌≡◌, replicate, ◌++◌, ◌∷◌, true, false, [], length, None, Some, codes, take};
ghost use Rattle.ssh_model.specs.Protocol.Sessions.Phases.{phase, Phase.Start, Phase.Exchanging, Phase.Keying, Phase.Normal};
ghost use Rattle.ssh_model.specs.Protocol.Sessions.Phases.{blocked, other_lines, may_take_extensions, service_requested};
ghost use Rattle.ssh_model.specs.Protocol.Sessions.Phases.{sent_service_accept, authenticated, failures, outstanding};
ghost use Rattle.ssh_model.specs.Protocol.Sessions.Phases.{took_service_accept};
ghost use Rattle.ssh_model.specs.declared.side.Side.TheVariants.{Server, Client};
ghost use Rattle.test_histories.specs.Words.{moments, allowed, request_number, verdicts, ask_verdicts, channel_state, held};
ghost use Rattle.test_histories.specs.Words.{numbers_from, replies, owed_closes, waiting_globals, whole, proposing, names_of};
ghost use Rattle.test_histories.specs.Words.{named};
ghost use Rattle.ssh_model.specs.Protocol.Sessions.Items.{has_died, sent, took};
ghost use Rattle.ssh_model.specs.Protocol.Sessions.Turns.{can_feed};
ghost use Rattle.ssh_model.specs.Protocol.Sessions.Transport.{point_now, next_cookie, announces};
ghost use Rattle.ssh_model.specs.Protocol.KeyExchange.Exchanges.{is_strict, sending_number, taking_number, sending_key};
ghost use Rattle.ssh_model.specs.Protocol.KeyExchange.Exchanges.{taking_key, exchanges, choices, session_id, sending_name};
ghost use Rattle.ssh_model.specs.Protocol.KeyExchange.Exchanges.{taking_name};
ghost use Rattle.ssh_model.specs.Protocol.Sessions.Epochs.{epoch, count, after_first};
ghost use Rattle.ssh_model.specs.Protocol.Sessions.Parties.{offer};
ghost use Rattle.ssh_model.specs.Protocol.KeyExchange.Exchange.{exchange_text};
ghost use Rattle.sha2.specs.Sha256.{sha256};
ghost use Rattle.test_histories.specs.Drawn.Server08 as server08;
ghost use Rattle.test_histories.specs.Drawn.Client09 as client09;
ghost use Rattle.test_histories.specs.Drawn.Server09 as server09;

/// Server08: values after each of 56 turns.
#[tactic(auto, unfolding(ssh_model::specs::Protocol::Channels::History::has_place, ssh_model::specs::Protocol::Channels::History::some_free, ssh_model::specs::Protocol::KeyExchange::Choice::methods, ssh_model::specs::Protocol::KeyExchange::Exchange::string_of))]
pub fn server08()
    ensures phases { map (phase server08.ends Server) (moments server08.turns) ≡ replicate 3 Start ++ replicate 2 Exchanging ++ Keying
        ∷ replicate 17 Normal ++ Exchanging ∷ replicate 6 Keying ++ replicate 5 Normal ++ replicate 3 Exchanging ++ replicate 2 Keying
        ++ replicate 6 Normal ++ replicate 3 Exchanging ++ replicate 5 Keying ++ replicate 2 Normal }
    ensures blocked { map blocked (moments server08.turns) ≡ replicate 5 true ++ replicate 18 false ++ true ∷ replicate 7 false
        ++ replicate 7 true ++ replicate 8 false ++ replicate 3 true ++ replicate 7 false }
    ensures died { map has_died (moments server08.turns) ≡ replicate 56 false }
    ensures can_feed { map can_feed (moments server08.turns) ≡ replicate 22 true ++ false ∷ replicate 4 true ++ replicate 4 false
        ++ replicate 14 true ++ false ∷ replicate 2 true ++ replicate 8 false }
    ensures points { map (point_now server08.ends Server) (moments server08.turns) ≡ replicate 5 (replicate 32 147) ++ replicate 17 []
        ++ replicate 2 (replicate 32 183) ++ replicate 3 [] ++ replicate 11 (replicate 32 193) ++ replicate 7 []
        ++ replicate 4 (replicate 32 213) ++ replicate 7 (replicate 32 106) }
    ensures cookies { map next_cookie (moments server08.turns) ≡ replicate 22 [] ++ replicate 16 185 ∷ replicate 4 []
        ++ replicate 4 (replicate 16 235) ++ replicate 14 [] ++ replicate 16 31 ∷ replicate 2 [] ++ replicate 8 (replicate 16 5) }
    ensures other_lines { map other_lines (moments server08.turns) ≡ replicate 56 0 }
    ensures strict { map (is_strict Server) (moments server08.turns) ≡ replicate 56 false }
    ensures epochs_sent { map (λ h. epoch (sent h)) (moments server08.turns) ≡ replicate 5 0 ++ replicate 19 1 ++ replicate 14 2
        ++ replicate 11 3 ++ replicate 7 4 }
    ensures epochs_taken { map (λ h. epoch (took h)) (moments server08.turns) ≡ replicate 6 0 ++ replicate 24 1 ++ replicate 10 2
        ++ replicate 14 3 ++ replicate 2 4 }
    ensures counts_sent { map (λ h. count (sent h)) (moments server08.turns) ≡ replicate 11 1 ++ 2 ∷ replicate 2 3 ++ 4 ∷ replicate 3 5
        ++ replicate 5 6 ++ 7 ∷ 0 ∷ replicate 6 1 ++ replicate 7 2 ++ 0 ∷ replicate 7 1 ++ replicate 3 2 ++ 0 ∷ 1 ∷ 2 ∷ replicate 3 3 ++ 4
        ∷ [] }
    ensures counts_taken { map (λ h. count (took h)) (moments server08.turns) ≡ replicate 2 0 ++ 1 ∷ 2 ∷ 3 ∷ 4 ∷ 0 ∷ 1 ∷ 2 ∷ 3 ∷ 4 ∷ 5 ∷ 6
        ∷ 7 ∷ 8 ∷ 9 ∷ 10 ∷ replicate 2 11 ++ 12 ∷ 13 ∷ replicate 2 14 ++ 15 ∷ replicate 4 16 ++ 17 ∷ 18 ∷ replicate 2 0 ++ 1 ∷ replicate 2 2
        ++ 3 ∷ 4 ∷ 5 ∷ replicate 2 6 ++ 0 ∷ 1 ∷ 2 ∷ replicate 3 3 ++ 4 ∷ replicate 2 5 ++ replicate 4 6 ++ 7 ∷ replicate 2 0 }
    ensures later_sent { map (λ h. length (after_first (sent h))) (moments server08.turns) ≡ replicate 5 0 ++ replicate 6 1 ++ 2
        ∷ replicate 2 3 ++ 4 ∷ replicate 3 5 ++ replicate 5 6 ++ 7 ∷ 9 ∷ replicate 6 10 ++ replicate 7 11 ++ 13 ∷ replicate 7 14
        ++ replicate 3 15 ++ 17 ∷ 18 ∷ 19 ∷ replicate 3 20 ++ 21 ∷ [] }
    ensures later_taken { map (λ h. length (after_first (took h))) (moments server08.turns) ≡ replicate 7 0 ++ 1 ∷ 2 ∷ 3 ∷ 4 ∷ 5 ∷ 6 ∷ 7 ∷ 8
        ∷ 9 ∷ 10 ∷ replicate 2 11 ++ 12 ∷ 13 ∷ replicate 2 14 ++ 15 ∷ replicate 4 16 ++ 17 ∷ 18 ∷ replicate 2 19 ++ 20 ∷ replicate 2 21
        ++ 22 ∷ 23 ∷ 24 ∷ replicate 2 25 ++ 26 ∷ 27 ∷ 28 ∷ replicate 3 29 ++ 30 ∷ replicate 2 31 ++ replicate 4 32 ++ 33 ∷ replicate 2 34 }
    ensures numbers_sent { map (sending_number Server) (moments server08.turns) ≡ replicate 5 1 ++ replicate 6 4 ++ 5 ∷ replicate 2 6 ++ 7
        ∷ replicate 3 8 ++ replicate 5 9 ++ 10 ∷ 12 ∷ replicate 6 13 ++ replicate 7 14 ++ 16 ∷ replicate 7 17 ++ replicate 3 18 ++ 20 ∷ 21
        ∷ 22 ∷ replicate 3 23 ++ 24 ∷ [] }
    ensures numbers_taken { map (taking_number Server) (moments server08.turns) ≡ replicate 2 0 ++ 1 ∷ 2 ∷ 3 ∷ 4 ∷ 5 ∷ 6 ∷ 7 ∷ 8 ∷ 9 ∷ 10
        ∷ 11 ∷ 12 ∷ 13 ∷ 14 ∷ 15 ∷ replicate 2 16 ++ 17 ∷ 18 ∷ replicate 2 19 ++ 20 ∷ replicate 4 21 ++ 22 ∷ 23 ∷ replicate 2 24 ++ 25
        ∷ replicate 2 26 ++ 27 ∷ 28 ∷ 29 ∷ replicate 2 30 ++ 31 ∷ 32 ∷ 33 ∷ replicate 3 34 ++ 35 ∷ replicate 2 36 ++ replicate 4 37 ++ 38
        ∷ replicate 2 39 }
    ensures keys_sent { map (sending_key server08.ends Server) (moments server08.turns) ≡ replicate 5 None
        ++ replicate 19 (Some (codes "e1m3")) ++ replicate 14 (Some (codes "e1m1")) ++ replicate 18 (Some (codes "e1m3")) }
    ensures keys_taken { map (taking_key server08.ends Server) (moments server08.turns) ≡ replicate 6 None
        ++ replicate 24 (Some (codes "e1m3")) ++ replicate 24 (Some (codes "e1m1")) ++ replicate 2 (Some (codes "e1m3")) }
    ensures may_take { map (allowed server08.ends Server server08.numbers) (moments server08.turns) ≡ replicate 3 (2 ∷ 20 ∷ [])
        ++ replicate 3 (2 ∷ []) ++ replicate 5 (2 ∷ 8 ∷ 19 ∷ 49 ∷ 54 ∷ 79 ∷ []) ++ replicate 3 (2 ∷ 8 ∷ 19 ∷ 49 ∷ 50 ∷ 54 ∷ 79 ∷ [])
        ++ replicate 9 (2 ∷ 8 ∷ 19 ∷ 20 ∷ 49 ∷ 50 ∷ 54 ∷ 79 ∷ 97 ∷ 192 ∷ []) ++ replicate 7 (2 ∷ 8 ∷ 19 ∷ []) ++ replicate 5 (2 ∷ 8 ∷ 19
        ∷ 20 ∷ 49 ∷ 50 ∷ 54 ∷ 79 ∷ 97 ∷ 192 ∷ []) ++ replicate 5 (2 ∷ 8 ∷ 19 ∷ []) ++ replicate 6 (2 ∷ 8 ∷ 19 ∷ 20 ∷ 49 ∷ 50 ∷ 54 ∷ 79 ∷ 97
        ∷ 192 ∷ []) ++ replicate 8 (2 ∷ 8 ∷ 19 ∷ []) ++ replicate 2 (2 ∷ 8 ∷ 19 ∷ 20 ∷ 49 ∷ 50 ∷ 54 ∷ 79 ∷ 97 ∷ 192 ∷ []) }
    ensures extensions { map (may_take_extensions Server) (moments server08.turns) ≡ replicate 6 false ++ true ∷ replicate 49 false }
    ensures announces { map (announces server08.ends Server) (moments server08.turns) ≡ replicate 3 false ++ replicate 2 true
        ++ replicate 51 false }
    ensures requested { map (service_requested Server) (moments server08.turns) ≡ replicate 11 false ++ replicate 45 true }
    ensures accepted { map sent_service_accept (moments server08.turns) ≡ replicate 11 false ++ replicate 45 true }
    ensures authenticated { map (authenticated Server) (moments server08.turns) ≡ replicate 14 false ++ replicate 42 true }
    ensures failures { map failures (moments server08.turns) ≡ replicate 12 0 ++ replicate 44 1 }
    ensures outstanding { map (λ h. request_number (outstanding h)) (moments server08.turns) ≡ replicate 56 0 }
    ensures refused { map (verdicts server08.ends Server server08.messages) (moments server08.turns) ≡ replicate 3 (replicate 2 0
        ++ replicate 9 7 ++ 0 ∷ replicate 5 7) ++ replicate 2 (replicate 5 7 ++ replicate 3 0 ++ replicate 3 7 ++ 0 ∷ replicate 5 7)
        ++ replicate 6 (replicate 11 7 ++ 0 ∷ replicate 5 7) ++ (replicate 8 7 ++ replicate 4 0 ++ replicate 5 7)
        ∷ replicate 2 (replicate 8 7 ++ replicate 3 15 ++ 0 ∷ replicate 5 7) ++ replicate 6 (replicate 2 12 ++ replicate 3 16
        ++ replicate 3 7 ++ replicate 4 0 ++ 16 ∷ 7 ∷ replicate 2 16 ++ 7 ∷ []) ++ replicate 2 (replicate 2 12 ++ replicate 3 16
        ++ replicate 3 7 ++ replicate 4 0 ++ 16 ∷ replicate 2 7 ++ 16 ∷ 7 ∷ []) ++ (replicate 2 0 ++ replicate 3 16 ++ replicate 3 7
        ++ replicate 4 0 ++ 16 ∷ replicate 2 7 ++ 16 ∷ 7 ∷ []) ∷ (replicate 5 7 ++ replicate 3 0 ++ replicate 3 7 ++ 0 ∷ replicate 5 7)
        ∷ replicate 6 (replicate 11 7 ++ 0 ∷ replicate 5 7) ++ replicate 5 (replicate 2 0 ++ replicate 2 16 ++ 0 ∷ replicate 3 7
        ++ replicate 4 0 ++ replicate 3 7 ++ 16 ∷ 7 ∷ []) ++ replicate 3 (replicate 5 7 ++ replicate 3 0 ++ replicate 3 7 ++ 0
        ∷ replicate 5 7) ++ replicate 2 (replicate 11 7 ++ 0 ∷ replicate 5 7) ++ replicate 5 (replicate 2 12 ++ replicate 2 16 ++ 0
        ∷ replicate 3 7 ++ replicate 4 0 ++ replicate 3 7 ++ 16 ∷ 7 ∷ []) ++ (replicate 2 0 ++ replicate 2 16 ++ 0 ∷ replicate 3 7
        ++ replicate 4 0 ++ replicate 3 7 ++ 16 ∷ 7 ∷ []) ∷ replicate 3 (replicate 5 7 ++ replicate 3 0 ++ replicate 3 7 ++ 0
        ∷ replicate 5 7) ++ replicate 5 (replicate 11 7 ++ 0 ∷ replicate 5 7) ++ replicate 2 (replicate 3 0 ++ 16 ∷ 0 ∷ replicate 3 7
        ++ replicate 4 0 ++ replicate 3 7 ++ 16 ∷ 7 ∷ []) }
    ensures asks_refused { map (ask_verdicts server08.ends Server server08.asks) (moments server08.turns) ≡ replicate 14 (replicate 9 1)
        ++ replicate 4 (replicate 3 3 ++ 8 ∷ 3 ∷ 12 ∷ 0 ∷ replicate 2 3) ++ replicate 4 (replicate 5 9 ++ 12 ∷ replicate 3 9)
        ++ (replicate 5 9 ++ 0 ∷ replicate 3 9) ∷ replicate 9 2 ∷ (replicate 3 3 ++ 8 ∷ 3 ∷ 2 ∷ 0 ∷ replicate 2 3)
        ∷ replicate 5 (replicate 3 3 ++ 8 ∷ 10 ∷ 2 ∷ 0 ∷ 3 ∷ 8 ∷ []) ++ (replicate 3 3 ++ 8 ∷ 10 ∷ replicate 2 0 ++ 3 ∷ 8 ∷ [])
        ∷ replicate 7 (replicate 9 2) ++ replicate 2 (replicate 3 3 ++ 8 ∷ 10 ∷ 2 ∷ 0 ∷ 3 ∷ 8 ∷ []) ++ replicate 2 (replicate 3 3 ++ 8 ∷ 10
        ∷ 12 ∷ 0 ∷ 3 ∷ 8 ∷ []) ++ replicate 3 (replicate 3 3 ++ 8 ∷ 10 ∷ 12 ∷ 0 ∷ 3 ∷ 0 ∷ []) ++ (replicate 3 3 ++ 8 ∷ 10 ∷ replicate 2 0
        ++ 3 ∷ 0 ∷ []) ∷ replicate 3 (replicate 9 2) ++ replicate 2 (replicate 3 3 ++ 8 ∷ 10 ∷ 2 ∷ 0 ∷ 3 ∷ 0 ∷ []) ++ (replicate 3 3 ++ 8
        ∷ 6 ∷ 2 ∷ 0 ∷ 3 ∷ 6 ∷ []) ∷ replicate 2 (0 ∷ 3 ∷ 0 ∷ 8 ∷ 6 ∷ 2 ∷ 0 ∷ 3 ∷ 6 ∷ []) ++ replicate 2 (0 ∷ 3 ∷ 0 ∷ 8 ∷ 6 ∷ replicate 2 0
        ++ 3 ∷ 6 ∷ []) }
    ensures channel_0 { map (channel_state Server 0) (moments server08.turns) ≡ replicate 20 [] ++ replicate 5 (2 ∷ 4 ∷ 6 ∷ 5 ∷ [])
        ++ replicate 7 (3 ∷ 4 ∷ 6 ∷ 5 ∷ 32768 ∷ 5 ∷ replicate 5 0) ++ (3 ∷ 4 ∷ 6 ∷ 4 ∷ 32768 ∷ 5 ∷ replicate 5 0) ∷ replicate 6 (3 ∷ 4 ∷ 6
        ∷ 4 ∷ 32768 ∷ 5 ∷ replicate 2 0 ++ 1 ∷ replicate 2 0) ++ replicate 2 (replicate 2 3 ++ 6 ∷ 4 ∷ 32768 ∷ 5 ∷ replicate 2 0 ++ 1
        ∷ replicate 2 0) ++ (3 ∷ 4 ∷ 6 ∷ 4 ∷ 32768 ∷ 5 ∷ replicate 2 0 ++ 1 ∷ replicate 2 0) ∷ replicate 8 (3 ∷ 4 ∷ 6 ∷ 4 ∷ 32768 ∷ 5
        ∷ replicate 2 0 ++ replicate 2 1 ++ 0 ∷ []) ++ (3 ∷ 4 ∷ 6 ∷ 4294967292 ∷ 32768 ∷ 5 ∷ replicate 2 0 ++ replicate 2 1 ++ 0 ∷ [])
        ∷ replicate 5 (3 ∷ 4 ∷ 6 ∷ 4294967292 ∷ 32768 ∷ 5 ∷ replicate 4 1 ++ 0 ∷ []) }
    ensures channel_1 { map (channel_state Server 1) (moments server08.turns) ≡ replicate 16 [] ++ replicate 40 (2 ∷ 9 ∷ 5 ∷ 7 ∷ []) }
    ensures channel_2 { map (channel_state Server 2) (moments server08.turns) ≡ replicate 21 [] ++ replicate 31 (2 ∷ 9 ∷ 6 ∷ 1 ∷ [])
        ++ replicate 3 (3 ∷ 9 ∷ replicate 2 6 ++ 4 ∷ 1 ∷ replicate 5 0) ++ (3 ∷ 9 ∷ 6 ∷ 4294967294 ∷ 4 ∷ 1 ∷ replicate 5 0) ∷ [] }
    ensures held { map (held Server (numbers_from 0 3)) (moments server08.turns) ≡ replicate 16 (replicate 3 false) ++ replicate 4 (false
        ∷ true ∷ false ∷ []) ++ (replicate 2 true ++ false ∷ []) ∷ replicate 35 (replicate 3 true) }
    ensures replies { map (replies Server (numbers_from 0 3)) (moments server08.turns) ≡ replicate 25 (replicate 3 []) ++ replicate 6 (((0
        ∷ 5 ∷ []) ∷ []) ∷ replicate 2 []) ++ replicate 7 (replicate 3 []) ++ replicate 8 (((0 ∷ 5 ∷ []) ∷ []) ∷ replicate 2 [])
        ++ replicate 3 (replicate 3 []) ++ replicate 2 (((0 ∷ 5 ∷ []) ∷ []) ∷ replicate 2 []) ++ replicate 3 []
        ∷ replicate 4 (replicate 2 [] ++ ((2 ∷ 1 ∷ []) ∷ []) ∷ []) }
    ensures owed { map (owed_closes Server) (moments server08.turns) ≡ replicate 56 [] }
    ensures globals { map waiting_globals (moments server08.turns) ≡ replicate 18 (replicate 2 0) ++ (0 ∷ 1 ∷ [])
        ∷ replicate 37 (replicate 2 0) }
    ensures all_numbers_16 { allowed server08.ends Server (numbers_from 0 256) (whole (take 16 server08.turns)) ≡ numbers_from 0 5
        ++ numbers_from 8 13 ++ numbers_from 22 8 ++ numbers_from 32 19 ++ numbers_from 54 6 ++ numbers_from 61 195 }
    ensures all_numbers_56 { allowed server08.ends Server (numbers_from 0 256) (whole (take 56 server08.turns)) ≡ numbers_from 0 5
        ++ numbers_from 8 13 ++ numbers_from 22 8 ++ numbers_from 32 19 ++ numbers_from 54 6 ++ numbers_from 61 195 }
    ensures first_offer { offer server08.ends Server true [] ≡ proposing (codes "k2" ∷ codes "k3" ∷ codes "k1" ∷ codes "ext-info-s"
        ∷ codes "kex-strict-s-v00@openssh.com" ∷ []) (codes "h1" ∷ codes "h2" ∷ []) (codes "e1" ∷ []) (codes "e1" ∷ []) (codes "m1"
        ∷ codes "m3" ∷ []) (codes "m1" ∷ codes "m3" ∷ []) }
    ensures later_offer { offer server08.ends Server false [] ≡ proposing (codes "k2" ∷ codes "k3" ∷ codes "k1" ∷ []) (codes "h1"
        ∷ codes "h2" ∷ []) (codes "e1" ∷ []) (codes "e1" ∷ []) (codes "m1" ∷ codes "m3" ∷ []) (codes "m1" ∷ codes "m3" ∷ []) }
    ensures texts { map exchange_text (exchanges server08.ends Server (whole server08.turns)) ≡ server08.text_3 ∷ server08.text_2
        ∷ server08.text_1 ∷ server08.text_0 ∷ [] }
    ensures algorithms { map names_of (choices Server (whole server08.turns)) ≡ (codes "k1" ∷ codes "h1" ∷ replicate 2 (codes "e1")
        ++ replicate 2 (codes "m3") ++ replicate 2 (codes "none")) ∷ (codes "k1" ∷ codes "h2" ∷ replicate 2 (codes "e1") ++ codes "m1"
        ∷ codes "m3" ∷ replicate 2 (codes "none")) ∷ (codes "k2" ∷ codes "h1" ∷ replicate 2 (codes "e1") ++ replicate 2 (codes "m1")
        ++ replicate 2 (codes "none")) ∷ (codes "k2" ∷ codes "h1" ∷ replicate 2 (codes "e1") ++ replicate 2 (codes "m3")
        ++ replicate 2 (codes "none")) ∷ [] }
    ensures session { session_id (exchanges server08.ends Server (whole server08.turns)) ≡ sha256 server08.text_0 }
    ensures sending_key { sending_name server08.ends Server (whole server08.turns)
        ≡ named Server (sha256 server08.text_3) (sha256 server08.text_0) }
    ensures taking_key { taking_name server08.ends Server (whole server08.turns)
        ≡ named Client (sha256 server08.text_3) (sha256 server08.text_0) }
{}

/// Client09: values after each of 48 turns.
#[tactic(auto, unfolding(ssh_model::specs::Protocol::Channels::History::has_place, ssh_model::specs::Protocol::Channels::History::some_free, ssh_model::specs::Protocol::KeyExchange::Choice::methods, ssh_model::specs::Protocol::KeyExchange::Exchange::string_of))]
pub fn client09()
    ensures phases { map (phase client09.ends Client) (moments client09.turns) ≡ replicate 3 Start ++ replicate 2 Exchanging ++ Keying
        ∷ replicate 25 Normal ++ Exchanging ∷ replicate 4 Keying ++ replicate 4 Normal ++ replicate 8 Exchanging }
    ensures blocked { map blocked (moments client09.turns) ≡ replicate 5 true ++ replicate 26 false ++ true ∷ replicate 5 false
        ++ replicate 11 true }
    ensures died { map has_died (moments client09.turns) ≡ replicate 47 false ++ true ∷ [] }
    ensures can_feed { map can_feed (moments client09.turns) ≡ replicate 30 true ++ false ∷ replicate 4 true ++ replicate 2 false ++ true
        ∷ replicate 10 false }
    ensures points { map (point_now client09.ends Client) (moments client09.turns) ≡ replicate 5 (replicate 32 14) ++ replicate 25 []
        ++ replicate 2 (replicate 32 177) ++ replicate 3 [] ++ replicate 13 (replicate 32 152) }
    ensures cookies { map next_cookie (moments client09.turns) ≡ replicate 30 [] ++ replicate 16 188 ∷ replicate 4 []
        ++ replicate 2 (replicate 16 194) ++ [] ∷ replicate 10 (replicate 16 159) }
    ensures other_lines { map other_lines (moments client09.turns) ≡ 0 ∷ replicate 47 1 }
    ensures strict { map (is_strict Client) (moments client09.turns) ≡ replicate 3 false ++ replicate 45 true }
    ensures epochs_sent { map (λ h. epoch (sent h)) (moments client09.turns) ≡ replicate 5 0 ++ replicate 27 1 ++ replicate 16 2 }
    ensures epochs_taken { map (λ h. epoch (took h)) (moments client09.turns) ≡ replicate 6 0 ++ replicate 30 1 ++ replicate 12 2 }
    ensures counts_sent { map (λ h. count (sent h)) (moments client09.turns) ≡ replicate 3 1 ++ replicate 2 2 ++ replicate 3 1 ++ 2
        ∷ replicate 6 3 ++ replicate 2 4 ++ replicate 2 5 ++ replicate 2 6 ++ replicate 7 7 ++ 8 ∷ replicate 2 9 ++ 11 ∷ 0 ∷ replicate 4 1
        ++ replicate 3 2 ++ replicate 7 3 ++ 4 ∷ [] }
    ensures counts_taken { map (λ h. count (took h)) (moments client09.turns) ≡ replicate 3 0 ++ replicate 2 1 ++ 2 ∷ replicate 2 0
        ++ replicate 2 1 ++ 2 ∷ 3 ∷ 4 ∷ 5 ∷ replicate 2 6 ++ replicate 2 7 ++ replicate 2 8 ++ replicate 2 9 ++ 10 ∷ 11 ∷ 12 ∷ 13 ∷ 14
        ∷ replicate 2 15 ++ replicate 2 16 ++ 17 ∷ replicate 4 18 ++ replicate 3 0 ++ 1 ∷ 2 ∷ 3 ∷ 4 ∷ replicate 3 5 ++ replicate 2 6 }
    ensures later_sent { map (λ h. length (after_first (sent h))) (moments client09.turns) ≡ replicate 5 0 ++ replicate 3 1 ++ 2
        ∷ replicate 6 3 ++ replicate 2 4 ++ replicate 2 5 ++ replicate 2 6 ++ replicate 7 7 ++ 8 ∷ replicate 2 9 ++ 11 ∷ 12 ∷ replicate 4 13
        ++ replicate 3 14 ++ replicate 7 15 ++ 16 ∷ [] }
    ensures later_taken { map (λ h. length (after_first (took h))) (moments client09.turns) ≡ replicate 8 0 ++ replicate 2 1 ++ 2 ∷ 3 ∷ 4
        ∷ 5 ∷ replicate 2 6 ++ replicate 2 7 ++ replicate 2 8 ++ replicate 2 9 ++ 10 ∷ 11 ∷ 12 ∷ 13 ∷ 14 ∷ replicate 2 15 ++ replicate 2 16
        ++ 17 ∷ replicate 4 18 ++ replicate 3 19 ++ 20 ∷ 21 ∷ 22 ∷ 23 ∷ replicate 3 24 ++ replicate 2 25 }
    ensures numbers_sent { map (sending_number Client) (moments client09.turns) ≡ replicate 3 1 ++ replicate 2 2 ++ replicate 3 1 ++ 2
        ∷ replicate 6 3 ++ replicate 2 4 ++ replicate 2 5 ++ replicate 2 6 ++ replicate 7 7 ++ 8 ∷ replicate 2 9 ++ 11 ∷ 0 ∷ replicate 4 1
        ++ replicate 3 2 ++ replicate 7 3 ++ 4 ∷ [] }
    ensures numbers_taken { map (taking_number Client) (moments client09.turns) ≡ replicate 3 0 ++ replicate 2 1 ++ 2 ∷ replicate 2 0
        ++ replicate 2 1 ++ 2 ∷ 3 ∷ 4 ∷ 5 ∷ replicate 2 6 ++ replicate 2 7 ++ replicate 2 8 ++ replicate 2 9 ++ 10 ∷ 11 ∷ 12 ∷ 13 ∷ 14
        ∷ replicate 2 15 ++ replicate 2 16 ++ 17 ∷ replicate 4 18 ++ replicate 3 0 ++ 1 ∷ 2 ∷ 3 ∷ 4 ∷ replicate 3 5 ++ replicate 2 6 }
    ensures keys_sent { map (sending_key client09.ends Client) (moments client09.turns) ≡ replicate 5 None
        ++ replicate 27 (Some (codes "e2m3")) ++ replicate 16 (Some (codes "e2m2")) }
    ensures keys_taken { map (taking_key client09.ends Client) (moments client09.turns) ≡ replicate 6 None
        ++ replicate 42 (Some (codes "e2m3")) }
    ensures may_take { map (allowed client09.ends Client client09.numbers) (moments client09.turns) ≡ replicate 6 [] ++ replicate 14 (0 ∷ 19
        ∷ 29 ∷ 32 ∷ 54 ∷ 61 ∷ []) ++ replicate 11 (0 ∷ 19 ∷ 29 ∷ 32 ∷ 54 ∷ 61 ∷ 82 ∷ 100 ∷ 255 ∷ []) ++ replicate 5 (0 ∷ 19 ∷ 29 ∷ [])
        ++ replicate 4 (0 ∷ 19 ∷ 29 ∷ 32 ∷ 54 ∷ 61 ∷ 82 ∷ 100 ∷ 255 ∷ []) ++ replicate 8 (0 ∷ 19 ∷ 29 ∷ []) }
    ensures extensions { map (may_take_extensions Client) (moments client09.turns) ≡ replicate 48 false }
    ensures announces { map (announces client09.ends Client) (moments client09.turns) ≡ replicate 3 false ++ replicate 2 true
        ++ replicate 43 false }
    ensures requested { map (service_requested Client) (moments client09.turns) ≡ replicate 9 false ++ replicate 39 true }
    ensures accepted { map took_service_accept (moments client09.turns) ≡ replicate 12 false ++ replicate 36 true }
    ensures authenticated { map (authenticated Client) (moments client09.turns) ≡ replicate 20 false ++ replicate 28 true }
    ensures failures { map failures (moments client09.turns) ≡ replicate 48 0 }
    ensures outstanding { map (λ h. request_number (outstanding h)) (moments client09.turns) ≡ replicate 15 0 ++ 3 ∷ 0 ∷ 4 ∷ 0 ∷ 3
        ∷ replicate 28 0 }
    ensures refused { map (verdicts client09.ends Client client09.messages) (moments client09.turns) ≡ replicate 3 (replicate 2 0
        ++ replicate 9 7 ++ replicate 2 0 ++ 7 ∷ []) ++ replicate 2 (replicate 5 7 ++ replicate 2 0 ++ 11 ∷ replicate 4 7 ++ 0 ∷ 7 ∷ [])
        ++ (replicate 12 7 ++ 0 ∷ 7 ∷ []) ∷ replicate 14 (replicate 11 7 ++ replicate 2 0 ++ 7 ∷ []) ++ replicate 10 (replicate 2 12
        ++ replicate 3 16 ++ replicate 3 7 ++ 16 ∷ 7 ∷ 16 ∷ replicate 2 0 ++ 16 ∷ []) ++ (replicate 2 0 ++ replicate 3 16 ++ replicate 3 7
        ++ 16 ∷ 7 ∷ 16 ∷ replicate 2 0 ++ 16 ∷ []) ∷ (replicate 5 7 ++ replicate 2 0 ++ 11 ∷ replicate 3 7 ++ replicate 2 0 ++ 7 ∷ [])
        ∷ replicate 4 (replicate 11 7 ++ replicate 2 0 ++ 7 ∷ []) ++ replicate 4 (replicate 2 0 ++ replicate 3 16 ++ replicate 3 7 ++ 16 ∷ 0
        ∷ 16 ∷ replicate 2 0 ++ 16 ∷ []) ++ replicate 8 (replicate 5 7 ++ replicate 2 0 ++ 11 ∷ replicate 3 7 ++ replicate 2 0 ++ 7 ∷ []) }
    ensures asks_refused { map (ask_verdicts client09.ends Client client09.asks) (moments client09.turns) ≡ replicate 6 (replicate 9 1)
        ++ replicate 3 (replicate 7 1 ++ 0 ∷ 1 ∷ []) ++ replicate 3 (replicate 7 1 ++ 2 ∷ 1 ∷ []) ++ replicate 3 (replicate 2 1 ++ 0
        ∷ replicate 2 1 ++ 0 ∷ 1 ∷ 2 ∷ 1 ∷ []) ++ (replicate 2 1 ++ 2 ∷ replicate 2 1 ++ 2 ∷ 1 ∷ 2 ∷ 1 ∷ []) ∷ (replicate 2 1 ++ 0
        ∷ replicate 2 1 ++ 0 ∷ 1 ∷ 2 ∷ 1 ∷ []) ∷ (replicate 2 1 ++ 2 ∷ replicate 2 1 ++ 2 ∷ 1 ∷ 2 ∷ 1 ∷ []) ∷ (replicate 2 1 ++ 0
        ∷ replicate 2 1 ++ 0 ∷ 1 ∷ 2 ∷ 1 ∷ []) ∷ (replicate 2 1 ++ 2 ∷ replicate 2 1 ++ 2 ∷ 1 ∷ 2 ∷ 1 ∷ []) ∷ replicate 8 (replicate 2 3
        ++ 6 ∷ 3 ∷ 0 ∷ 6 ∷ 12 ∷ 2 ∷ 3 ∷ []) ++ replicate 2 (replicate 2 9 ++ 6 ∷ replicate 2 9 ++ 6 ∷ 12 ∷ 2 ∷ 9 ∷ []) ++ (replicate 2 9
        ++ 6 ∷ replicate 2 9 ++ 6 ∷ 0 ∷ 2 ∷ 9 ∷ []) ∷ (replicate 2 2 ++ 6 ∷ replicate 2 2 ++ 6 ∷ replicate 3 2) ∷ replicate 4 (replicate 2 3
        ++ 6 ∷ 3 ∷ 0 ∷ 6 ∷ replicate 2 2 ++ 3 ∷ []) ++ (replicate 2 3 ++ 6 ∷ 3 ∷ 0 ∷ 6 ∷ 0 ∷ 2 ∷ 3 ∷ []) ∷ replicate 11 (replicate 2 2 ++ 6
        ∷ replicate 2 2 ++ 6 ∷ replicate 3 2) }
    ensures channel_0 { map (channel_state Client 0) (moments client09.turns) ≡ replicate 21 [] ++ (1 ∷ 11 ∷ 6 ∷ []) ∷ [] ∷ replicate 25 (2
        ∷ 11 ∷ 6 ∷ 5 ∷ []) }
    ensures channel_1 { map (channel_state Client 1) (moments client09.turns) ≡ replicate 48 [] }
    ensures channel_2 { map (channel_state Client 2) (moments client09.turns) ≡ replicate 24 [] ++ replicate 24 (2 ∷ 7 ∷ 6 ∷ 1 ∷ []) }
    ensures held { map (held Client (numbers_from 0 3)) (moments client09.turns) ≡ replicate 21 (replicate 3 false) ++ (true
        ∷ replicate 2 false) ∷ replicate 3 false ∷ (true ∷ replicate 2 false) ∷ replicate 24 (true ∷ false ∷ true ∷ []) }
    ensures replies { map (replies Client (numbers_from 0 3)) (moments client09.turns) ≡ replicate 48 (replicate 3 []) }
    ensures owed { map (owed_closes Client) (moments client09.turns) ≡ replicate 48 [] }
    ensures globals { map waiting_globals (moments client09.turns) ≡ replicate 33 (replicate 2 0) ++ replicate 6 (0 ∷ 1 ∷ [])
        ++ replicate 9 (replicate 2 1) }
    ensures all_numbers_2 { allowed client09.ends Client (numbers_from 0 256) (whole (take 2 client09.turns)) ≡ numbers_from 1 4
        ++ numbers_from 20 1 }
    ensures all_numbers_48 { allowed client09.ends Client (numbers_from 0 256) (whole (take 48 client09.turns)) ≡ numbers_from 0 5
        ++ numbers_from 8 12 ++ numbers_from 22 8 ++ numbers_from 31 1 }
    ensures first_offer { offer client09.ends Client true [] ≡ proposing (codes "k3" ∷ codes "k2" ∷ codes "kex-strict-c-v00@openssh.com"
        ∷ []) (codes "h3" ∷ codes "h1" ∷ []) (codes "e2" ∷ codes "e1" ∷ []) (codes "e2" ∷ codes "e1" ∷ []) (codes "m3" ∷ codes "m2"
        ∷ codes "m1" ∷ []) (codes "m3" ∷ codes "m2" ∷ codes "m1" ∷ []) }
    ensures later_offer { offer client09.ends Client false [] ≡ proposing (codes "k3" ∷ codes "k2" ∷ []) (codes "h3" ∷ codes "h1"
        ∷ []) (codes "e2" ∷ codes "e1" ∷ []) (codes "e2" ∷ codes "e1" ∷ []) (codes "m3" ∷ codes "m2" ∷ codes "m1" ∷ []) (codes "m3"
        ∷ codes "m2" ∷ codes "m1" ∷ []) }
    ensures texts { map exchange_text (exchanges client09.ends Client (whole client09.turns)) ≡ client09.text_1 ∷ client09.text_0 ∷ [] }
    ensures algorithms { map names_of (choices Client (whole client09.turns)) ≡ (codes "k3" ∷ codes "h3" ∷ replicate 2 (codes "e2")
        ++ codes "m2" ∷ codes "m3" ∷ replicate 2 (codes "none")) ∷ (codes "k3" ∷ codes "h3" ∷ replicate 2 (codes "e2")
        ++ replicate 2 (codes "m3") ++ replicate 2 (codes "none")) ∷ [] }
    ensures session { session_id (exchanges client09.ends Client (whole client09.turns)) ≡ sha256 client09.text_0 }
    ensures sending_key { sending_name client09.ends Client (whole client09.turns)
        ≡ named Client (sha256 client09.text_1) (sha256 client09.text_0) }
    ensures taking_key { taking_name client09.ends Client (whole client09.turns)
        ≡ named Server (sha256 client09.text_1) (sha256 client09.text_0) }
{}

/// Server09: values after each of 56 turns.
#[tactic(auto, unfolding(ssh_model::specs::Protocol::Channels::History::has_place, ssh_model::specs::Protocol::Channels::History::some_free, ssh_model::specs::Protocol::KeyExchange::Choice::methods, ssh_model::specs::Protocol::KeyExchange::Exchange::string_of))]
pub fn server09()
    ensures phases { map (phase server09.ends Server) (moments server09.turns) ≡ replicate 2 Start ++ Exchanging ∷ Keying
        ∷ replicate 15 Normal ++ replicate 2 Exchanging ++ replicate 4 Keying ++ Normal ∷ Exchanging ∷ replicate 2 Keying
        ++ replicate 8 Normal ++ Exchanging ∷ replicate 3 Keying ++ replicate 13 Normal ++ replicate 2 Exchanging }
    ensures blocked { map blocked (moments server09.turns) ≡ replicate 3 true ++ replicate 16 false ++ replicate 2 true ++ replicate 5 false
        ++ true ∷ replicate 4 false ++ replicate 7 true ++ replicate 16 false ++ replicate 2 true }
    ensures died { map has_died (moments server09.turns) ≡ replicate 55 false ++ true ∷ [] }
    ensures can_feed { map can_feed (moments server09.turns) ≡ replicate 17 true ++ replicate 2 false ++ true ∷ replicate 6 false
        ++ replicate 2 true ++ replicate 3 false ++ replicate 17 true ++ replicate 6 false ++ true ∷ false ∷ [] }
    ensures points { map (point_now server09.ends Server) (moments server09.turns) ≡ replicate 3 (replicate 32 110) ++ replicate 14 []
        ++ replicate 4 (replicate 32 144) ++ replicate 6 (replicate 32 235) ++ [] ∷ replicate 10 (replicate 32 174) ++ replicate 10 []
        ++ replicate 8 (replicate 32 116) }
    ensures cookies { map next_cookie (moments server09.turns) ≡ replicate 17 [] ++ replicate 2 (replicate 16 206) ++ []
        ∷ replicate 6 (replicate 16 186) ++ replicate 2 [] ++ replicate 3 (replicate 16 153) ++ replicate 17 []
        ++ replicate 6 (replicate 16 200) ++ replicate 2 [] }
    ensures other_lines { map other_lines (moments server09.turns) ≡ replicate 56 0 }
    ensures strict { map (is_strict Server) (moments server09.turns) ≡ replicate 2 false ++ replicate 54 true }
    ensures epochs_sent { map (λ h. epoch (sent h)) (moments server09.turns) ≡ replicate 3 0 ++ replicate 18 1 ++ replicate 6 2
        ++ replicate 11 3 ++ replicate 18 4 }
    ensures epochs_taken { map (λ h. epoch (took h)) (moments server09.turns) ≡ replicate 4 0 ++ replicate 21 1 ++ replicate 4 2
        ++ replicate 12 3 ++ replicate 15 4 }
    ensures counts_sent { map (λ h. count (sent h)) (moments server09.turns) ≡ replicate 5 1 ++ 2 ∷ 3 ∷ 4 ∷ replicate 3 5 ++ 6
        ∷ replicate 4 7 ++ replicate 2 8 ++ 9 ∷ replicate 2 10 ++ 0 ∷ 1 ∷ 2 ∷ replicate 2 3 ++ 4 ∷ replicate 3 0 ++ 1 ∷ replicate 8 2 ++ 3
        ∷ replicate 2 4 ++ replicate 2 5 ++ 6 ∷ 7 ∷ replicate 7 8 ++ 9 ∷ replicate 2 10 }
    ensures counts_taken { map (λ h. count (took h)) (moments server09.turns) ≡ replicate 2 0 ++ 1 ∷ 2 ∷ 0 ∷ 1 ∷ 2 ∷ 3 ∷ 4 ∷ 5
        ∷ replicate 3 6 ++ 7 ∷ 8 ∷ 9 ∷ replicate 2 10 ++ 11 ∷ replicate 2 12 ++ replicate 4 13 ++ 0 ∷ 1 ∷ replicate 2 2 ++ replicate 3 0
        ++ 1 ∷ 2 ∷ 3 ∷ 4 ∷ 5 ∷ 6 ∷ replicate 3 7 ++ replicate 2 0 ++ replicate 4 1 ++ replicate 2 2 ++ 3 ∷ replicate 2 4 ++ replicate 2 5
        ++ 6 ∷ 7 ∷ [] }
    ensures later_sent { map (λ h. length (after_first (sent h))) (moments server09.turns) ≡ replicate 3 0 ++ replicate 2 1 ++ 2 ∷ 3 ∷ 4
        ∷ replicate 3 5 ++ 6 ∷ replicate 4 7 ++ replicate 2 8 ++ 9 ∷ replicate 2 10 ++ 12 ∷ 13 ∷ 14 ∷ replicate 2 15 ++ 16 ∷ replicate 3 18
        ++ 19 ∷ replicate 7 20 ++ 24 ∷ 25 ∷ replicate 2 26 ++ replicate 2 27 ++ 28 ∷ 29 ∷ replicate 7 30 ++ 31 ∷ replicate 2 32 }
    ensures later_taken { map (λ h. length (after_first (took h))) (moments server09.turns) ≡ replicate 5 0 ++ 1 ∷ 2 ∷ 3 ∷ 4 ∷ 5
        ∷ replicate 3 6 ++ 7 ∷ 8 ∷ 9 ∷ replicate 2 10 ++ 11 ∷ replicate 2 12 ++ replicate 4 13 ++ 14 ∷ 15 ∷ replicate 2 16 ++ replicate 3 17
        ++ 18 ∷ 19 ∷ 20 ∷ 21 ∷ 22 ∷ 23 ∷ replicate 3 24 ++ replicate 2 25 ++ replicate 4 26 ++ replicate 2 27 ++ 28 ∷ replicate 2 29
        ++ replicate 2 30 ++ 31 ∷ 32 ∷ [] }
    ensures numbers_sent { map (sending_number Server) (moments server09.turns) ≡ replicate 5 1 ++ 2 ∷ 3 ∷ 4 ∷ replicate 3 5 ++ 6
        ∷ replicate 4 7 ++ replicate 2 8 ++ 9 ∷ replicate 2 10 ++ 0 ∷ 1 ∷ 2 ∷ replicate 2 3 ++ 4 ∷ replicate 3 0 ++ 1 ∷ replicate 8 2 ++ 3
        ∷ replicate 2 4 ++ replicate 2 5 ++ 6 ∷ 7 ∷ replicate 7 8 ++ 9 ∷ replicate 2 10 }
    ensures numbers_taken { map (taking_number Server) (moments server09.turns) ≡ replicate 2 0 ++ 1 ∷ 2 ∷ 0 ∷ 1 ∷ 2 ∷ 3 ∷ 4 ∷ 5
        ∷ replicate 3 6 ++ 7 ∷ 8 ∷ 9 ∷ replicate 2 10 ++ 11 ∷ replicate 2 12 ++ replicate 4 13 ++ 0 ∷ 1 ∷ replicate 2 2 ++ replicate 3 0
        ++ 1 ∷ 2 ∷ 3 ∷ 4 ∷ 5 ∷ 6 ∷ replicate 3 7 ++ replicate 2 0 ++ replicate 4 1 ++ replicate 2 2 ++ 3 ∷ replicate 2 4 ++ replicate 2 5
        ++ 6 ∷ 7 ∷ [] }
    ensures keys_sent { map (sending_key server09.ends Server) (moments server09.turns) ≡ replicate 3 None
        ++ replicate 18 (Some (codes "e1m1")) ++ replicate 6 (Some (codes "e2m2")) ++ replicate 11 (Some (codes "e1m1"))
        ++ replicate 18 (Some (codes "e2m2")) }
    ensures keys_taken { map (taking_key server09.ends Server) (moments server09.turns) ≡ replicate 4 None
        ++ replicate 21 (Some (codes "e1m2")) ++ replicate 4 (Some (codes "e2m1")) ++ replicate 12 (Some (codes "e1m3"))
        ++ replicate 15 (Some (codes "e2m1")) }
    ensures may_take { map (allowed server09.ends Server server09.numbers) (moments server09.turns) ≡ replicate 4 [] ++ replicate 2 (2 ∷ 4
        ∷ 61 ∷ []) ++ (2 ∷ 4 ∷ 50 ∷ 61 ∷ []) ∷ replicate 12 (2 ∷ 4 ∷ 50 ∷ 61 ∷ 82 ∷ 90 ∷ 100 ∷ 101 ∷ []) ++ replicate 6 (2 ∷ 4 ∷ []) ++ (2
        ∷ 4 ∷ 50 ∷ 61 ∷ 82 ∷ 90 ∷ 100 ∷ 101 ∷ []) ∷ replicate 3 (2 ∷ 4 ∷ []) ++ replicate 8 (2 ∷ 4 ∷ 50 ∷ 61 ∷ 82 ∷ 90 ∷ 100 ∷ 101 ∷ [])
        ++ replicate 4 (2 ∷ 4 ∷ []) ++ replicate 13 (2 ∷ 4 ∷ 50 ∷ 61 ∷ 82 ∷ 90 ∷ 100 ∷ 101 ∷ []) ++ replicate 2 (2 ∷ 4 ∷ []) }
    ensures extensions { map (may_take_extensions Server) (moments server09.turns) ≡ replicate 56 false }
    ensures announces { map (announces server09.ends Server) (moments server09.turns) ≡ replicate 2 false ++ true ∷ replicate 53 false }
    ensures requested { map (service_requested Server) (moments server09.turns) ≡ replicate 6 false ++ replicate 50 true }
    ensures accepted { map sent_service_accept (moments server09.turns) ≡ replicate 6 false ++ replicate 50 true }
    ensures authenticated { map (authenticated Server) (moments server09.turns) ≡ replicate 7 false ++ replicate 49 true }
    ensures failures { map failures (moments server09.turns) ≡ replicate 56 0 }
    ensures outstanding { map (λ h. request_number (outstanding h)) (moments server09.turns) ≡ replicate 56 0 }
    ensures refused { map (verdicts server09.ends Server server09.messages) (moments server09.turns) ≡ replicate 2 (replicate 2 9
        ++ replicate 15 7) ++ (replicate 5 7 ++ replicate 2 0 ++ 10 ∷ replicate 9 7) ∷ replicate 17 7 ∷ replicate 2 (replicate 13 7 ++ 0
        ∷ replicate 3 7) ++ (replicate 8 7 ++ replicate 2 0 ++ 15 ∷ replicate 2 7 ++ 0 ∷ replicate 3 7) ∷ replicate 4 (replicate 2 12
        ++ replicate 3 16 ++ replicate 3 7 ++ replicate 4 0 ++ 7 ∷ 0 ∷ replicate 2 7 ++ 16 ∷ []) ++ replicate 5 (replicate 2 12
        ++ replicate 3 0 ++ replicate 3 7 ++ replicate 4 0 ++ 7 ∷ 0 ∷ replicate 2 7 ++ 0 ∷ []) ++ (replicate 2 12 ++ replicate 3 16
        ++ replicate 3 7 ++ replicate 4 0 ++ 7 ∷ 0 ∷ replicate 2 7 ++ 16 ∷ []) ∷ replicate 2 (replicate 2 0 ++ replicate 3 16
        ++ replicate 3 7 ++ replicate 4 0 ++ 7 ∷ 0 ∷ replicate 2 7 ++ 16 ∷ []) ++ replicate 2 (replicate 5 7 ++ replicate 2 0 ++ 10
        ∷ replicate 5 7 ++ 0 ∷ replicate 3 7) ++ replicate 4 (replicate 13 7 ++ 0 ∷ replicate 3 7) ++ (replicate 2 0 ++ replicate 3 16
        ++ replicate 3 7 ++ replicate 4 0 ++ 7 ∷ replicate 3 0 ++ 16 ∷ []) ∷ (replicate 5 7 ++ 10 ∷ 0 ∷ 10 ∷ replicate 5 7 ++ 0
        ∷ replicate 3 7) ∷ replicate 2 (replicate 13 7 ++ 0 ∷ replicate 3 7) ++ replicate 6 (replicate 2 0 ++ replicate 3 16
        ++ replicate 3 7 ++ replicate 4 0 ++ 7 ∷ replicate 3 0 ++ 16 ∷ []) ++ (replicate 5 0 ++ replicate 3 7 ++ replicate 4 0 ++ 7
        ∷ replicate 4 0) ∷ (replicate 2 0 ++ replicate 3 16 ++ replicate 3 7 ++ replicate 4 0 ++ 7 ∷ replicate 3 0 ++ 16 ∷ [])
        ∷ (replicate 5 7 ++ replicate 2 0 ++ 10 ∷ replicate 5 7 ++ 0 ∷ replicate 3 7) ∷ replicate 3 (replicate 13 7 ++ 0 ∷ replicate 3 7)
        ++ replicate 6 (replicate 2 12 ++ replicate 3 16 ++ replicate 3 7 ++ replicate 4 0 ++ 7 ∷ replicate 3 0 ++ 16 ∷ [])
        ++ (replicate 2 12 ++ replicate 3 0 ++ replicate 3 7 ++ replicate 4 0 ++ 7 ∷ replicate 4 0) ∷ replicate 6 (replicate 5 0
        ++ replicate 3 7 ++ replicate 4 0 ++ 7 ∷ replicate 4 0) ++ replicate 2 (replicate 5 7 ++ replicate 2 0 ++ 10 ∷ replicate 5 7 ++ 0
        ∷ replicate 3 7) }
    ensures asks_refused { map (ask_verdicts server09.ends Server server09.asks) (moments server09.turns) ≡ replicate 7 (replicate 7 1 ++ 11
        ∷ 1 ∷ []) ++ replicate 4 (replicate 4 3 ++ 0 ∷ replicate 2 3 ++ 11 ∷ 8 ∷ []) ++ replicate 5 (3 ∷ 0 ∷ 3 ∷ replicate 2 0 ++ 3 ∷ 0 ∷ 11
        ∷ 8 ∷ []) ++ replicate 2 (replicate 4 3 ++ 0 ∷ replicate 2 3 ++ 11 ∷ 8 ∷ []) ++ (replicate 7 9 ++ 11 ∷ 9 ∷ [])
        ∷ replicate 2 (replicate 7 2 ++ 11 ∷ 2 ∷ []) ++ replicate 5 (replicate 4 3 ++ 0 ∷ replicate 2 3 ++ 11 ∷ 8 ∷ []) ++ (replicate 7 2
        ++ 11 ∷ 2 ∷ []) ∷ replicate 4 (replicate 4 3 ++ 0 ∷ replicate 2 3 ++ 11 ∷ 8 ∷ []) ++ replicate 7 (replicate 7 2 ++ 11 ∷ 2 ∷ [])
        ++ (replicate 4 3 ++ replicate 2 0 ++ 3 ∷ 11 ∷ 8 ∷ []) ∷ replicate 8 (replicate 4 3 ++ 0 ∷ replicate 2 3 ++ 11 ∷ 8 ∷ [])
        ++ replicate 6 (3 ∷ 0 ∷ 3 ∷ replicate 2 0 ++ 3 ∷ 0 ∷ 11 ∷ 8 ∷ []) ++ (replicate 7 9 ++ 11 ∷ 9 ∷ []) ∷ replicate 2 (replicate 7 2
        ++ 11 ∷ 2 ∷ []) }
    ensures channel_0 { map (channel_state Server 0) (moments server09.turns) ≡ replicate 9 [] ++ replicate 2 (2 ∷ 5 ∷ 6 ∷ 7 ∷ []) ++ (3 ∷ 5
        ∷ 6 ∷ 10 ∷ 8 ∷ 7 ∷ replicate 5 0) ∷ (3 ∷ 4 ∷ 6 ∷ 10 ∷ 8 ∷ 7 ∷ replicate 5 0) ∷ (3 ∷ 4 ∷ 6 ∷ 10 ∷ 8 ∷ 7 ∷ replicate 3 0 ++ 1 ∷ 0
        ∷ []) ∷ (3 ∷ 4 ∷ 6 ∷ 4 ∷ 8 ∷ 7 ∷ replicate 3 0 ++ 1 ∷ 0 ∷ []) ∷ (3 ∷ 5 ∷ 6 ∷ 4 ∷ 8 ∷ 7 ∷ replicate 3 0 ++ 1 ∷ 0 ∷ [])
        ∷ replicate 14 [] ++ replicate 5 (1 ∷ 7 ∷ 4 ∷ []) ++ (3 ∷ replicate 2 8 ++ 7 ∷ 4 ∷ 8 ∷ replicate 5 0) ∷ replicate 2 (4 ∷ [])
        ++ replicate 4 [] ++ replicate 5 (1 ∷ 10 ∷ 8 ∷ []) ++ replicate 6 (3 ∷ 10 ∷ 8 ∷ 10 ∷ 8 ∷ replicate 6 0) ++ replicate 3 (3 ∷ 10 ∷ 8
        ∷ 10 ∷ 8 ∷ 0 ∷ replicate 2 1 ++ replicate 3 0) }
    ensures channel_1 { map (channel_state Server 1) (moments server09.turns) ≡ replicate 22 [] ++ replicate 11 (1 ∷ 8 ∷ 32768 ∷ []) ++ (3
        ∷ 7 ∷ 6 ∷ 8 ∷ 32768 ∷ 6 ∷ replicate 5 0) ∷ replicate 4 (4 ∷ []) ++ replicate 5 [] ++ replicate 13 (2 ∷ 9 ∷ 7 ∷ 0 ∷ []) }
    ensures channel_2 { map (channel_state Server 2) (moments server09.turns) ≡ replicate 56 [] }
    ensures held { map (held Server (numbers_from 0 3)) (moments server09.turns) ≡ replicate 9 (replicate 3 false) ++ replicate 7 (true
        ∷ replicate 2 false) ++ replicate 6 (replicate 3 false) ++ replicate 8 (false ∷ true ∷ false ∷ []) ++ replicate 8 (replicate 2 true
        ++ false ∷ []) ++ replicate 4 (replicate 3 false) ++ (true ∷ replicate 2 false) ∷ replicate 13 (replicate 2 true ++ false ∷ []) }
    ensures replies { map (replies Server (numbers_from 0 3)) (moments server09.turns) ≡ replicate 11 (replicate 3 []) ++ replicate 5 (((0
        ∷ 7 ∷ []) ∷ []) ∷ replicate 2 []) ++ replicate 31 (replicate 3 []) ++ replicate 6 ((replicate 2 0 ∷ []) ∷ replicate 2 [])
        ++ replicate 3 (replicate 3 []) }
    ensures owed { map (owed_closes Server) (moments server09.turns) ≡ replicate 34 [] ++ replicate 2 ((1 ∷ 6 ∷ []) ∷ []) ++ replicate 2 ((0
        ∷ 8 ∷ []) ∷ (1 ∷ 6 ∷ []) ∷ []) ++ replicate 18 [] }
    ensures globals { map waiting_globals (moments server09.turns) ≡ replicate 23 (replicate 2 0) ++ replicate 22 (0 ∷ 1 ∷ [])
        ++ replicate 5 (0 ∷ 2 ∷ []) ++ replicate 6 (0 ∷ 1 ∷ []) }
    ensures all_numbers_29 { allowed server09.ends Server (numbers_from 0 256) (whole (take 29 server09.turns)) ≡ numbers_from 0 5
        ++ numbers_from 8 12 ++ numbers_from 21 9 }
    ensures all_numbers_56 { allowed server09.ends Server (numbers_from 0 256) (whole (take 56 server09.turns)) ≡ numbers_from 0 5
        ++ numbers_from 8 12 ++ numbers_from 22 9 }
    ensures first_offer { offer server09.ends Server true [] ≡ proposing (codes "k3" ∷ codes "k1" ∷ codes "k2"
        ∷ codes "kex-strict-s-v00@openssh.com" ∷ []) (codes "h3" ∷ codes "h2" ∷ codes "h1" ∷ []) (codes "e2" ∷ codes "e1" ∷ []) (codes "e2"
        ∷ codes "e1" ∷ []) (codes "m2" ∷ codes "m1" ∷ codes "m3" ∷ []) (codes "m2" ∷ codes "m1" ∷ codes "m3" ∷ []) }
    ensures later_offer { offer server09.ends Server false [] ≡ proposing (codes "k3" ∷ codes "k1" ∷ codes "k2" ∷ []) (codes "h3"
        ∷ codes "h2" ∷ codes "h1" ∷ []) (codes "e2" ∷ codes "e1" ∷ []) (codes "e2" ∷ codes "e1" ∷ []) (codes "m2" ∷ codes "m1" ∷ codes "m3"
        ∷ []) (codes "m2" ∷ codes "m1" ∷ codes "m3" ∷ []) }
    ensures texts { map exchange_text (exchanges server09.ends Server (whole server09.turns)) ≡ server09.text_3 ∷ server09.text_2
        ∷ server09.text_1 ∷ server09.text_0 ∷ [] }
    ensures algorithms { map names_of (choices Server (whole server09.turns)) ≡ (codes "k3" ∷ codes "h1" ∷ replicate 2 (codes "e2")
        ++ codes "m1" ∷ codes "m2" ∷ replicate 2 (codes "none")) ∷ (codes "k2" ∷ codes "h3" ∷ replicate 2 (codes "e1") ++ codes "m3"
        ∷ codes "m1" ∷ replicate 2 (codes "none")) ∷ (codes "k2" ∷ codes "h3" ∷ replicate 2 (codes "e2") ++ codes "m1" ∷ codes "m2"
        ∷ replicate 2 (codes "none")) ∷ (codes "k1" ∷ codes "h2" ∷ replicate 2 (codes "e1") ++ codes "m2" ∷ codes "m1"
        ∷ replicate 2 (codes "none")) ∷ [] }
    ensures session { session_id (exchanges server09.ends Server (whole server09.turns)) ≡ sha256 server09.text_0 }
    ensures sending_key { sending_name server09.ends Server (whole server09.turns)
        ≡ named Server (sha256 server09.text_3) (sha256 server09.text_0) }
    ensures taking_key { taking_name server09.ends Server (whole server09.turns)
        ≡ named Client (sha256 server09.text_3) (sha256 server09.text_0) }
{}
