//! Drawn sessions and their tables, written by tools/second_reading.

ghost use Rattle.std.specs.Prelude.{map, ◌≡◌, replicate, ◌++◌, ◌∷◌, true, false, [], length, None, Some, codes, take};
ghost use Rattle.ssh_model.specs.Protocol.Sessions.Phases.{phase, Phase.Start, Phase.Guessed, Phase.Exchanging, Phase.Keying};
ghost use Rattle.ssh_model.specs.Protocol.Sessions.Phases.{Phase.Normal, blocked, other_lines, may_take_extensions};
ghost use Rattle.ssh_model.specs.Protocol.Sessions.Phases.{service_requested, sent_service_accept, authenticated, failures};
ghost use Rattle.ssh_model.specs.Protocol.Sessions.Phases.{outstanding, took_service_accept};
ghost use Rattle.ssh_model.specs.declared.side.Side.TheVariants.{Server, Client};
ghost use Rattle.test_histories.specs.Words.{moments, allowed, request_number, verdicts, ask_verdicts, channel_state, held};
ghost use Rattle.test_histories.specs.Words.{numbers_from, replies, owed_closes, waiting_globals, whole, proposing, names_of};
ghost use Rattle.test_histories.specs.Words.{named};
ghost use Rattle.ssh_model.specs.Protocol.Sessions.Items.{has_died, sent, took};
ghost use Rattle.ssh_model.specs.Protocol.Sessions.Turns.{can_feed};
ghost use Rattle.ssh_model.specs.Protocol.Sessions.Transport.{point_now, next_cookie, announces};
ghost use Rattle.ssh_model.specs.Protocol.KeyExchange.Exchanges.{is_strict, sending_number, taking_number, sending_key};
ghost use Rattle.ssh_model.specs.Protocol.KeyExchange.Exchanges.{taking_key, exchanges, choices, session_id, sending_name};
ghost use Rattle.ssh_model.specs.Protocol.KeyExchange.Exchanges.{taking_name};
ghost use Rattle.ssh_model.specs.Protocol.Sessions.Epochs.{epoch, count, after_first};
ghost use Rattle.ssh_model.specs.Protocol.Sessions.Parties.{offer};
ghost use Rattle.ssh_model.specs.Protocol.KeyExchange.Exchange.{exchange_text};
ghost use Rattle.sha2.specs.Sha256.{sha256};
ghost use Rattle.test_histories.specs.Drawn.Server05 as server05;
ghost use Rattle.test_histories.specs.Drawn.Client06 as client06;
ghost use Rattle.test_histories.specs.Drawn.Server06 as server06;

/// Server05: values after each of 56 turns.
#[tactic(auto, unfolding(ssh_model::specs::Protocol::Channels::History::has_place, ssh_model::specs::Protocol::Channels::History::some_free, ssh_model::specs::Protocol::KeyExchange::Choice::methods, ssh_model::specs::Protocol::KeyExchange::Exchange::string_of))]
pub fn server05()
    ensures phases { map (phase server05.ends Server) (moments server05.turns) ≡ replicate 2 Start ++ Guessed ∷ Exchanging ∷ Keying
        ∷ replicate 12 Normal ++ Exchanging ∷ replicate 4 Keying ++ replicate 13 Normal ++ Guessed ∷ Exchanging ∷ Keying
        ∷ replicate 18 Normal }
    ensures blocked { map blocked (moments server05.turns) ≡ replicate 4 true ++ replicate 11 false ++ replicate 3 true
        ++ replicate 17 false ++ replicate 2 true ++ replicate 19 false }
    ensures died { map has_died (moments server05.turns) ≡ replicate 56 false }
    ensures can_feed { map can_feed (moments server05.turns) ≡ replicate 13 true ++ replicate 2 false ++ replicate 12 true
        ++ replicate 8 false ++ replicate 19 true ++ replicate 2 false }
    ensures points { map (point_now server05.ends Server) (moments server05.turns) ≡ replicate 4 (replicate 32 234) ++ replicate 9 []
        ++ replicate 5 (replicate 32 156) ++ replicate 9 [] ++ replicate 10 (replicate 32 145) ++ replicate 17 []
        ++ replicate 2 (replicate 32 56) }
    ensures cookies { map next_cookie (moments server05.turns) ≡ replicate 13 [] ++ replicate 2 (replicate 16 104) ++ replicate 12 []
        ++ replicate 8 (replicate 16 242) ++ replicate 19 [] ++ replicate 2 (replicate 16 26) }
    ensures other_lines { map other_lines (moments server05.turns) ≡ replicate 56 0 }
    ensures strict { map (is_strict Server) (moments server05.turns) ≡ replicate 2 false ++ replicate 54 true }
    ensures epochs_sent { map (λ h. epoch (sent h)) (moments server05.turns) ≡ replicate 4 0 ++ replicate 14 1 ++ replicate 19 2
        ++ replicate 19 3 }
    ensures epochs_taken { map (λ h. epoch (took h)) (moments server05.turns) ≡ replicate 5 0 ++ replicate 17 1 ++ replicate 16 2
        ++ replicate 18 3 }
    ensures counts_sent { map (λ h. count (sent h)) (moments server05.turns) ≡ replicate 4 1 ++ replicate 2 0 ++ 1 ∷ replicate 3 2
        ++ replicate 5 3 ++ replicate 3 4 ++ 0 ∷ 1 ∷ 2 ∷ replicate 3 3 ++ replicate 4 4 ++ replicate 3 5 ++ replicate 2 6 ++ replicate 2 7
        ++ replicate 2 8 ++ replicate 2 0 ++ 1 ∷ 2 ∷ replicate 2 3 ++ replicate 3 4 ++ replicate 2 5 ++ replicate 3 6 ++ 7 ∷ 8
        ∷ replicate 3 9 }
    ensures counts_taken { map (λ h. count (took h)) (moments server05.turns) ≡ replicate 2 0 ++ 1 ∷ 2 ∷ 3 ∷ 0 ∷ 1 ∷ 2 ∷ 3 ∷ 4 ∷ 5 ∷ 6
        ∷ replicate 2 7 ++ replicate 2 8 ++ 9 ∷ 10 ∷ replicate 4 11 ++ 0 ∷ 1 ∷ 2 ∷ 3 ∷ replicate 6 4 ++ replicate 2 5 ++ 6 ∷ 7 ∷ 8 ∷ 9
        ∷ replicate 4 0 ++ replicate 2 1 ++ 2 ∷ replicate 2 3 ++ 4 ∷ replicate 2 5 ++ replicate 6 6 }
    ensures later_sent { map (λ h. length (after_first (sent h))) (moments server05.turns) ≡ replicate 6 0 ++ 1 ∷ replicate 3 2
        ++ replicate 5 3 ++ replicate 3 4 ++ 6 ∷ 7 ∷ 8 ∷ replicate 3 9 ++ replicate 4 10 ++ replicate 3 11 ++ replicate 2 12
        ++ replicate 2 13 ++ replicate 2 14 ++ replicate 2 16 ++ 17 ∷ 18 ∷ replicate 2 19 ++ replicate 3 20 ++ replicate 2 21
        ++ replicate 3 22 ++ 23 ∷ 24 ∷ replicate 3 25 }
    ensures later_taken { map (λ h. length (after_first (took h))) (moments server05.turns) ≡ replicate 6 0 ++ 1 ∷ 2 ∷ 3 ∷ 4 ∷ 5 ∷ 6
        ∷ replicate 2 7 ++ replicate 2 8 ++ 9 ∷ 10 ∷ replicate 4 11 ++ 12 ∷ 13 ∷ 14 ∷ 15 ∷ replicate 6 16 ++ replicate 2 17 ++ 18 ∷ 19 ∷ 20
        ∷ 21 ∷ replicate 4 22 ++ replicate 2 23 ++ 24 ∷ replicate 2 25 ++ 26 ∷ replicate 2 27 ++ replicate 6 28 }
    ensures numbers_sent { map (sending_number Server) (moments server05.turns) ≡ replicate 4 1 ++ replicate 2 0 ++ 1 ∷ replicate 3 2
        ++ replicate 5 3 ++ replicate 3 4 ++ 0 ∷ 1 ∷ 2 ∷ replicate 3 3 ++ replicate 4 4 ++ replicate 3 5 ++ replicate 2 6 ++ replicate 2 7
        ++ replicate 2 8 ++ replicate 2 0 ++ 1 ∷ 2 ∷ replicate 2 3 ++ replicate 3 4 ++ replicate 2 5 ++ replicate 3 6 ++ 7 ∷ 8
        ∷ replicate 3 9 }
    ensures numbers_taken { map (taking_number Server) (moments server05.turns) ≡ replicate 2 0 ++ 1 ∷ 2 ∷ 3 ∷ 0 ∷ 1 ∷ 2 ∷ 3 ∷ 4 ∷ 5 ∷ 6
        ∷ replicate 2 7 ++ replicate 2 8 ++ 9 ∷ 10 ∷ replicate 4 11 ++ 0 ∷ 1 ∷ 2 ∷ 3 ∷ replicate 6 4 ++ replicate 2 5 ++ 6 ∷ 7 ∷ 8 ∷ 9
        ∷ replicate 4 0 ++ replicate 2 1 ++ 2 ∷ replicate 2 3 ++ 4 ∷ replicate 2 5 ++ replicate 6 6 }
    ensures keys_sent { map (sending_key server05.ends Server) (moments server05.turns) ≡ replicate 4 None
        ++ replicate 14 (Some (codes "e1m2")) ++ replicate 19 (Some (codes "e2m3")) ++ replicate 19 (Some (codes "e1m2")) }
    ensures keys_taken { map (taking_key server05.ends Server) (moments server05.turns) ≡ replicate 5 None
        ++ replicate 17 (Some (codes "e2m2")) ++ replicate 16 (Some (codes "e1m2")) ++ replicate 18 (Some (codes "e2m2")) }
    ensures may_take { map (allowed server05.ends Server server05.numbers) (moments server05.turns) ≡ replicate 2 (1 ∷ 20 ∷ []) ++ []
        ∷ replicate 2 (1 ∷ []) ++ (0 ∷ 1 ∷ 2 ∷ 7 ∷ 22 ∷ 29 ∷ 61 ∷ []) ∷ replicate 4 (0 ∷ 1 ∷ 2 ∷ 22 ∷ 29 ∷ 50 ∷ 61 ∷ []) ++ replicate 7 (0
        ∷ 1 ∷ 2 ∷ 20 ∷ 22 ∷ 29 ∷ 50 ∷ 61 ∷ 80 ∷ 83 ∷ 90 ∷ []) ++ replicate 5 (0 ∷ 1 ∷ 2 ∷ 22 ∷ 29 ∷ []) ++ replicate 13 (0 ∷ 1 ∷ 2 ∷ 20 ∷ 22
        ∷ 29 ∷ 50 ∷ 61 ∷ 80 ∷ 83 ∷ 90 ∷ []) ++ [] ∷ replicate 2 (0 ∷ 1 ∷ 2 ∷ 22 ∷ 29 ∷ []) ++ replicate 18 (0 ∷ 1 ∷ 2 ∷ 20 ∷ 22 ∷ 29 ∷ 50
        ∷ 61 ∷ 80 ∷ 83 ∷ 90 ∷ []) }
    ensures extensions { map (may_take_extensions Server) (moments server05.turns) ≡ replicate 5 false ++ true ∷ replicate 50 false }
    ensures announces { map (announces server05.ends Server) (moments server05.turns) ≡ replicate 56 false }
    ensures requested { map (service_requested Server) (moments server05.turns) ≡ replicate 6 false ++ replicate 50 true }
    ensures accepted { map sent_service_accept (moments server05.turns) ≡ replicate 6 false ++ replicate 50 true }
    ensures authenticated { map (authenticated Server) (moments server05.turns) ≡ replicate 10 false ++ replicate 46 true }
    ensures failures { map failures (moments server05.turns) ≡ replicate 7 0 ++ replicate 49 1 }
    ensures outstanding { map (λ h. request_number (outstanding h)) (moments server05.turns) ≡ replicate 56 0 }
    ensures refused { map (verdicts server05.ends Server server05.messages) (moments server05.turns) ≡ replicate 2 (replicate 2 9
        ++ replicate 9 7 ++ 0 ∷ replicate 5 7) ++ (replicate 5 7 ++ replicate 3 0 ++ replicate 9 7) ∷ (replicate 5 7 ++ 0 ∷ 10 ∷ 0
        ∷ replicate 3 7 ++ 0 ∷ replicate 5 7) ∷ (replicate 11 7 ++ 0 ∷ replicate 5 7) ∷ (replicate 11 7 ++ 0 ∷ replicate 2 7 ++ 0
        ∷ replicate 2 7) ∷ (replicate 8 7 ++ replicate 4 0 ++ replicate 2 7 ++ 0 ∷ replicate 2 7) ∷ replicate 3 (replicate 8 7 ++ 0
        ∷ replicate 2 15 ++ 0 ∷ replicate 2 7 ++ 0 ∷ replicate 2 7) ++ replicate 2 (replicate 2 12 ++ replicate 3 16 ++ replicate 3 7
        ++ replicate 5 0 ++ 7 ∷ 0 ∷ 16 ∷ 7 ∷ []) ++ (replicate 2 12 ++ replicate 3 16 ++ replicate 3 7 ++ replicate 5 0 ++ 7 ∷ 0
        ∷ replicate 2 7) ∷ replicate 4 (replicate 2 0 ++ replicate 3 16 ++ replicate 3 7 ++ replicate 5 0 ++ 7 ∷ 0 ∷ replicate 2 7)
        ++ (replicate 5 7 ++ 0 ∷ 10 ∷ 0 ∷ replicate 3 7 ++ 0 ∷ replicate 2 7 ++ 0 ∷ replicate 2 7) ∷ replicate 4 (replicate 11 7 ++ 0
        ∷ replicate 2 7 ++ 0 ∷ replicate 2 7) ++ replicate 2 (replicate 2 12 ++ replicate 2 16 ++ 0 ∷ replicate 3 7 ++ replicate 5 0 ++ 7
        ∷ 0 ∷ replicate 2 7) ++ replicate 3 (replicate 2 12 ++ replicate 3 16 ++ replicate 3 7 ++ replicate 5 0 ++ 7 ∷ 0 ∷ 16 ∷ 7 ∷ [])
        ++ replicate 8 (replicate 2 0 ++ replicate 3 16 ++ replicate 3 7 ++ replicate 5 0 ++ 7 ∷ 0 ∷ 16 ∷ 7 ∷ []) ++ (replicate 5 7
        ++ replicate 3 0 ++ replicate 9 7) ∷ (replicate 5 7 ++ 0 ∷ 10 ∷ 0 ∷ replicate 3 7 ++ 0 ∷ replicate 2 7 ++ 0 ∷ replicate 2 7)
        ∷ (replicate 11 7 ++ 0 ∷ replicate 2 7 ++ 0 ∷ replicate 2 7) ∷ replicate 2 (replicate 2 12 ++ replicate 3 16 ++ replicate 3 7
        ++ replicate 5 0 ++ 7 ∷ 0 ∷ 16 ∷ 7 ∷ []) ++ replicate 8 (replicate 2 12 ++ 17 ∷ 0 ∷ 16 ∷ replicate 3 7 ++ replicate 5 0 ++ 7 ∷ 0
        ∷ 16 ∷ 7 ∷ []) ++ replicate 5 (replicate 2 12 ++ replicate 3 16 ++ replicate 3 7 ++ replicate 5 0 ++ 7 ∷ 0 ∷ 16 ∷ 7 ∷ [])
        ++ (replicate 2 12 ++ replicate 3 16 ++ replicate 3 7 ++ replicate 7 0 ++ 16 ∷ 7 ∷ []) ∷ replicate 2 (replicate 2 0
        ++ replicate 3 16 ++ replicate 3 7 ++ replicate 7 0 ++ 16 ∷ 7 ∷ []) }
    ensures asks_refused { map (ask_verdicts server05.ends Server server05.asks) (moments server05.turns) ≡ replicate 10 (replicate 7 1
        ++ 11 ∷ 1 ∷ []) ++ (replicate 3 3 ++ 0 ∷ 3 ∷ 0 ∷ 3 ∷ 11 ∷ 12 ∷ []) ∷ replicate 2 (replicate 2 3 ++ replicate 2 0 ++ 3 ∷ 0 ∷ 3 ∷ 11
        ∷ 12 ∷ []) ++ replicate 2 (replicate 2 3 ++ replicate 2 0 ++ 3 ∷ 0 ∷ 3 ∷ 11 ∷ 0 ∷ []) ++ replicate 3 (replicate 7 2 ++ 11 ∷ 2 ∷ [])
        ++ replicate 4 (replicate 2 3 ++ replicate 2 0 ++ 3 ∷ 0 ∷ 3 ∷ 11 ∷ 2 ∷ []) ++ replicate 5 (replicate 2 3 ++ replicate 2 0 ++ 3 ∷ 0
        ∷ 3 ∷ 11 ∷ 12 ∷ []) ++ (replicate 2 3 ++ replicate 2 0 ++ 3 ∷ 0 ∷ 3 ∷ 11 ∷ 0 ∷ []) ∷ replicate 5 (3 ∷ replicate 3 0 ++ 3 ∷ 0 ∷ 3
        ∷ 11 ∷ 0 ∷ []) ++ replicate 2 (3 ∷ 6 ∷ replicate 2 0 ++ 3 ∷ 0 ∷ 3 ∷ 11 ∷ 0 ∷ []) ++ replicate 2 (replicate 7 2 ++ 11 ∷ 2 ∷ []) ++ (3
        ∷ 6 ∷ replicate 2 0 ++ 3 ∷ 0 ∷ 3 ∷ 11 ∷ 2 ∷ []) ∷ replicate 2 (3 ∷ 6 ∷ replicate 2 0 ++ 3 ∷ 0 ∷ 3 ∷ 11 ∷ 12 ∷ []) ++ replicate 4 (0
        ∷ 6 ∷ 3 ∷ 0 ∷ 10 ∷ replicate 2 0 ++ 11 ∷ 12 ∷ []) ++ replicate 2 (0 ∷ replicate 2 3 ++ 0 ∷ 10 ∷ replicate 2 0 ++ 11 ∷ 12 ∷ []) ++ (4
        ∷ replicate 2 3 ++ 0 ∷ 10 ∷ replicate 2 0 ++ 11 ∷ 12 ∷ []) ∷ (0 ∷ replicate 2 3 ++ 0 ∷ 10 ∷ replicate 2 0 ++ 11 ∷ 12 ∷ [])
        ∷ replicate 2 (replicate 3 3 ++ 0 ∷ 3 ∷ 0 ∷ 3 ∷ 11 ∷ 12 ∷ []) ++ replicate 4 (replicate 2 3 ++ replicate 2 0 ++ 3 ∷ 0 ∷ 3 ∷ 11 ∷ 12
        ∷ []) ++ replicate 2 (replicate 2 3 ++ replicate 2 0 ++ 3 ∷ 0 ∷ 3 ∷ 11 ∷ 0 ∷ []) }
    ensures channel_0 { map (channel_state Server 0) (moments server05.turns) ≡ replicate 11 [] ++ replicate 29 (2 ∷ replicate 2 5 ++ 1
        ∷ []) ++ (3 ∷ replicate 2 5 ++ replicate 2 4 ++ 1 ∷ replicate 5 0) ∷ replicate 2 (3 ∷ replicate 2 5 ++ replicate 2 4 ++ 1
        ∷ replicate 4 0 ++ 1 ∷ []) ++ replicate 2 (3 ∷ 4 ∷ 5 ∷ replicate 2 4 ++ 1 ∷ replicate 4 0 ++ 1 ∷ []) ++ (3 ∷ 4 ∷ 5 ∷ 3 ∷ 4 ∷ 1
        ∷ replicate 4 0 ++ 1 ∷ []) ∷ (3 ∷ 0 ∷ 5 ∷ 3 ∷ 4 ∷ 1 ∷ replicate 4 0 ++ 1 ∷ []) ∷ (3 ∷ 7 ∷ 5 ∷ 3 ∷ 4 ∷ 1 ∷ replicate 4 0 ++ 1 ∷ [])
        ∷ replicate 2 [] ++ replicate 6 (2 ∷ 6 ∷ 4 ∷ 1 ∷ []) }
    ensures channel_1 { map (channel_state Server 1) (moments server05.turns) ≡ replicate 12 [] ++ replicate 7 (2 ∷ 5 ∷ 6 ∷ 5 ∷ []) ++ (3
        ∷ 5 ∷ 6 ∷ 10 ∷ 6 ∷ 5 ∷ replicate 5 0) ∷ (3 ∷ 1 ∷ 6 ∷ 10 ∷ 6 ∷ 5 ∷ replicate 5 0) ∷ replicate 2 (3 ∷ 0 ∷ 6 ∷ 10 ∷ 6 ∷ 5
        ∷ replicate 5 0) ++ (3 ∷ 0 ∷ 6 ∷ 10 ∷ 6 ∷ 5 ∷ replicate 3 0 ++ 1 ∷ 0 ∷ []) ∷ replicate 32 [] }
    ensures channel_2 { map (channel_state Server 2) (moments server05.turns) ≡ replicate 26 [] ++ replicate 2 (2 ∷ replicate 2 4 ++ 9 ∷ [])
        ++ replicate 3 (3 ∷ replicate 2 4 ++ 8 ∷ 4 ∷ 9 ∷ replicate 5 0) ++ (3 ∷ replicate 2 4 ++ 8 ∷ 4 ∷ 9 ∷ replicate 4 0 ++ 1 ∷ []) ∷ (3
        ∷ replicate 4 4 ++ 9 ∷ replicate 4 0 ++ 1 ∷ []) ∷ (3 ∷ replicate 4 4 ++ 9 ∷ 1 ∷ replicate 3 0 ++ 1 ∷ []) ∷ replicate 5 (3
        ∷ replicate 2 4 ++ 3 ∷ 4 ∷ 9 ∷ 1 ∷ replicate 3 0 ++ 1 ∷ []) ++ replicate 5 (3 ∷ replicate 2 4 ++ 3 ∷ 4 ∷ 9 ∷ replicate 2 1
        ++ replicate 2 0 ++ 1 ∷ []) ++ replicate 7 [] ++ replicate 5 (1 ∷ 10 ∷ 6 ∷ []) }
    ensures held { map (held Server (numbers_from 0 3)) (moments server05.turns) ≡ replicate 11 (replicate 3 false) ++ (true
        ∷ replicate 2 false) ∷ replicate 12 (replicate 2 true ++ false ∷ []) ++ replicate 2 (true ∷ replicate 2 false) ++ replicate 18 (true
        ∷ false ∷ true ∷ []) ++ replicate 4 (true ∷ replicate 2 false) ++ replicate 2 (replicate 3 false) ++ (true ∷ replicate 2 false)
        ∷ replicate 5 (true ∷ false ∷ true ∷ []) }
    ensures replies { map (replies Server (numbers_from 0 3)) (moments server05.turns) ≡ replicate 19 (replicate 3 []) ++ replicate 5 ([]
        ∷ ((1 ∷ 5 ∷ []) ∷ []) ∷ [] ∷ []) ++ replicate 4 (replicate 3 []) ++ replicate 7 (replicate 2 [] ++ ((2 ∷ 9 ∷ []) ∷ []) ∷ [])
        ++ replicate 2 (replicate 3 []) ++ replicate 2 (replicate 2 [] ++ ((2 ∷ 9 ∷ []) ∷ []) ∷ []) ++ replicate 3 [] ∷ replicate 8 (((0 ∷ 1
        ∷ []) ∷ []) ∷ replicate 2 []) ++ replicate 8 (replicate 3 []) }
    ensures owed { map (owed_closes Server) (moments server05.turns) ≡ replicate 56 [] }
    ensures globals { map waiting_globals (moments server05.turns) ≡ replicate 53 (replicate 2 0) ++ replicate 3 (0 ∷ 1 ∷ []) }
    ensures all_numbers_24 { allowed server05.ends Server (numbers_from 0 256) (whole (take 24 server05.turns)) ≡ numbers_from 0 5
        ++ numbers_from 8 13 ++ numbers_from 22 8 ++ numbers_from 32 19 ++ numbers_from 54 6 ++ numbers_from 61 195 }
    ensures all_numbers_56 { allowed server05.ends Server (numbers_from 0 256) (whole (take 56 server05.turns)) ≡ numbers_from 0 5
        ++ numbers_from 8 13 ++ numbers_from 22 8 ++ numbers_from 32 19 ++ numbers_from 54 6 ++ numbers_from 61 195 }
    ensures first_offer { offer server05.ends Server true [] ≡ proposing (codes "k2" ∷ codes "ext-info-s"
        ∷ codes "kex-strict-s-v00@openssh.com" ∷ []) (codes "h2" ∷ codes "h3" ∷ []) (codes "e1" ∷ codes "e2" ∷ []) (codes "e1" ∷ codes "e2"
        ∷ []) (codes "m3" ∷ codes "m2" ∷ []) (codes "m3" ∷ codes "m2" ∷ []) }
    ensures later_offer { offer server05.ends Server false [] ≡ proposing (codes "k2" ∷ []) (codes "h2" ∷ codes "h3" ∷ []) (codes "e1"
        ∷ codes "e2" ∷ []) (codes "e1" ∷ codes "e2" ∷ []) (codes "m3" ∷ codes "m2" ∷ []) (codes "m3" ∷ codes "m2" ∷ []) }
    ensures texts { map exchange_text (exchanges server05.ends Server (whole server05.turns)) ≡ server05.text_2 ∷ server05.text_1
        ∷ server05.text_0 ∷ [] }
    ensures algorithms { map names_of (choices Server (whole server05.turns)) ≡ (codes "k2" ∷ codes "h3" ∷ codes "e2" ∷ codes "e1"
        ∷ replicate 2 (codes "m2") ++ replicate 2 (codes "none")) ∷ (codes "k2" ∷ codes "h2" ∷ codes "e1" ∷ codes "e2" ∷ codes "m2"
        ∷ codes "m3" ∷ replicate 2 (codes "none")) ∷ (codes "k2" ∷ codes "h3" ∷ codes "e2" ∷ codes "e1" ∷ replicate 2 (codes "m2")
        ++ replicate 2 (codes "none")) ∷ [] }
    ensures session { session_id (exchanges server05.ends Server (whole server05.turns)) ≡ sha256 server05.text_0 }
    ensures sending_key { sending_name server05.ends Server (whole server05.turns)
        ≡ named Server (sha256 server05.text_2) (sha256 server05.text_0) }
    ensures taking_key { taking_name server05.ends Server (whole server05.turns)
        ≡ named Client (sha256 server05.text_2) (sha256 server05.text_0) }
{}

/// Client06: values after each of 5 turns.
#[tactic(auto, unfolding(ssh_model::specs::Protocol::Channels::History::has_place, ssh_model::specs::Protocol::Channels::History::some_free, ssh_model::specs::Protocol::KeyExchange::Choice::methods, ssh_model::specs::Protocol::KeyExchange::Exchange::string_of))]
pub fn client06()
    ensures phases { map (phase client06.ends Client) (moments client06.turns) ≡ replicate 2 Start ++ replicate 3 Exchanging }
    ensures blocked { map blocked (moments client06.turns) ≡ replicate 5 true }
    ensures died { map has_died (moments client06.turns) ≡ replicate 4 false ++ true ∷ [] }
    ensures can_feed { map can_feed (moments client06.turns) ≡ replicate 4 true ++ false ∷ [] }
    ensures points { map (point_now client06.ends Client) (moments client06.turns) ≡ replicate 5 (replicate 32 166) }
    ensures cookies { map next_cookie (moments client06.turns) ≡ replicate 5 [] }
    ensures other_lines { map other_lines (moments client06.turns) ≡ replicate 5 0 }
    ensures strict { map (is_strict Client) (moments client06.turns) ≡ replicate 2 false ++ replicate 3 true }
    ensures epochs_sent { map (λ h. epoch (sent h)) (moments client06.turns) ≡ replicate 5 0 }
    ensures epochs_taken { map (λ h. epoch (took h)) (moments client06.turns) ≡ replicate 5 0 }
    ensures counts_sent { map (λ h. count (sent h)) (moments client06.turns) ≡ replicate 2 1 ++ replicate 2 2 ++ 3 ∷ [] }
    ensures counts_taken { map (λ h. count (took h)) (moments client06.turns) ≡ replicate 2 0 ++ replicate 3 1 }
    ensures later_sent { map (λ h. length (after_first (sent h))) (moments client06.turns) ≡ replicate 5 0 }
    ensures later_taken { map (λ h. length (after_first (took h))) (moments client06.turns) ≡ replicate 5 0 }
    ensures numbers_sent { map (sending_number Client) (moments client06.turns) ≡ replicate 2 1 ++ replicate 2 2 ++ 3 ∷ [] }
    ensures numbers_taken { map (taking_number Client) (moments client06.turns) ≡ replicate 2 0 ++ replicate 3 1 }
    ensures keys_sent { map (sending_key client06.ends Client) (moments client06.turns) ≡ replicate 5 None }
    ensures keys_taken { map (taking_key client06.ends Client) (moments client06.turns) ≡ replicate 5 None }
    ensures may_take { map (allowed client06.ends Client client06.numbers) (moments client06.turns) ≡ replicate 2 (20 ∷ [])
        ++ replicate 3 (31 ∷ []) }
    ensures extensions { map (may_take_extensions Client) (moments client06.turns) ≡ replicate 5 false }
    ensures announces { map (announces client06.ends Client) (moments client06.turns) ≡ replicate 5 false }
    ensures requested { map (service_requested Client) (moments client06.turns) ≡ replicate 5 false }
    ensures accepted { map took_service_accept (moments client06.turns) ≡ replicate 5 false }
    ensures authenticated { map (authenticated Client) (moments client06.turns) ≡ replicate 5 false }
    ensures failures { map failures (moments client06.turns) ≡ replicate 5 0 }
    ensures outstanding { map (λ h. request_number (outstanding h)) (moments client06.turns) ≡ replicate 5 0 }
    ensures refused { map (verdicts client06.ends Client client06.messages) (moments client06.turns) ≡ replicate 2 (replicate 2 9
        ++ replicate 12 7) ++ replicate 3 (replicate 5 7 ++ 10 ∷ replicate 2 11 ++ replicate 6 7) }
    ensures asks_refused { map (ask_verdicts client06.ends Client client06.asks) (moments client06.turns) ≡ replicate 5 (replicate 9 1) }
    ensures channel_0 { map (channel_state Client 0) (moments client06.turns) ≡ replicate 5 [] }
    ensures channel_1 { map (channel_state Client 1) (moments client06.turns) ≡ replicate 5 [] }
    ensures channel_2 { map (channel_state Client 2) (moments client06.turns) ≡ replicate 5 [] }
    ensures held { map (held Client (numbers_from 0 3)) (moments client06.turns) ≡ replicate 5 (replicate 3 false) }
    ensures replies { map (replies Client (numbers_from 0 3)) (moments client06.turns) ≡ replicate 5 (replicate 3 []) }
    ensures owed { map (owed_closes Client) (moments client06.turns) ≡ replicate 5 [] }
    ensures globals { map waiting_globals (moments client06.turns) ≡ replicate 5 (replicate 2 0) }
    ensures all_numbers_1 { allowed client06.ends Client (numbers_from 0 256) (whole (take 1 client06.turns)) ≡ numbers_from 1 1
        ++ numbers_from 20 1 }
    ensures all_numbers_5 { allowed client06.ends Client (numbers_from 0 256) (whole (take 5 client06.turns)) ≡ numbers_from 1 1
        ++ numbers_from 31 1 }
    ensures first_offer { offer client06.ends Client true [] ≡ proposing (codes "k3" ∷ codes "k2" ∷ codes "kex-strict-c-v00@openssh.com"
        ∷ []) (codes "h2" ∷ codes "h1" ∷ []) (codes "e2" ∷ []) (codes "e2" ∷ []) (codes "m1" ∷ codes "m2" ∷ []) (codes "m1" ∷ codes "m2"
        ∷ []) }
    ensures later_offer { offer client06.ends Client false [] ≡ proposing (codes "k3" ∷ codes "k2" ∷ []) (codes "h2" ∷ codes "h1"
        ∷ []) (codes "e2" ∷ []) (codes "e2" ∷ []) (codes "m1" ∷ codes "m2" ∷ []) (codes "m1" ∷ codes "m2" ∷ []) }
    ensures texts { map exchange_text (exchanges client06.ends Client (whole client06.turns)) ≡ [] }
    ensures algorithms { map names_of (choices Client (whole client06.turns)) ≡ [] }
    ensures sending_key { sending_name client06.ends Client (whole client06.turns) ≡ None }
    ensures taking_key { taking_name client06.ends Client (whole client06.turns) ≡ None }
{}

/// Server06: values after each of 22 turns.
#[tactic(auto, unfolding(ssh_model::specs::Protocol::Channels::History::has_place, ssh_model::specs::Protocol::Channels::History::some_free, ssh_model::specs::Protocol::KeyExchange::Choice::methods, ssh_model::specs::Protocol::KeyExchange::Exchange::string_of))]
pub fn server06()
    ensures phases { map (phase server06.ends Server) (moments server06.turns) ≡ replicate 2 Start ++ Guessed ∷ Exchanging ∷ Keying
        ∷ replicate 17 Normal }
    ensures blocked { map blocked (moments server06.turns) ≡ replicate 4 true ++ replicate 14 false ++ replicate 4 true }
    ensures died { map has_died (moments server06.turns) ≡ replicate 21 false ++ true ∷ [] }
    ensures can_feed { map can_feed (moments server06.turns) ≡ replicate 13 true ++ replicate 5 false ++ replicate 3 true ++ false ∷ [] }
    ensures points { map (point_now server06.ends Server) (moments server06.turns) ≡ replicate 4 (replicate 32 134) ++ replicate 9 []
        ++ replicate 9 (replicate 32 6) }
    ensures cookies { map next_cookie (moments server06.turns) ≡ replicate 13 [] ++ replicate 5 (replicate 16 43) ++ replicate 4 [] }
    ensures other_lines { map other_lines (moments server06.turns) ≡ replicate 22 0 }
    ensures strict { map (is_strict Server) (moments server06.turns) ≡ replicate 2 false ++ replicate 20 true }
    ensures epochs_sent { map (λ h. epoch (sent h)) (moments server06.turns) ≡ replicate 4 0 ++ replicate 18 1 }
    ensures epochs_taken { map (λ h. epoch (took h)) (moments server06.turns) ≡ replicate 5 0 ++ replicate 17 1 }
    ensures counts_sent { map (λ h. count (sent h)) (moments server06.turns) ≡ replicate 4 1 ++ replicate 3 0 ++ 1 ∷ replicate 2 2
        ++ replicate 2 3 ++ replicate 2 4 ++ replicate 2 5 ++ 6 ∷ 7 ∷ replicate 3 8 ++ 9 ∷ [] }
    ensures counts_taken { map (λ h. count (took h)) (moments server06.turns) ≡ replicate 2 0 ++ 1 ∷ 2 ∷ 3 ∷ 0 ∷ 1 ∷ 2 ∷ 3 ∷ replicate 2 4
        ++ replicate 4 5 ++ replicate 4 6 ++ 7 ∷ replicate 2 8 }
    ensures later_sent { map (λ h. length (after_first (sent h))) (moments server06.turns) ≡ replicate 7 0 ++ 1 ∷ replicate 2 2
        ++ replicate 2 3 ++ replicate 2 4 ++ replicate 2 5 ++ 6 ∷ 7 ∷ replicate 3 8 ++ 9 ∷ [] }
    ensures later_taken { map (λ h. length (after_first (took h))) (moments server06.turns) ≡ replicate 6 0 ++ 1 ∷ 2 ∷ 3 ∷ replicate 2 4
        ++ replicate 4 5 ++ replicate 4 6 ++ 7 ∷ replicate 2 8 }
    ensures numbers_sent { map (sending_number Server) (moments server06.turns) ≡ replicate 4 1 ++ replicate 3 0 ++ 1 ∷ replicate 2 2
        ++ replicate 2 3 ++ replicate 2 4 ++ replicate 2 5 ++ 6 ∷ 7 ∷ replicate 3 8 ++ 9 ∷ [] }
    ensures numbers_taken { map (taking_number Server) (moments server06.turns) ≡ replicate 2 0 ++ 1 ∷ 2 ∷ 3 ∷ 0 ∷ 1 ∷ 2 ∷ 3 ∷ replicate 2 4
        ++ replicate 4 5 ++ replicate 4 6 ++ 7 ∷ replicate 2 8 }
    ensures keys_sent { map (sending_key server06.ends Server) (moments server06.turns) ≡ replicate 4 None
        ++ replicate 18 (Some (codes "e1m1")) }
    ensures keys_taken { map (taking_key server06.ends Server) (moments server06.turns) ≡ replicate 5 None
        ++ replicate 17 (Some (codes "e1m1")) }
    ensures may_take { map (allowed server06.ends Server server06.numbers) (moments server06.turns) ≡ replicate 2 (1 ∷ []) ++ (32 ∷ [])
        ∷ replicate 2 (1 ∷ []) ++ replicate 2 (1 ∷ 2 ∷ 5 ∷ 19 ∷ 22 ∷ 32 ∷ 54 ∷ []) ++ (1 ∷ 2 ∷ 19 ∷ 22 ∷ 32 ∷ 54 ∷ []) ∷ replicate 14 (1 ∷ 2
        ∷ 19 ∷ 22 ∷ 32 ∷ 54 ∷ 97 ∷ 100 ∷ 192 ∷ []) }
    ensures extensions { map (may_take_extensions Server) (moments server06.turns) ≡ replicate 22 false }
    ensures announces { map (announces server06.ends Server) (moments server06.turns) ≡ replicate 22 false }
    ensures requested { map (service_requested Server) (moments server06.turns) ≡ replicate 7 false ++ replicate 15 true }
    ensures accepted { map sent_service_accept (moments server06.turns) ≡ replicate 7 false ++ replicate 15 true }
    ensures authenticated { map (authenticated Server) (moments server06.turns) ≡ replicate 8 false ++ replicate 14 true }
    ensures failures { map failures (moments server06.turns) ≡ replicate 22 0 }
    ensures outstanding { map (λ h. request_number (outstanding h)) (moments server06.turns) ≡ replicate 22 0 }
    ensures refused { map (verdicts server06.ends Server server06.messages) (moments server06.turns) ≡ replicate 2 (replicate 2 9
        ++ replicate 15 7) ++ (replicate 5 7 ++ replicate 3 0 ++ replicate 5 7 ++ 0 ∷ replicate 3 7) ∷ (replicate 5 7 ++ replicate 3 10
        ++ replicate 9 7) ∷ replicate 17 7 ∷ replicate 2 (replicate 13 7 ++ 0 ∷ replicate 2 7 ++ 0 ∷ []) ++ (replicate 8 7 ++ replicate 3 0
        ++ replicate 2 7 ++ 0 ∷ replicate 2 7 ++ 0 ∷ []) ∷ replicate 4 (replicate 2 12 ++ replicate 3 16 ++ replicate 3 7 ++ replicate 3 0
        ++ 7 ∷ 16 ∷ replicate 2 0 ++ 7 ∷ 0 ∷ []) ++ (replicate 2 12 ++ replicate 3 16 ++ replicate 3 7 ++ replicate 3 0 ++ 7 ∷ replicate 3 0
        ++ 7 ∷ 0 ∷ []) ∷ replicate 6 (replicate 2 0 ++ replicate 3 16 ++ replicate 3 7 ++ replicate 3 0 ++ 7 ∷ replicate 3 0 ++ 7 ∷ 0 ∷ [])
        ++ (replicate 3 0 ++ replicate 2 16 ++ replicate 3 7 ++ replicate 3 0 ++ 7 ∷ replicate 3 0 ++ 7 ∷ 0 ∷ [])
        ∷ replicate 2 (replicate 2 0 ++ replicate 3 16 ++ replicate 3 7 ++ replicate 3 0 ++ 7 ∷ replicate 3 0 ++ 7 ∷ 0 ∷ []) }
    ensures asks_refused { map (ask_verdicts server06.ends Server server06.asks) (moments server06.turns) ≡ replicate 8 (replicate 2 1 ++ 11
        ∷ replicate 2 1 ++ 11 ∷ replicate 3 1) ++ replicate 4 (replicate 2 3 ++ 11 ∷ replicate 2 3 ++ 11 ∷ 12 ∷ replicate 2 3)
        ++ (replicate 2 3 ++ 11 ∷ replicate 2 3 ++ 11 ∷ 12 ∷ 3 ∷ 0 ∷ []) ∷ replicate 3 (replicate 2 3 ++ 11 ∷ replicate 2 3 ++ 11 ∷ 0 ∷ 3
        ∷ 0 ∷ []) ++ replicate 2 (replicate 2 3 ++ 11 ∷ replicate 2 3 ++ 11 ∷ 0 ∷ 3 ∷ 6 ∷ []) ++ replicate 4 (replicate 2 2 ++ 11
        ∷ replicate 2 2 ++ 11 ∷ replicate 3 2) }
    ensures channel_0 { map (channel_state Server 0) (moments server06.turns) ≡ replicate 17 [] ++ replicate 2 (1 ∷ 11 ∷ 4 ∷ []) ++ (3 ∷ 5
        ∷ 8 ∷ 11 ∷ 4 ∷ 3 ∷ replicate 5 0) ∷ replicate 2 (4 ∷ []) }
    ensures channel_1 { map (channel_state Server 1) (moments server06.turns) ≡ replicate 9 [] ++ replicate 3 (2 ∷ 7 ∷ 6 ∷ 7 ∷ [])
        ++ replicate 2 (3 ∷ 7 ∷ 6 ∷ 8 ∷ 4 ∷ 7 ∷ replicate 5 0) ++ replicate 2 (3 ∷ replicate 2 6 ++ 8 ∷ 4 ∷ 7 ∷ replicate 5 0)
        ++ replicate 6 (3 ∷ replicate 2 6 ++ 8 ∷ 4 ∷ 7 ∷ replicate 2 1 ++ replicate 3 0) }
    ensures channel_2 { map (channel_state Server 2) (moments server06.turns) ≡ replicate 22 [] }
    ensures held { map (held Server (numbers_from 0 3)) (moments server06.turns) ≡ replicate 9 (replicate 3 false) ++ replicate 8 (false
        ∷ true ∷ false ∷ []) ++ replicate 5 (replicate 2 true ++ false ∷ []) }
    ensures replies { map (replies Server (numbers_from 0 3)) (moments server06.turns) ≡ replicate 12 (replicate 3 []) ++ replicate 4 ([]
        ∷ ((1 ∷ 7 ∷ []) ∷ []) ∷ [] ∷ []) ++ replicate 6 (replicate 3 []) }
    ensures owed { map (owed_closes Server) (moments server06.turns) ≡ replicate 20 [] ++ replicate 2 ((0 ∷ 3 ∷ []) ∷ []) }
    ensures globals { map waiting_globals (moments server06.turns) ≡ replicate 10 (replicate 2 0) ++ (0 ∷ 1 ∷ [])
        ∷ replicate 11 (replicate 2 0) }
    ensures all_numbers_2 { allowed server06.ends Server (numbers_from 0 256) (whole (take 2 server06.turns)) ≡ numbers_from 1 1
        ++ numbers_from 20 1 }
    ensures all_numbers_22 { allowed server06.ends Server (numbers_from 0 256) (whole (take 22 server06.turns)) ≡ numbers_from 0 5
        ++ numbers_from 8 13 ++ numbers_from 22 8 ++ numbers_from 32 19 ++ numbers_from 54 6 ++ numbers_from 61 195 }
    ensures first_offer { offer server06.ends Server true [] ≡ proposing (codes "k3" ∷ codes "kex-strict-s-v00@openssh.com"
        ∷ []) (codes "h3" ∷ codes "h1" ∷ codes "h2" ∷ []) (codes "e1" ∷ []) (codes "e1" ∷ []) (codes "m1" ∷ []) (codes "m1" ∷ []) }
    ensures later_offer { offer server06.ends Server false [] ≡ proposing (codes "k3" ∷ []) (codes "h3" ∷ codes "h1" ∷ codes "h2"
        ∷ []) (codes "e1" ∷ []) (codes "e1" ∷ []) (codes "m1" ∷ []) (codes "m1" ∷ []) }
    ensures texts { map exchange_text (exchanges server06.ends Server (whole server06.turns)) ≡ server06.text_0 ∷ [] }
    ensures algorithms { map names_of (choices Server (whole server06.turns)) ≡ (codes "k3" ∷ codes "h1" ∷ replicate 2 (codes "e1")
        ++ replicate 2 (codes "m1") ++ replicate 2 (codes "none")) ∷ [] }
    ensures session { session_id (exchanges server06.ends Server (whole server06.turns)) ≡ sha256 server06.text_0 }
    ensures sending_key { sending_name server06.ends Server (whole server06.turns)
        ≡ named Server (sha256 server06.text_0) (sha256 server06.text_0) }
    ensures taking_key { taking_name server06.ends Server (whole server06.turns)
        ≡ named Client (sha256 server06.text_0) (sha256 server06.text_0) }
{}
