//! Drawn sessions and their tables, written by tools/second_reading.

ghost use Rattle.std.specs.Prelude.{map, ◌≡◌, replicate, ◌++◌, ◌∷◌, true, false, [], length, None, Some, codes, take};
ghost use Rattle.ssh_model.specs.Protocol.Sessions.Phases.{phase, Phase.Start, Phase.Exchanging, Phase.Keying, Phase.Normal};
ghost use Rattle.ssh_model.specs.Protocol.Sessions.Phases.{blocked, other_lines, may_take_extensions, service_requested};
ghost use Rattle.ssh_model.specs.Protocol.Sessions.Phases.{took_service_accept, authenticated, failures, outstanding};
ghost use Rattle.ssh_model.specs.Protocol.Sessions.Phases.{Phase.Guessed, sent_service_accept};
ghost use Rattle.ssh_model.specs.declared.side.Side.TheVariants.{Client, Server};
ghost use Rattle.test_histories.specs.Words.{moments, allowed, request_number, verdicts, ask_verdicts, channel_state, held};
ghost use Rattle.test_histories.specs.Words.{numbers_from, replies, owed_closes, waiting_globals, whole, proposing, names_of};
ghost use Rattle.test_histories.specs.Words.{named};
ghost use Rattle.ssh_model.specs.Protocol.Sessions.Items.{has_died, sent, took};
ghost use Rattle.ssh_model.specs.Protocol.Sessions.Turns.{can_feed};
ghost use Rattle.ssh_model.specs.Protocol.Sessions.Transport.{point_now, next_cookie, announces};
ghost use Rattle.ssh_model.specs.Protocol.KeyExchange.Exchanges.{is_strict, sending_number, taking_number, sending_key};
ghost use Rattle.ssh_model.specs.Protocol.KeyExchange.Exchanges.{taking_key, exchanges, choices, session_id, sending_name};
ghost use Rattle.ssh_model.specs.Protocol.KeyExchange.Exchanges.{taking_name};
ghost use Rattle.ssh_model.specs.Protocol.Sessions.Epochs.{epoch, count, after_first};
ghost use Rattle.ssh_model.specs.Protocol.Sessions.Parties.{offer};
ghost use Rattle.ssh_model.specs.Protocol.KeyExchange.Exchange.{exchange_text};
ghost use Rattle.sha2.specs.Sha256.{sha256};
ghost use Rattle.test_histories.specs.Drawn.Client04 as client04;
ghost use Rattle.test_histories.specs.Drawn.Server04 as server04;
ghost use Rattle.test_histories.specs.Drawn.Client05 as client05;

/// Client04: values after each of 31 turns.
#[tactic(auto, unfolding(ssh_model::specs::Protocol::Channels::History::has_place, ssh_model::specs::Protocol::Channels::History::some_free, ssh_model::specs::Protocol::KeyExchange::Choice::methods, ssh_model::specs::Protocol::KeyExchange::Exchange::string_of))]
pub fn client04()
    ensures phases { map (phase client04.ends Client) (moments client04.turns) ≡ replicate 3 Start ++ Exchanging ∷ Keying
        ∷ replicate 26 Normal }
    ensures blocked { map blocked (moments client04.turns) ≡ replicate 4 true ++ replicate 24 false ++ replicate 3 true }
    ensures died { map has_died (moments client04.turns) ≡ replicate 30 false ++ true ∷ [] }
    ensures can_feed { map can_feed (moments client04.turns) ≡ replicate 16 true ++ replicate 12 false ++ replicate 2 true ++ false ∷ [] }
    ensures points { map (point_now client04.ends Client) (moments client04.turns) ≡ replicate 4 (replicate 32 59) ++ replicate 12 []
        ++ replicate 15 (replicate 32 131) }
    ensures cookies { map next_cookie (moments client04.turns) ≡ replicate 16 [] ++ replicate 12 (replicate 16 130) ++ replicate 3 [] }
    ensures other_lines { map other_lines (moments client04.turns) ≡ 0 ∷ replicate 30 1 }
    ensures strict { map (is_strict Client) (moments client04.turns) ≡ replicate 3 false ++ replicate 28 true }
    ensures epochs_sent { map (λ h. epoch (sent h)) (moments client04.turns) ≡ replicate 4 0 ++ replicate 27 1 }
    ensures epochs_taken { map (λ h. epoch (took h)) (moments client04.turns) ≡ replicate 5 0 ++ replicate 26 1 }
    ensures counts_sent { map (λ h. count (sent h)) (moments client04.turns) ≡ replicate 3 1 ++ 2 ∷ replicate 4 0 ++ replicate 3 1
        ++ replicate 3 2 ++ 3 ∷ replicate 4 4 ++ 5 ∷ replicate 2 6 ++ replicate 3 7 ++ 8 ∷ replicate 2 9 ++ replicate 2 10 ++ 11 ∷ [] }
    ensures counts_taken { map (λ h. count (took h)) (moments client04.turns) ≡ replicate 3 0 ++ 1 ∷ 2 ∷ 0 ∷ replicate 3 1 ++ 2
        ∷ replicate 2 3 ++ replicate 5 4 ++ 5 ∷ replicate 3 6 ++ replicate 2 7 ++ 8 ∷ replicate 3 9 ++ replicate 4 10 }
    ensures later_sent { map (λ h. length (after_first (sent h))) (moments client04.turns) ≡ replicate 8 0 ++ replicate 3 1 ++ replicate 3 2
        ++ 3 ∷ replicate 4 4 ++ 5 ∷ replicate 2 6 ++ replicate 3 7 ++ 8 ∷ replicate 2 9 ++ replicate 2 10 ++ 11 ∷ [] }
    ensures later_taken { map (λ h. length (after_first (took h))) (moments client04.turns) ≡ replicate 6 0 ++ replicate 3 1 ++ 2
        ∷ replicate 2 3 ++ replicate 5 4 ++ 5 ∷ replicate 3 6 ++ replicate 2 7 ++ 8 ∷ replicate 3 9 ++ replicate 4 10 }
    ensures numbers_sent { map (sending_number Client) (moments client04.turns) ≡ replicate 3 1 ++ 2 ∷ replicate 4 0 ++ replicate 3 1
        ++ replicate 3 2 ++ 3 ∷ replicate 4 4 ++ 5 ∷ replicate 2 6 ++ replicate 3 7 ++ 8 ∷ replicate 2 9 ++ replicate 2 10 ++ 11 ∷ [] }
    ensures numbers_taken { map (taking_number Client) (moments client04.turns) ≡ replicate 3 0 ++ 1 ∷ 2 ∷ 0 ∷ replicate 3 1 ++ 2
        ∷ replicate 2 3 ++ replicate 5 4 ++ 5 ∷ replicate 3 6 ++ replicate 2 7 ++ 8 ∷ replicate 3 9 ++ replicate 4 10 }
    ensures keys_sent { map (sending_key client04.ends Client) (moments client04.turns) ≡ replicate 4 None
        ++ replicate 27 (Some (codes "e1m1")) }
    ensures keys_taken { map (taking_key client04.ends Client) (moments client04.turns) ≡ replicate 5 None
        ++ replicate 26 (Some (codes "e1m1")) }
    ensures may_take { map (allowed client04.ends Client client04.numbers) (moments client04.turns) ≡ replicate 3 (2 ∷ 4 ∷ [])
        ++ replicate 2 [] ++ replicate 6 (0 ∷ 2 ∷ 4 ∷ 19 ∷ 79 ∷ []) ++ (0 ∷ 2 ∷ 4 ∷ 19 ∷ 52 ∷ 79 ∷ []) ∷ replicate 19 (0 ∷ 2 ∷ 4 ∷ 19 ∷ 79
        ∷ 80 ∷ 82 ∷ 89 ∷ 101 ∷ 192 ∷ []) }
    ensures extensions { map (may_take_extensions Client) (moments client04.turns) ≡ replicate 5 false ++ true ∷ replicate 25 false }
    ensures announces { map (announces client04.ends Client) (moments client04.turns) ≡ replicate 31 false }
    ensures requested { map (service_requested Client) (moments client04.turns) ≡ replicate 8 false ++ replicate 23 true }
    ensures accepted { map took_service_accept (moments client04.turns) ≡ replicate 10 false ++ replicate 21 true }
    ensures authenticated { map (authenticated Client) (moments client04.turns) ≡ replicate 12 false ++ replicate 19 true }
    ensures failures { map failures (moments client04.turns) ≡ replicate 31 0 }
    ensures outstanding { map (λ h. request_number (outstanding h)) (moments client04.turns) ≡ replicate 11 0 ++ 4 ∷ replicate 19 0 }
    ensures refused { map (verdicts client04.ends Client client04.messages) (moments client04.turns) ≡ replicate 3 (replicate 2 0
        ++ replicate 7 7 ++ 0 ∷ replicate 4 7) ++ (replicate 5 7 ++ 11 ∷ replicate 2 10 ++ replicate 6 7) ∷ (replicate 11 7 ++ 0
        ∷ replicate 2 7) ∷ replicate 5 (replicate 9 7 ++ 0 ∷ replicate 4 7) ++ replicate 2 (replicate 8 7 ++ replicate 2 0 ++ replicate 4 7)
        ++ replicate 3 (replicate 2 12 ++ replicate 3 16 ++ replicate 4 7 ++ 0 ∷ replicate 2 7 ++ 0 ∷ 7 ∷ []) ++ (replicate 2 12
        ++ replicate 3 16 ++ replicate 4 7 ++ replicate 2 0 ++ 7 ∷ replicate 2 0) ∷ (replicate 2 0 ++ replicate 3 16 ++ replicate 4 7
        ++ replicate 2 0 ++ 7 ∷ replicate 2 0) ∷ (replicate 2 0 ++ replicate 3 16 ++ replicate 4 7 ++ 0 ∷ replicate 2 7 ++ 0 ∷ 7 ∷ [])
        ∷ replicate 13 (replicate 3 0 ++ replicate 2 16 ++ replicate 4 7 ++ 0 ∷ replicate 2 7 ++ 0 ∷ 7 ∷ []) }
    ensures asks_refused { map (ask_verdicts client04.ends Client client04.asks) (moments client04.turns) ≡ replicate 10 (replicate 9 1)
        ++ (replicate 3 1 ++ 0 ∷ replicate 4 1 ++ 0 ∷ []) ∷ (replicate 3 1 ++ 2 ∷ replicate 4 1 ++ 2 ∷ []) ∷ replicate 6 (replicate 2 3
        ++ 10 ∷ 6 ∷ replicate 2 3 ++ 8 ∷ 3 ∷ 6 ∷ []) ++ replicate 7 (replicate 2 3 ++ 10 ∷ 6 ∷ 0 ∷ 3 ∷ 8 ∷ 3 ∷ 6 ∷ []) ++ (replicate 2 3
        ++ 10 ∷ replicate 2 6 ++ 3 ∷ 8 ∷ 3 ∷ 6 ∷ []) ∷ replicate 2 (replicate 3 9 ++ 6 ∷ replicate 4 9 ++ 6 ∷ [])
        ++ replicate 3 (replicate 3 2 ++ 6 ∷ replicate 4 2 ++ 6 ∷ []) }
    ensures channel_0 { map (channel_state Client 0) (moments client04.turns) ≡ replicate 14 [] ++ replicate 4 (1 ∷ 12 ∷ 32768 ∷ []) ++ (3
        ∷ 11 ∷ 7 ∷ 12 ∷ 32768 ∷ 4 ∷ replicate 5 0) ∷ replicate 2 (3 ∷ 10 ∷ 7 ∷ 12 ∷ 32768 ∷ 4 ∷ replicate 5 0) ++ (3 ∷ 10 ∷ 7 ∷ 8 ∷ 32768
        ∷ 4 ∷ replicate 5 0) ∷ replicate 2 (3 ∷ 10 ∷ 7 ∷ 8 ∷ 32768 ∷ 4 ∷ replicate 4 0 ++ 1 ∷ []) ++ (3 ∷ 10 ∷ 7 ∷ 8 ∷ 32768 ∷ 4
        ∷ replicate 5 0) ∷ replicate 2 (3 ∷ 10 ∷ 7 ∷ 8 ∷ 32768 ∷ 4 ∷ replicate 2 1 ++ replicate 3 0) ++ replicate 4 (3 ∷ 10 ∷ 7 ∷ 4 ∷ 32768
        ∷ 4 ∷ replicate 2 1 ++ replicate 3 0) }
    ensures channel_1 { map (channel_state Client 1) (moments client04.turns) ≡ replicate 26 [] ++ replicate 5 (1 ∷ 10 ∷ 6 ∷ []) }
    ensures channel_2 { map (channel_state Client 2) (moments client04.turns) ≡ replicate 31 [] }
    ensures held { map (held Client (numbers_from 0 3)) (moments client04.turns) ≡ replicate 14 (replicate 3 false) ++ replicate 12 (true
        ∷ replicate 2 false) ++ replicate 5 (replicate 2 true ++ false ∷ []) }
    ensures replies { map (replies Client (numbers_from 0 3)) (moments client04.turns) ≡ replicate 18 (replicate 3 []) ++ replicate 7 (((0
        ∷ 4 ∷ []) ∷ []) ∷ replicate 2 []) ++ replicate 6 (replicate 3 []) }
    ensures owed { map (owed_closes Client) (moments client04.turns) ≡ replicate 31 [] }
    ensures globals { map waiting_globals (moments client04.turns) ≡ replicate 15 (replicate 2 0) ++ replicate 2 (0 ∷ 1 ∷ [])
        ++ replicate 14 (replicate 2 0) }
    ensures all_numbers_3 { allowed client04.ends Client (numbers_from 0 256) (whole (take 3 client04.turns)) ≡ numbers_from 1 4
        ++ numbers_from 20 1 }
    ensures all_numbers_31 { allowed client04.ends Client (numbers_from 0 256) (whole (take 31 client04.turns)) ≡ numbers_from 0 5
        ++ numbers_from 8 13 ++ numbers_from 22 8 ++ numbers_from 32 18 ++ numbers_from 54 6 ++ numbers_from 61 195 }
    ensures first_offer { offer client04.ends Client true [] ≡ proposing (codes "k1" ∷ codes "k2" ∷ codes "ext-info-c"
        ∷ codes "kex-strict-c-v00@openssh.com" ∷ []) (codes "h1" ∷ codes "h2" ∷ []) (codes "e1" ∷ codes "e2" ∷ []) (codes "e1" ∷ codes "e2"
        ∷ []) (codes "m1" ∷ []) (codes "m1" ∷ []) }
    ensures later_offer { offer client04.ends Client false [] ≡ proposing (codes "k1" ∷ codes "k2" ∷ []) (codes "h1" ∷ codes "h2"
        ∷ []) (codes "e1" ∷ codes "e2" ∷ []) (codes "e1" ∷ codes "e2" ∷ []) (codes "m1" ∷ []) (codes "m1" ∷ []) }
    ensures texts { map exchange_text (exchanges client04.ends Client (whole client04.turns)) ≡ client04.text_0 ∷ [] }
    ensures algorithms { map names_of (choices Client (whole client04.turns)) ≡ (codes "k1" ∷ codes "h1" ∷ replicate 2 (codes "e1")
        ++ replicate 2 (codes "m1") ++ replicate 2 (codes "none")) ∷ [] }
    ensures session { session_id (exchanges client04.ends Client (whole client04.turns)) ≡ sha256 client04.text_0 }
    ensures sending_key { sending_name client04.ends Client (whole client04.turns)
        ≡ named Client (sha256 client04.text_0) (sha256 client04.text_0) }
    ensures taking_key { taking_name client04.ends Client (whole client04.turns)
        ≡ named Server (sha256 client04.text_0) (sha256 client04.text_0) }
{}

/// Server04: values after each of 53 turns.
#[tactic(auto, unfolding(ssh_model::specs::Protocol::Channels::History::has_place, ssh_model::specs::Protocol::Channels::History::some_free, ssh_model::specs::Protocol::KeyExchange::Choice::methods, ssh_model::specs::Protocol::KeyExchange::Exchange::string_of))]
pub fn server04()
    ensures phases { map (phase server04.ends Server) (moments server04.turns) ≡ replicate 2 Start ++ Guessed ∷ Exchanging ∷ Keying
        ∷ replicate 23 Normal ++ Exchanging ∷ Keying ∷ replicate 2 Normal ++ Guessed ∷ replicate 3 Exchanging ++ replicate 5 Keying
        ++ replicate 9 Normal ++ Guessed ∷ replicate 2 Exchanging }
    ensures blocked { map blocked (moments server04.turns) ≡ replicate 4 true ++ replicate 16 false ++ replicate 9 true ++ replicate 3 false
        ++ replicate 4 true ++ replicate 7 false ++ replicate 10 true }
    ensures died { map has_died (moments server04.turns) ≡ replicate 52 false ++ true ∷ [] }
    ensures can_feed { map can_feed (moments server04.turns) ≡ replicate 13 true ++ replicate 7 false ++ true ∷ replicate 11 false
        ++ replicate 2 true ++ replicate 9 false ++ replicate 9 true ++ false ∷ [] }
    ensures points { map (point_now server04.ends Server) (moments server04.turns) ≡ replicate 4 (replicate 32 184) ++ replicate 9 []
        ++ replicate 16 (replicate 32 70) ++ replicate 7 (replicate 32 42) ++ replicate 17 (replicate 32 157) }
    ensures cookies { map next_cookie (moments server04.turns) ≡ replicate 13 [] ++ replicate 7 (replicate 16 181) ++ []
        ∷ replicate 11 (replicate 16 219) ++ replicate 2 [] ++ replicate 9 (replicate 16 135) ++ replicate 10 [] }
    ensures other_lines { map other_lines (moments server04.turns) ≡ replicate 53 0 }
    ensures strict { map (is_strict Server) (moments server04.turns) ≡ replicate 2 false ++ replicate 51 true }
    ensures epochs_sent { map (λ h. epoch (sent h)) (moments server04.turns) ≡ replicate 4 0 ++ replicate 25 1 ++ replicate 7 2
        ++ replicate 17 3 }
    ensures epochs_taken { map (λ h. epoch (took h)) (moments server04.turns) ≡ replicate 5 0 ++ replicate 25 1 ++ replicate 11 2
        ++ replicate 12 3 }
    ensures counts_sent { map (λ h. count (sent h)) (moments server04.turns) ≡ replicate 4 1 ++ replicate 2 0 ++ 1 ∷ 2 ∷ replicate 2 3
        ++ replicate 4 4 ++ replicate 2 5 ++ replicate 2 6 ++ 7 ∷ 8 ∷ replicate 9 9 ++ replicate 3 1 ++ replicate 4 2 ++ 0 ∷ 1 ∷ 2
        ∷ replicate 3 3 ++ 4 ∷ replicate 3 5 ++ replicate 2 6 ++ 7 ∷ replicate 3 8 ++ 9 ∷ [] }
    ensures counts_taken { map (λ h. count (took h)) (moments server04.turns) ≡ replicate 2 0 ++ 1 ∷ 2 ∷ 3 ∷ 0 ∷ 1 ∷ 2 ∷ 3 ∷ 4 ∷ 5 ∷ 6
        ∷ replicate 3 7 ++ replicate 2 8 ++ replicate 5 9 ++ 10 ∷ 11 ∷ replicate 2 12 ++ 13 ∷ 14 ∷ 15 ∷ 16 ∷ replicate 2 0 ++ 1
        ∷ replicate 2 2 ++ 3 ∷ replicate 4 4 ++ 5 ∷ replicate 3 0 ++ 1 ∷ 2 ∷ 3 ∷ 4 ∷ 5 ∷ 6 ∷ 7 ∷ replicate 2 8 }
    ensures later_sent { map (λ h. length (after_first (sent h))) (moments server04.turns) ≡ replicate 6 0 ++ 1 ∷ 2 ∷ replicate 2 3
        ++ replicate 4 4 ++ replicate 2 5 ++ replicate 2 6 ++ 7 ∷ 8 ∷ replicate 9 9 ++ replicate 3 12 ++ replicate 4 13 ++ 15 ∷ 16 ∷ 17
        ∷ replicate 3 18 ++ 19 ∷ replicate 3 20 ++ replicate 2 21 ++ 22 ∷ replicate 3 23 ++ 24 ∷ [] }
    ensures later_taken { map (λ h. length (after_first (took h))) (moments server04.turns) ≡ replicate 6 0 ++ 1 ∷ 2 ∷ 3 ∷ 4 ∷ 5 ∷ 6
        ∷ replicate 3 7 ++ replicate 2 8 ++ replicate 5 9 ++ 10 ∷ 11 ∷ replicate 2 12 ++ 13 ∷ 14 ∷ 15 ∷ 16 ∷ replicate 2 17 ++ 18
        ∷ replicate 2 19 ++ 20 ∷ replicate 4 21 ++ 22 ∷ replicate 3 23 ++ 24 ∷ 25 ∷ 26 ∷ 27 ∷ 28 ∷ 29 ∷ 30 ∷ replicate 2 31 }
    ensures numbers_sent { map (sending_number Server) (moments server04.turns) ≡ replicate 4 1 ++ replicate 2 0 ++ 1 ∷ 2 ∷ replicate 2 3
        ++ replicate 4 4 ++ replicate 2 5 ++ replicate 2 6 ++ 7 ∷ 8 ∷ replicate 9 9 ++ replicate 3 1 ++ replicate 4 2 ++ 0 ∷ 1 ∷ 2
        ∷ replicate 3 3 ++ 4 ∷ replicate 3 5 ++ replicate 2 6 ++ 7 ∷ replicate 3 8 ++ 9 ∷ [] }
    ensures numbers_taken { map (taking_number Server) (moments server04.turns) ≡ replicate 2 0 ++ 1 ∷ 2 ∷ 3 ∷ 0 ∷ 1 ∷ 2 ∷ 3 ∷ 4 ∷ 5 ∷ 6
        ∷ replicate 3 7 ++ replicate 2 8 ++ replicate 5 9 ++ 10 ∷ 11 ∷ replicate 2 12 ++ 13 ∷ 14 ∷ 15 ∷ 16 ∷ replicate 2 0 ++ 1
        ∷ replicate 2 2 ++ 3 ∷ replicate 4 4 ++ 5 ∷ replicate 3 0 ++ 1 ∷ 2 ∷ 3 ∷ 4 ∷ 5 ∷ 6 ∷ 7 ∷ replicate 2 8 }
    ensures keys_sent { map (sending_key server04.ends Server) (moments server04.turns) ≡ replicate 4 None
        ++ replicate 25 (Some (codes "e2m2")) ++ replicate 7 (Some (codes "e1m2")) ++ replicate 17 (Some (codes "e2m2")) }
    ensures keys_taken { map (taking_key server04.ends Server) (moments server04.turns) ≡ replicate 5 None
        ++ replicate 25 (Some (codes "e1m1")) ++ replicate 23 (Some (codes "e2m3")) }
    ensures may_take { map (allowed server04.ends Server server04.numbers) (moments server04.turns) ≡ replicate 2 [] ++ (31 ∷ 32 ∷ 49 ∷ [])
        ∷ replicate 2 [] ++ (5 ∷ 19 ∷ 32 ∷ 49 ∷ 54 ∷ 61 ∷ []) ∷ replicate 4 (19 ∷ 32 ∷ 49 ∷ 50 ∷ 54 ∷ 61 ∷ []) ++ replicate 18 (19 ∷ 32 ∷ 49
        ∷ 50 ∷ 54 ∷ 61 ∷ 80 ∷ 82 ∷ 89 ∷ 192 ∷ []) ++ replicate 2 (19 ∷ []) ++ replicate 2 (19 ∷ 32 ∷ 49 ∷ 50 ∷ 54 ∷ 61 ∷ 80 ∷ 82 ∷ 89 ∷ 192
        ∷ []) ++ (31 ∷ 32 ∷ 49 ∷ []) ∷ replicate 8 (19 ∷ []) ++ replicate 9 (19 ∷ 32 ∷ 49 ∷ 50 ∷ 54 ∷ 61 ∷ 80 ∷ 82 ∷ 89 ∷ 192 ∷ []) ++ (31
        ∷ 32 ∷ 49 ∷ []) ∷ replicate 2 (19 ∷ []) }
    ensures extensions { map (may_take_extensions Server) (moments server04.turns) ≡ replicate 53 false }
    ensures announces { map (announces server04.ends Server) (moments server04.turns) ≡ replicate 53 false }
    ensures requested { map (service_requested Server) (moments server04.turns) ≡ replicate 6 false ++ replicate 47 true }
    ensures accepted { map sent_service_accept (moments server04.turns) ≡ replicate 6 false ++ replicate 47 true }
    ensures authenticated { map (authenticated Server) (moments server04.turns) ≡ replicate 10 false ++ replicate 43 true }
    ensures failures { map failures (moments server04.turns) ≡ replicate 7 0 ++ 1 ∷ replicate 45 2 }
    ensures outstanding { map (λ h. request_number (outstanding h)) (moments server04.turns) ≡ replicate 53 0 }
    ensures refused { map (verdicts server04.ends Server server04.messages) (moments server04.turns) ≡ replicate 2 (replicate 2 9
        ++ replicate 15 7) ++ (replicate 5 7 ++ replicate 3 0 ++ replicate 9 7) ∷ (replicate 5 7 ++ replicate 2 0 ++ 10 ∷ replicate 9 7)
        ∷ replicate 17 7 ∷ (replicate 12 7 ++ 0 ∷ replicate 3 7 ++ 0 ∷ []) ∷ replicate 2 (replicate 8 7 ++ replicate 3 0 ++ 7 ∷ 0
        ∷ replicate 3 7 ++ 0 ∷ []) ++ replicate 2 (replicate 8 7 ++ 15 ∷ 0 ∷ 15 ∷ 7 ∷ 0 ∷ replicate 3 7 ++ 0 ∷ [])
        ++ replicate 3 (replicate 2 12 ++ replicate 3 16 ++ replicate 3 7 ++ replicate 3 0 ++ 16 ∷ replicate 2 0 ++ 7 ∷ 16 ∷ 0 ∷ [])
        ++ (replicate 2 0 ++ replicate 3 16 ++ replicate 3 7 ++ replicate 3 0 ++ 16 ∷ replicate 2 0 ++ 7 ∷ 16 ∷ 0 ∷ [])
        ∷ replicate 13 (replicate 2 0 ++ replicate 2 16 ++ 18 ∷ replicate 3 7 ++ replicate 3 0 ++ 16 ∷ replicate 2 0 ++ 7 ∷ 16 ∷ 0 ∷ [])
        ++ (replicate 2 0 ++ replicate 3 16 ++ replicate 3 7 ++ replicate 3 0 ++ 16 ∷ replicate 2 0 ++ 7 ∷ 16 ∷ 0 ∷ []) ∷ (replicate 5 7
        ++ 10 ∷ 0 ∷ 10 ∷ replicate 4 7 ++ 0 ∷ replicate 3 7 ++ 0 ∷ []) ∷ (replicate 12 7 ++ 0 ∷ replicate 3 7 ++ 0 ∷ [])
        ∷ replicate 2 (replicate 2 0 ++ replicate 3 16 ++ replicate 3 7 ++ replicate 3 0 ++ 16 ∷ replicate 2 0 ++ 7 ∷ 16 ∷ 0 ∷ [])
        ++ (replicate 5 7 ++ replicate 3 0 ++ replicate 9 7) ∷ replicate 3 (replicate 5 7 ++ replicate 2 0 ++ 10 ∷ replicate 4 7 ++ 0
        ∷ replicate 3 7 ++ 0 ∷ []) ++ replicate 5 (replicate 12 7 ++ 0 ∷ replicate 3 7 ++ 0 ∷ []) ++ replicate 9 (replicate 2 0
        ++ replicate 3 16 ++ replicate 3 7 ++ replicate 3 0 ++ 16 ∷ replicate 2 0 ++ 7 ∷ 16 ∷ 0 ∷ []) ++ (replicate 5 7 ++ replicate 3 0
        ++ replicate 9 7) ∷ replicate 2 (replicate 5 7 ++ replicate 2 0 ++ 10 ∷ replicate 4 7 ++ 0 ∷ replicate 3 7 ++ 0 ∷ []) }
    ensures asks_refused { map (ask_verdicts server04.ends Server server04.asks) (moments server04.turns) ≡ replicate 10 (replicate 9 1)
        ++ replicate 3 (replicate 6 3 ++ 12 ∷ replicate 2 3) ++ (replicate 6 3 ++ 0 ∷ replicate 2 3) ∷ replicate 4 (3 ∷ 0 ∷ replicate 4 3
        ++ 0 ∷ 3 ∷ 0 ∷ []) ++ (3 ∷ 6 ∷ replicate 4 3 ++ 0 ∷ 3 ∷ 6 ∷ []) ∷ (replicate 6 9 ++ 0 ∷ replicate 2 9) ∷ replicate 9 (replicate 9 2)
        ++ (replicate 2 3 ++ 0 ∷ replicate 3 3 ++ 2 ∷ replicate 2 3) ∷ replicate 2 (replicate 2 3 ++ 0 ∷ replicate 3 3 ++ 0 ∷ replicate 2 3)
        ++ replicate 4 (replicate 9 2) ++ (replicate 2 3 ++ 0 ∷ replicate 3 3 ++ 2 ∷ replicate 2 3) ∷ replicate 4 (replicate 6 3 ++ 2
        ∷ replicate 2 3) ++ replicate 2 (replicate 6 3 ++ 0 ∷ replicate 2 3) ++ replicate 10 (replicate 9 2) }
    ensures channel_0 { map (channel_state Server 0) (moments server04.turns) ≡ replicate 12 [] ++ replicate 2 (2 ∷ replicate 2 8 ++ 5 ∷ [])
        ++ (3 ∷ replicate 2 8 ++ 5 ∷ 4 ∷ 5 ∷ replicate 5 0) ∷ (3 ∷ replicate 2 8 ++ 5 ∷ 4 ∷ 5 ∷ replicate 3 0 ++ 1 ∷ 0 ∷ []) ∷ (3 ∷ 7 ∷ 8
        ∷ 5 ∷ 4 ∷ 5 ∷ replicate 3 0 ++ 1 ∷ 0 ∷ []) ∷ (3 ∷ 27 ∷ 8 ∷ 5 ∷ 4 ∷ 5 ∷ replicate 3 0 ++ 1 ∷ 0 ∷ []) ∷ (3 ∷ 27 ∷ 8 ∷ 5 ∷ 4 ∷ 5 ∷ 1
        ∷ replicate 2 0 ++ 1 ∷ 0 ∷ []) ∷ replicate 3 (3 ∷ 27 ∷ 8 ∷ 5 ∷ 4 ∷ 5 ∷ 1 ∷ replicate 4 0) ++ replicate 2 (3 ∷ 27 ∷ 8 ∷ 5 ∷ 4 ∷ 5 ∷ 1
        ∷ 0 ∷ 1 ∷ replicate 2 0) ++ replicate 2 (3 ∷ 27 ∷ 8 ∷ 5 ∷ 4 ∷ 5 ∷ 1 ∷ 0 ∷ replicate 2 1 ++ 0 ∷ []) ++ (3 ∷ 34 ∷ 8 ∷ 5 ∷ 4 ∷ 5 ∷ 1
        ∷ 0 ∷ replicate 2 1 ++ 0 ∷ []) ∷ replicate 2 (4 ∷ []) ++ replicate 9 [] ++ replicate 15 (1 ∷ 7 ∷ 32768 ∷ []) }
    ensures channel_1 { map (channel_state Server 1) (moments server04.turns) ≡ replicate 39 [] ++ replicate 5 (1 ∷ 11 ∷ 4 ∷ []) ++ (3
        ∷ replicate 2 7 ++ 11 ∷ replicate 2 4 ++ replicate 5 0) ∷ replicate 2 (3 ∷ replicate 2 7 ++ 10 ∷ replicate 2 4 ++ replicate 5 0)
        ++ replicate 6 (4 ∷ []) }
    ensures channel_2 { map (channel_state Server 2) (moments server04.turns) ≡ replicate 23 [] ++ replicate 14 (2 ∷ 12 ∷ 7 ∷ 4 ∷ [])
        ++ replicate 16 [] }
    ensures held { map (held Server (numbers_from 0 3)) (moments server04.turns) ≡ replicate 12 (replicate 3 false) ++ replicate 11 (true
        ∷ replicate 2 false) ++ replicate 6 (true ∷ false ∷ true ∷ []) ++ replicate 8 (replicate 2 false ++ true ∷ []) ++ replicate 3 false
        ∷ (true ∷ replicate 2 false) ∷ replicate 14 (replicate 2 true ++ false ∷ []) }
    ensures replies { map (replies Server (numbers_from 0 3)) (moments server04.turns) ≡ replicate 14 (replicate 3 []) ++ replicate 6 (((0
        ∷ 5 ∷ []) ∷ []) ∷ replicate 2 []) ++ replicate 33 (replicate 3 []) }
    ensures owed { map (owed_closes Server) (moments server04.turns) ≡ replicate 27 [] ++ replicate 2 ((0 ∷ 5 ∷ []) ∷ []) ++ replicate 18 []
        ++ replicate 6 ((1 ∷ 4 ∷ []) ∷ []) }
    ensures globals { map waiting_globals (moments server04.turns) ≡ replicate 53 (replicate 2 0) }
    ensures all_numbers_17 { allowed server04.ends Server (numbers_from 0 256) (whole (take 17 server04.turns)) ≡ numbers_from 0 5
        ++ numbers_from 8 13 ++ numbers_from 22 8 ++ numbers_from 32 19 ++ numbers_from 54 6 ++ numbers_from 61 195 }
    ensures all_numbers_53 { allowed server04.ends Server (numbers_from 0 256) (whole (take 53 server04.turns)) ≡ numbers_from 0 5
        ++ numbers_from 8 12 ++ numbers_from 22 9 }
    ensures first_offer { offer server04.ends Server true [] ≡ proposing (codes "k1" ∷ codes "k2" ∷ codes "k3"
        ∷ codes "kex-strict-s-v00@openssh.com" ∷ []) (codes "h1" ∷ codes "h3" ∷ codes "h2" ∷ []) (codes "e2" ∷ codes "e1" ∷ []) (codes "e2"
        ∷ codes "e1" ∷ []) (codes "m1" ∷ codes "m3" ∷ codes "m2" ∷ []) (codes "m1" ∷ codes "m3" ∷ codes "m2" ∷ []) }
    ensures later_offer { offer server04.ends Server false [] ≡ proposing (codes "k1" ∷ codes "k2" ∷ codes "k3" ∷ []) (codes "h1"
        ∷ codes "h3" ∷ codes "h2" ∷ []) (codes "e2" ∷ codes "e1" ∷ []) (codes "e2" ∷ codes "e1" ∷ []) (codes "m1" ∷ codes "m3" ∷ codes "m2"
        ∷ []) (codes "m1" ∷ codes "m3" ∷ codes "m2" ∷ []) }
    ensures texts { map exchange_text (exchanges server04.ends Server (whole server04.turns)) ≡ server04.text_2 ∷ server04.text_1
        ∷ server04.text_0 ∷ [] }
    ensures algorithms { map names_of (choices Server (whole server04.turns)) ≡ (codes "k1" ∷ codes "h3" ∷ replicate 2 (codes "e2")
        ++ codes "m3" ∷ codes "m2" ∷ replicate 2 (codes "none")) ∷ (codes "k3" ∷ codes "h2" ∷ codes "e2" ∷ codes "e1" ∷ codes "m3"
        ∷ codes "m2" ∷ replicate 2 (codes "none")) ∷ (codes "k2" ∷ codes "h3" ∷ codes "e1" ∷ codes "e2" ∷ codes "m1" ∷ codes "m2"
        ∷ replicate 2 (codes "none")) ∷ [] }
    ensures session { session_id (exchanges server04.ends Server (whole server04.turns)) ≡ sha256 server04.text_0 }
    ensures sending_key { sending_name server04.ends Server (whole server04.turns)
        ≡ named Server (sha256 server04.text_2) (sha256 server04.text_0) }
    ensures taking_key { taking_name server04.ends Server (whole server04.turns)
        ≡ named Client (sha256 server04.text_2) (sha256 server04.text_0) }
{}

/// Client05: values after each of 54 turns.
#[tactic(auto, unfolding(ssh_model::specs::Protocol::Channels::History::has_place, ssh_model::specs::Protocol::Channels::History::some_free, ssh_model::specs::Protocol::KeyExchange::Choice::methods, ssh_model::specs::Protocol::KeyExchange::Exchange::string_of))]
pub fn client05()
    ensures phases { map (phase client05.ends Client) (moments client05.turns) ≡ replicate 2 Start ++ Exchanging ∷ replicate 2 Keying
        ++ replicate 21 Normal ++ replicate 5 Exchanging ++ Keying ∷ replicate 22 Normal }
    ensures blocked { map blocked (moments client05.turns) ≡ replicate 3 true ++ replicate 23 false ++ replicate 5 true
        ++ replicate 23 false }
    ensures died { map has_died (moments client05.turns) ≡ replicate 53 false ++ true ∷ [] }
    ensures can_feed { map can_feed (moments client05.turns) ≡ replicate 24 true ++ replicate 2 false ++ replicate 26 true
        ++ replicate 2 false }
    ensures points { map (point_now client05.ends Client) (moments client05.turns) ≡ replicate 3 (replicate 32 220) ++ replicate 21 []
        ++ replicate 7 (replicate 32 128) ++ replicate 21 [] ++ replicate 2 (replicate 32 240) }
    ensures cookies { map next_cookie (moments client05.turns) ≡ replicate 24 [] ++ replicate 2 (replicate 16 93) ++ replicate 26 []
        ++ replicate 2 (replicate 16 222) }
    ensures other_lines { map other_lines (moments client05.turns) ≡ replicate 54 0 }
    ensures strict { map (is_strict Client) (moments client05.turns) ≡ replicate 2 false ++ replicate 52 true }
    ensures epochs_sent { map (λ h. epoch (sent h)) (moments client05.turns) ≡ replicate 3 0 ++ replicate 28 1 ++ replicate 23 2 }
    ensures epochs_taken { map (λ h. epoch (took h)) (moments client05.turns) ≡ replicate 5 0 ++ replicate 27 1 ++ replicate 22 2 }
    ensures counts_sent { map (λ h. count (sent h)) (moments client05.turns) ≡ replicate 2 1 ++ 2 ∷ replicate 3 0 ++ replicate 3 1
        ++ replicate 3 2 ++ replicate 2 3 ++ replicate 2 4 ++ replicate 7 5 ++ replicate 3 6 ++ replicate 3 8 ++ 9 ∷ 10 ∷ replicate 2 0 ++ 1
        ∷ replicate 2 2 ++ 3 ∷ replicate 2 4 ++ 5 ∷ 6 ∷ replicate 4 7 ++ replicate 4 8 ++ replicate 2 9 ++ replicate 2 10 ++ 11 ∷ [] }
    ensures counts_taken { map (λ h. count (took h)) (moments client05.turns) ≡ replicate 2 0 ++ 1 ∷ replicate 2 2 ++ replicate 3 0
        ++ replicate 2 1 ++ 2 ∷ replicate 2 3 ++ replicate 2 4 ++ replicate 3 5 ++ 6 ∷ 7 ∷ 8 ∷ 9 ∷ replicate 3 10 ++ 11 ∷ 12 ∷ 13 ∷ 14 ∷ 15
        ∷ 16 ∷ 17 ∷ replicate 3 0 ++ replicate 3 1 ++ 2 ∷ replicate 3 3 ++ replicate 2 4 ++ replicate 2 5 ++ 6 ∷ 7 ∷ replicate 2 8 ++ 9
        ∷ replicate 3 10 }
    ensures later_sent { map (λ h. length (after_first (sent h))) (moments client05.turns) ≡ replicate 6 0 ++ replicate 3 1 ++ replicate 3 2
        ++ replicate 2 3 ++ replicate 2 4 ++ replicate 7 5 ++ replicate 3 6 ++ replicate 3 8 ++ 9 ∷ 10 ∷ replicate 2 11 ++ 12
        ∷ replicate 2 13 ++ 14 ∷ replicate 2 15 ++ 16 ∷ 17 ∷ replicate 4 18 ++ replicate 4 19 ++ replicate 2 20 ++ replicate 2 21 ++ 22
        ∷ [] }
    ensures later_taken { map (λ h. length (after_first (took h))) (moments client05.turns) ≡ replicate 8 0 ++ replicate 2 1 ++ 2
        ∷ replicate 2 3 ++ replicate 2 4 ++ replicate 3 5 ++ 6 ∷ 7 ∷ 8 ∷ 9 ∷ replicate 3 10 ++ 11 ∷ 12 ∷ 13 ∷ 14 ∷ 15 ∷ 16 ∷ 17
        ∷ replicate 3 18 ++ replicate 3 19 ++ 20 ∷ replicate 3 21 ++ replicate 2 22 ++ replicate 2 23 ++ 24 ∷ 25 ∷ replicate 2 26 ++ 27
        ∷ replicate 3 28 }
    ensures numbers_sent { map (sending_number Client) (moments client05.turns) ≡ replicate 2 1 ++ 2 ∷ replicate 3 0 ++ replicate 3 1
        ++ replicate 3 2 ++ replicate 2 3 ++ replicate 2 4 ++ replicate 7 5 ++ replicate 3 6 ++ replicate 3 8 ++ 9 ∷ 10 ∷ replicate 2 0 ++ 1
        ∷ replicate 2 2 ++ 3 ∷ replicate 2 4 ++ 5 ∷ 6 ∷ replicate 4 7 ++ replicate 4 8 ++ replicate 2 9 ++ replicate 2 10 ++ 11 ∷ [] }
    ensures numbers_taken { map (taking_number Client) (moments client05.turns) ≡ replicate 2 0 ++ 1 ∷ replicate 2 2 ++ replicate 3 0
        ++ replicate 2 1 ++ 2 ∷ replicate 2 3 ++ replicate 2 4 ++ replicate 3 5 ++ 6 ∷ 7 ∷ 8 ∷ 9 ∷ replicate 3 10 ++ 11 ∷ 12 ∷ 13 ∷ 14 ∷ 15
        ∷ 16 ∷ 17 ∷ replicate 3 0 ++ replicate 3 1 ++ 2 ∷ replicate 3 3 ++ replicate 2 4 ++ replicate 2 5 ++ 6 ∷ 7 ∷ replicate 2 8 ++ 9
        ∷ replicate 3 10 }
    ensures keys_sent { map (sending_key client05.ends Client) (moments client05.turns) ≡ replicate 3 None
        ++ replicate 28 (Some (codes "e2m3")) ++ replicate 23 (Some (codes "e2m2")) }
    ensures keys_taken { map (taking_key client05.ends Client) (moments client05.turns) ≡ replicate 5 None
        ++ replicate 49 (Some (codes "e2m3")) }
    ensures may_take { map (allowed client05.ends Client client05.numbers) (moments client05.turns) ≡ replicate 2 (20 ∷ []) ++ (31 ∷ [])
        ∷ replicate 2 [] ++ replicate 13 (0 ∷ 29 ∷ 32 ∷ 54 ∷ 79 ∷ []) ++ replicate 8 (0 ∷ 20 ∷ 29 ∷ 32 ∷ 54 ∷ 79 ∷ 90 ∷ 191 ∷ 255 ∷ [])
        ++ replicate 5 (0 ∷ 29 ∷ 31 ∷ []) ++ (0 ∷ 29 ∷ []) ∷ replicate 22 (0 ∷ 20 ∷ 29 ∷ 32 ∷ 54 ∷ 79 ∷ 90 ∷ 191 ∷ 255 ∷ []) }
    ensures extensions { map (may_take_extensions Client) (moments client05.turns) ≡ replicate 54 false }
    ensures announces { map (announces client05.ends Client) (moments client05.turns) ≡ replicate 54 false }
    ensures requested { map (service_requested Client) (moments client05.turns) ≡ replicate 6 false ++ replicate 48 true }
    ensures accepted { map took_service_accept (moments client05.turns) ≡ replicate 8 false ++ replicate 46 true }
    ensures authenticated { map (authenticated Client) (moments client05.turns) ≡ replicate 18 false ++ replicate 36 true }
    ensures failures { map failures (moments client05.turns) ≡ replicate 54 0 }
    ensures outstanding { map (λ h. request_number (outstanding h)) (moments client05.turns) ≡ replicate 9 0 ++ 2 ∷ replicate 2 0 ++ 1 ∷ 0
        ∷ 3 ∷ 0 ∷ replicate 2 3 ++ replicate 36 0 }
    ensures refused { map (verdicts client05.ends Client client05.messages) (moments client05.turns) ≡ replicate 2 (replicate 2 9
        ++ replicate 8 7 ++ 0 ∷ replicate 3 7) ++ (replicate 5 7 ++ 10 ∷ 0 ∷ 10 ∷ replicate 2 7 ++ 0 ∷ replicate 3 7)
        ∷ replicate 2 (replicate 10 7 ++ 0 ∷ replicate 3 7) ++ replicate 13 (replicate 8 7 ++ 0 ∷ 7 ∷ 0 ∷ replicate 3 7) ++ replicate 5 (12
        ∷ 8 ∷ replicate 3 16 ++ replicate 3 7 ++ 0 ∷ 16 ∷ 0 ∷ replicate 3 7) ++ (12 ∷ 8 ∷ 16 ∷ 0 ∷ 16 ∷ replicate 3 7 ++ 0 ∷ 7 ∷ 0
        ∷ replicate 3 7) ∷ replicate 2 (0 ∷ 8 ∷ 16 ∷ 0 ∷ 16 ∷ replicate 3 7 ++ 0 ∷ 7 ∷ 0 ∷ replicate 3 7) ++ replicate 5 (replicate 5 7
        ++ 10 ∷ 0 ∷ 10 ∷ 0 ∷ 7 ∷ 0 ∷ replicate 3 7) ++ (replicate 8 7 ++ 0 ∷ 7 ∷ 0 ∷ replicate 3 7) ∷ (12 ∷ 8 ∷ 16 ∷ 0 ∷ 16 ∷ replicate 3 7
        ++ 0 ∷ 7 ∷ 0 ∷ replicate 3 7) ∷ (12 ∷ 8 ∷ 16 ∷ 0 ∷ 18 ∷ replicate 3 7 ++ 0 ∷ 7 ∷ 0 ∷ replicate 3 7) ∷ replicate 2 (12 ∷ 8 ∷ 16 ∷ 0
        ∷ 18 ∷ replicate 3 7 ++ replicate 3 0 ++ replicate 3 7) ++ (12 ∷ 8 ∷ 16 ∷ replicate 2 0 ++ replicate 3 7 ++ replicate 3 0
        ++ replicate 3 7) ∷ (12 ∷ 8 ∷ 16 ∷ replicate 2 0 ++ replicate 3 7 ++ replicate 3 0 ++ replicate 2 7 ++ 0 ∷ []) ∷ (12 ∷ 8 ∷ 16 ∷ 0
        ∷ 18 ∷ replicate 3 7 ++ replicate 3 0 ++ replicate 2 7 ++ 0 ∷ []) ∷ replicate 5 (12 ∷ 8 ∷ 16 ∷ 0 ∷ 16 ∷ replicate 3 7
        ++ replicate 3 0 ++ replicate 2 7 ++ 0 ∷ []) ++ replicate 3 (12 ∷ 8 ∷ 16 ∷ 7 ∷ 16 ∷ replicate 3 7 ++ replicate 3 0 ++ replicate 2 7
        ++ 0 ∷ []) ++ replicate 2 (12 ∷ 8 ∷ 16 ∷ 7 ∷ 16 ∷ replicate 3 7 ++ 0 ∷ 7 ∷ 0 ∷ replicate 2 7 ++ 0 ∷ []) ++ (12 ∷ 8 ∷ 16 ∷ 7 ∷ 16
        ∷ replicate 3 7 ++ replicate 3 0 ++ replicate 2 7 ++ 0 ∷ []) ∷ (12 ∷ 8 ∷ 16 ∷ 7 ∷ 16 ∷ replicate 3 7 ++ 0 ∷ 7 ∷ 0 ∷ replicate 2 7
        ++ 0 ∷ []) ∷ (12 ∷ 8 ∷ replicate 3 16 ++ replicate 3 7 ++ 0 ∷ 16 ∷ 0 ∷ replicate 2 7 ++ 0 ∷ []) ∷ replicate 2 (0 ∷ 8
        ∷ replicate 3 16 ++ replicate 3 7 ++ 0 ∷ 16 ∷ 0 ∷ replicate 2 7 ++ 0 ∷ []) }
    ensures asks_refused { map (ask_verdicts client05.ends Client client05.asks) (moments client05.turns) ≡ replicate 5 (replicate 9 1)
        ++ (replicate 7 1 ++ 0 ∷ 1 ∷ []) ∷ replicate 12 (replicate 7 1 ++ 2 ∷ 1 ∷ []) ++ (replicate 2 3 ++ 8 ∷ 12 ∷ replicate 3 3 ++ 2 ∷ 3
        ∷ []) ∷ replicate 4 (replicate 2 3 ++ 8 ∷ 12 ∷ replicate 3 3 ++ 2 ∷ 0 ∷ []) ++ (0 ∷ 3 ∷ 8 ∷ 12 ∷ replicate 3 0 ++ 2 ∷ 3 ∷ [])
        ∷ replicate 2 (0 ∷ 3 ∷ 8 ∷ replicate 4 0 ++ 2 ∷ 3 ∷ []) ++ replicate 5 (replicate 9 2) ++ (0 ∷ 3 ∷ 8 ∷ 2 ∷ replicate 3 0 ++ 2 ∷ 3
        ∷ []) ∷ (0 ∷ 3 ∷ 8 ∷ 12 ∷ replicate 3 0 ++ 2 ∷ 3 ∷ []) ∷ replicate 6 (replicate 2 0 ++ 8 ∷ 12 ∷ replicate 3 0 ++ 2 ∷ 3 ∷ [])
        ++ replicate 2 (0 ∷ 3 ∷ 8 ∷ 12 ∷ replicate 3 0 ++ 2 ∷ 3 ∷ []) ++ replicate 10 (6 ∷ 3 ∷ 8 ∷ 12 ∷ 6 ∷ replicate 2 0 ++ 2 ∷ 3 ∷ [])
        ++ (replicate 2 3 ++ 8 ∷ 12 ∷ replicate 3 3 ++ 2 ∷ 3 ∷ []) ∷ (replicate 2 3 ++ 8 ∷ 0 ∷ replicate 3 3 ++ 2 ∷ 3 ∷ []) ∷ (replicate 3 9
        ++ 0 ∷ replicate 3 9 ++ 2 ∷ 9 ∷ []) ∷ [] }
    ensures channel_0 { map (channel_state Client 0) (moments client05.turns) ≡ replicate 19 [] ++ replicate 4 (2 ∷ 4 ∷ 5 ∷ 9 ∷ [])
        ++ replicate 11 (3 ∷ 4 ∷ replicate 2 5 ++ 8 ∷ 9 ∷ replicate 5 0) ++ replicate 6 (3 ∷ 4 ∷ replicate 2 5 ++ 8 ∷ 9 ∷ replicate 4 0 ++ 1
        ∷ []) ++ (3 ∷ 4 ∷ replicate 2 5 ++ 8 ∷ 9 ∷ replicate 4 0 ++ 2 ∷ []) ∷ (3 ∷ 4 ∷ replicate 2 5 ++ 8 ∷ 9 ∷ 1 ∷ replicate 3 0 ++ 2 ∷ [])
        ∷ replicate 2 (3 ∷ 4 ∷ 5 ∷ 4 ∷ 8 ∷ 9 ∷ 1 ∷ replicate 3 0 ++ 2 ∷ []) ++ replicate 2 (3 ∷ 4 ∷ 5 ∷ 4 ∷ 8 ∷ 9 ∷ 1 ∷ 0 ∷ 1 ∷ 0 ∷ 2 ∷ [])
        ++ (3 ∷ 4 ∷ 5 ∷ 4 ∷ 8 ∷ 9 ∷ 1 ∷ 0 ∷ 1 ∷ 0 ∷ 1 ∷ []) ∷ (3 ∷ 4 ∷ 5 ∷ 4 ∷ 8 ∷ 9 ∷ 1 ∷ 0 ∷ 1 ∷ replicate 2 0) ∷ (3 ∷ 4294967292 ∷ 5 ∷ 4
        ∷ 8 ∷ 9 ∷ 1 ∷ 0 ∷ 1 ∷ replicate 2 0) ∷ (3 ∷ 4294967292 ∷ 5 ∷ 4 ∷ 8 ∷ 9 ∷ 1 ∷ 0 ∷ 1 ∷ 0 ∷ 1 ∷ []) ∷ (3 ∷ 4294967292 ∷ 5 ∷ 4 ∷ 8 ∷ 9
        ∷ 1 ∷ 0 ∷ 1 ∷ replicate 2 0) ∷ replicate 3 [] }
    ensures channel_1 { map (channel_state Client 1) (moments client05.turns) ≡ replicate 20 [] ++ replicate 13 (2 ∷ 8 ∷ 4 ∷ 1 ∷ [])
        ++ replicate 2 (3 ∷ 8 ∷ 4 ∷ 9 ∷ 8 ∷ 1 ∷ replicate 5 0) ++ (3 ∷ 8 ∷ 4 ∷ replicate 2 8 ++ 1 ∷ replicate 5 0) ∷ replicate 2 (3 ∷ 7 ∷ 4
        ∷ replicate 2 8 ++ 1 ∷ replicate 5 0) ++ (3 ∷ 8 ∷ 4 ∷ replicate 2 8 ++ 1 ∷ replicate 5 0) ∷ replicate 15 [] }
    ensures channel_2 { map (channel_state Client 2) (moments client05.turns) ≡ replicate 54 [] }
    ensures held { map (held Client (numbers_from 0 3)) (moments client05.turns) ≡ replicate 19 (replicate 3 false) ++ (true
        ∷ replicate 2 false) ∷ replicate 19 (replicate 2 true ++ false ∷ []) ++ replicate 12 (true ∷ replicate 2 false)
        ++ replicate 3 (replicate 3 false) }
    ensures replies { map (replies Client (numbers_from 0 3)) (moments client05.turns) ≡ replicate 23 (replicate 3 []) ++ replicate 3 (((0
        ∷ 9 ∷ []) ∷ []) ∷ replicate 2 []) ++ replicate 5 (replicate 3 []) ++ replicate 2 (((0 ∷ 9 ∷ []) ∷ []) ∷ replicate 2 [])
        ++ replicate 6 (((0 ∷ 9 ∷ []) ∷ []) ∷ (replicate 2 1 ∷ []) ∷ [] ∷ []) ++ replicate 12 (((0 ∷ 9 ∷ []) ∷ []) ∷ replicate 2 [])
        ++ replicate 3 (replicate 3 []) }
    ensures owed { map (owed_closes Client) (moments client05.turns) ≡ replicate 54 [] }
    ensures globals { map waiting_globals (moments client05.turns) ≡ replicate 37 (replicate 2 0) ++ replicate 17 (0 ∷ 1 ∷ []) }
    ensures all_numbers_3 { allowed client05.ends Client (numbers_from 0 256) (whole (take 3 client05.turns)) ≡ numbers_from 1 1
        ++ numbers_from 31 1 }
    ensures all_numbers_54 { allowed client05.ends Client (numbers_from 0 256) (whole (take 54 client05.turns)) ≡ numbers_from 0 5
        ++ numbers_from 8 13 ++ numbers_from 22 8 ++ numbers_from 32 18 ++ numbers_from 54 6 ++ numbers_from 61 195 }
    ensures first_offer { offer client05.ends Client true [] ≡ proposing (codes "k1" ∷ codes "k2" ∷ codes "kex-strict-c-v00@openssh.com"
        ∷ []) (codes "h1" ∷ []) (codes "e2" ∷ codes "e1" ∷ []) (codes "e2" ∷ codes "e1" ∷ []) (codes "m3" ∷ codes "m2" ∷ codes "m1"
        ∷ []) (codes "m3" ∷ codes "m2" ∷ codes "m1" ∷ []) }
    ensures later_offer { offer client05.ends Client false [] ≡ proposing (codes "k1" ∷ codes "k2" ∷ []) (codes "h1" ∷ []) (codes "e2"
        ∷ codes "e1" ∷ []) (codes "e2" ∷ codes "e1" ∷ []) (codes "m3" ∷ codes "m2" ∷ codes "m1" ∷ []) (codes "m3" ∷ codes "m2" ∷ codes "m1"
        ∷ []) }
    ensures texts { map exchange_text (exchanges client05.ends Client (whole client05.turns)) ≡ client05.text_1 ∷ client05.text_0 ∷ [] }
    ensures algorithms { map names_of (choices Client (whole client05.turns)) ≡ (codes "k1" ∷ codes "h1" ∷ replicate 2 (codes "e2")
        ++ codes "m2" ∷ codes "m3" ∷ replicate 2 (codes "none")) ∷ (codes "k1" ∷ codes "h1" ∷ replicate 2 (codes "e2")
        ++ replicate 2 (codes "m3") ++ replicate 2 (codes "none")) ∷ [] }
    ensures session { session_id (exchanges client05.ends Client (whole client05.turns)) ≡ sha256 client05.text_0 }
    ensures sending_key { sending_name client05.ends Client (whole client05.turns)
        ≡ named Client (sha256 client05.text_1) (sha256 client05.text_0) }
    ensures taking_key { taking_name client05.ends Client (whole client05.turns)
        ≡ named Server (sha256 client05.text_1) (sha256 client05.text_0) }
{}
