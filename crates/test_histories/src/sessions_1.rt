//! Drawn sessions and their tables, written by tools/second_reading.

ghost use Rattle.std.specs.Prelude.{map, ◌≡◌, replicate, ◌++◌, ◌∷◌, true, false, [], length, None, Some, codes, take};
ghost use Rattle.ssh_model.specs.Protocol.Sessions.Phases.{phase, Phase.Start, Phase.Exchanging, Phase.Keying, Phase.Normal};
ghost use Rattle.ssh_model.specs.Protocol.Sessions.Phases.{blocked, other_lines, may_take_extensions, service_requested};
ghost use Rattle.ssh_model.specs.Protocol.Sessions.Phases.{took_service_accept, authenticated, failures, outstanding};
ghost use Rattle.ssh_model.specs.Protocol.Sessions.Phases.{Phase.Guessed, sent_service_accept};
ghost use Rattle.ssh_model.specs.declared.side.Side.TheVariants.{Client, Server};
ghost use Rattle.test_histories.specs.Words.{moments, allowed, request_number, verdicts, ask_verdicts, channel_state, held};
ghost use Rattle.test_histories.specs.Words.{numbers_from, replies, owed_closes, waiting_globals, whole, proposing, names_of};
ghost use Rattle.test_histories.specs.Words.{named};
ghost use Rattle.ssh_model.specs.Protocol.Sessions.Items.{has_died, sent, took};
ghost use Rattle.ssh_model.specs.Protocol.Sessions.Turns.{can_feed};
ghost use Rattle.ssh_model.specs.Protocol.Sessions.Transport.{point_now, next_cookie, announces};
ghost use Rattle.ssh_model.specs.Protocol.KeyExchange.Exchanges.{is_strict, sending_number, taking_number, sending_key};
ghost use Rattle.ssh_model.specs.Protocol.KeyExchange.Exchanges.{taking_key, exchanges, choices, session_id, sending_name};
ghost use Rattle.ssh_model.specs.Protocol.KeyExchange.Exchanges.{taking_name};
ghost use Rattle.ssh_model.specs.Protocol.Sessions.Epochs.{epoch, count, after_first};
ghost use Rattle.ssh_model.specs.Protocol.Sessions.Parties.{offer};
ghost use Rattle.ssh_model.specs.Protocol.KeyExchange.Exchange.{exchange_text};
ghost use Rattle.sha2.specs.Sha256.{sha256};
ghost use Rattle.test_histories.specs.Drawn.Client01 as client01;
ghost use Rattle.test_histories.specs.Drawn.Server01 as server01;
ghost use Rattle.test_histories.specs.Drawn.Client02 as client02;

/// Client01: values after each of 56 turns.
#[tactic(auto, unfolding(ssh_model::specs::Protocol::Channels::History::has_place, ssh_model::specs::Protocol::Channels::History::some_free, ssh_model::specs::Protocol::KeyExchange::Choice::methods, ssh_model::specs::Protocol::KeyExchange::Exchange::string_of))]
pub fn client01()
    ensures phases { map (phase client01.ends Client) (moments client01.turns) ≡ replicate 3 Start ++ replicate 4 Exchanging ++ Keying
        ∷ replicate 28 Normal ++ Exchanging ∷ replicate 4 Keying ++ replicate 15 Normal }
    ensures blocked { map blocked (moments client01.turns) ≡ replicate 7 true ++ replicate 29 false ++ true ∷ replicate 16 false
        ++ replicate 3 true }
    ensures died { map has_died (moments client01.turns) ≡ replicate 55 false ++ true ∷ [] }
    ensures can_feed { map can_feed (moments client01.turns) ≡ replicate 31 true ++ replicate 5 false ++ replicate 4 true
        ++ replicate 13 false ++ replicate 2 true ++ false ∷ [] }
    ensures points { map (point_now client01.ends Client) (moments client01.turns) ≡ replicate 7 (replicate 32 111) ++ replicate 24 []
        ++ replicate 6 (replicate 32 197) ++ replicate 3 [] ++ replicate 16 (replicate 32 179) }
    ensures cookies { map next_cookie (moments client01.turns) ≡ replicate 31 [] ++ replicate 5 (replicate 16 198) ++ replicate 4 []
        ++ replicate 13 (replicate 16 113) ++ replicate 3 [] }
    ensures other_lines { map other_lines (moments client01.turns) ≡ 0 ∷ replicate 55 1 }
    ensures strict { map (is_strict Client) (moments client01.turns) ≡ replicate 56 false }
    ensures epochs_sent { map (λ h. epoch (sent h)) (moments client01.turns) ≡ replicate 7 0 ++ replicate 30 1 ++ replicate 19 2 }
    ensures epochs_taken { map (λ h. epoch (took h)) (moments client01.turns) ≡ replicate 8 0 ++ replicate 33 1 ++ replicate 15 2 }
    ensures counts_sent { map (λ h. count (sent h)) (moments client01.turns) ≡ replicate 3 1 ++ replicate 4 2 ++ replicate 2 0
        ++ replicate 8 1 ++ replicate 3 2 ++ replicate 2 3 ++ 4 ∷ replicate 4 5 ++ replicate 2 6 ++ replicate 4 7 ++ replicate 3 8 ++ 10 ∷ 0
        ∷ 1 ∷ replicate 3 2 ++ replicate 2 3 ++ replicate 2 4 ++ replicate 4 5 ++ 6 ∷ 7 ∷ 8 ∷ replicate 2 9 ++ 10 ∷ [] }
    ensures counts_taken { map (λ h. count (took h)) (moments client01.turns) ≡ replicate 3 0 ++ 1 ∷ replicate 2 2 ++ 3 ∷ 4 ∷ replicate 2 0
        ++ 1 ∷ 2 ∷ 3 ∷ 4 ∷ replicate 2 5 ++ 6 ∷ 7 ∷ replicate 3 8 ++ replicate 3 9 ++ 10 ∷ 11 ∷ 12 ∷ 13 ∷ replicate 2 14 ++ replicate 2 15
        ++ replicate 2 16 ++ 17 ∷ 18 ∷ 19 ∷ replicate 4 20 ++ replicate 2 0 ++ 1 ∷ 2 ∷ replicate 3 3 ++ 4 ∷ 5 ∷ 6 ∷ replicate 3 7
        ++ replicate 2 8 }
    ensures later_sent { map (λ h. length (after_first (sent h))) (moments client01.turns) ≡ replicate 9 0 ++ replicate 8 1 ++ replicate 3 2
        ++ replicate 2 3 ++ 4 ∷ replicate 4 5 ++ replicate 2 6 ++ replicate 4 7 ++ replicate 3 8 ++ 10 ∷ 11 ∷ 12 ∷ replicate 3 13
        ++ replicate 2 14 ++ replicate 2 15 ++ replicate 4 16 ++ 17 ∷ 18 ∷ 19 ∷ replicate 2 20 ++ 21 ∷ [] }
    ensures later_taken { map (λ h. length (after_first (took h))) (moments client01.turns) ≡ replicate 10 0 ++ 1 ∷ 2 ∷ 3 ∷ 4
        ∷ replicate 2 5 ++ 6 ∷ 7 ∷ replicate 3 8 ++ replicate 3 9 ++ 10 ∷ 11 ∷ 12 ∷ 13 ∷ replicate 2 14 ++ replicate 2 15 ++ replicate 2 16
        ++ 17 ∷ 18 ∷ 19 ∷ replicate 4 20 ++ replicate 2 21 ++ 22 ∷ 23 ∷ replicate 3 24 ++ 25 ∷ 26 ∷ 27 ∷ replicate 3 28 ++ replicate 2 29 }
    ensures numbers_sent { map (sending_number Client) (moments client01.turns) ≡ replicate 3 1 ++ replicate 4 2 ++ replicate 2 3
        ++ replicate 8 4 ++ replicate 3 5 ++ replicate 2 6 ++ 7 ∷ replicate 4 8 ++ replicate 2 9 ++ replicate 4 10 ++ replicate 3 11 ++ 13
        ∷ 14 ∷ 15 ∷ replicate 3 16 ++ replicate 2 17 ++ replicate 2 18 ++ replicate 4 19 ++ 20 ∷ 21 ∷ 22 ∷ replicate 2 23 ++ 24 ∷ [] }
    ensures numbers_taken { map (taking_number Client) (moments client01.turns) ≡ replicate 3 0 ++ 1 ∷ replicate 2 2 ++ 3 ∷ 4
        ∷ replicate 2 5 ++ 6 ∷ 7 ∷ 8 ∷ 9 ∷ replicate 2 10 ++ 11 ∷ 12 ∷ replicate 3 13 ++ replicate 3 14 ++ 15 ∷ 16 ∷ 17 ∷ 18
        ∷ replicate 2 19 ++ replicate 2 20 ++ replicate 2 21 ++ 22 ∷ 23 ∷ 24 ∷ replicate 4 25 ++ replicate 2 26 ++ 27 ∷ 28 ∷ replicate 3 29
        ++ 30 ∷ 31 ∷ 32 ∷ replicate 3 33 ++ replicate 2 34 }
    ensures keys_sent { map (sending_key client01.ends Client) (moments client01.turns) ≡ replicate 7 None
        ++ replicate 49 (Some (codes "e2m3")) }
    ensures keys_taken { map (taking_key client01.ends Client) (moments client01.turns) ≡ replicate 8 None
        ++ replicate 48 (Some (codes "e2m3")) }
    ensures may_take { map (allowed client01.ends Client client01.numbers) (moments client01.turns) ≡ replicate 3 [] ++ replicate 4 (31
        ∷ []) ++ (21 ∷ []) ∷ replicate 12 (32 ∷ 61 ∷ 79 ∷ []) ++ (32 ∷ 52 ∷ 61 ∷ 79 ∷ []) ∷ replicate 15 (32 ∷ 61 ∷ 79 ∷ 80 ∷ 82 ∷ 83 ∷ 90
        ∷ 192 ∷ []) ++ (31 ∷ []) ∷ replicate 4 (21 ∷ []) ++ replicate 15 (32 ∷ 61 ∷ 79 ∷ 80 ∷ 82 ∷ 83 ∷ 90 ∷ 192 ∷ []) }
    ensures extensions { map (may_take_extensions Client) (moments client01.turns) ≡ replicate 56 false }
    ensures announces { map (announces client01.ends Client) (moments client01.turns) ≡ replicate 56 false }
    ensures requested { map (service_requested Client) (moments client01.turns) ≡ replicate 9 false ++ replicate 47 true }
    ensures accepted { map took_service_accept (moments client01.turns) ≡ replicate 11 false ++ replicate 45 true }
    ensures authenticated { map (authenticated Client) (moments client01.turns) ≡ replicate 21 false ++ replicate 35 true }
    ensures failures { map failures (moments client01.turns) ≡ replicate 56 0 }
    ensures outstanding { map (λ h. request_number (outstanding h)) (moments client01.turns) ≡ replicate 20 0 ++ 3 ∷ replicate 35 0 }
    ensures refused { map (verdicts client01.ends Client client01.messages) (moments client01.turns) ≡ replicate 3 (replicate 2 0
        ++ replicate 10 7 ++ 0 ∷ 7 ∷ []) ++ replicate 4 (replicate 5 7 ++ 10 ∷ 0 ∷ 10 ∷ replicate 4 7 ++ 0 ∷ 7 ∷ []) ++ (replicate 9 7 ++ 0
        ∷ replicate 2 7 ++ 0 ∷ 7 ∷ []) ∷ replicate 3 (replicate 11 7 ++ replicate 2 0 ++ 7 ∷ []) ++ replicate 9 (replicate 10 7
        ++ replicate 3 0 ++ 7 ∷ []) ++ (replicate 8 7 ++ 0 ∷ 7 ∷ replicate 3 0 ++ 7 ∷ []) ∷ replicate 3 (replicate 2 12 ++ replicate 3 16
        ++ replicate 6 7 ++ replicate 3 0) ++ replicate 2 (replicate 2 12 ++ 16 ∷ replicate 2 0 ++ replicate 6 7 ++ replicate 3 0)
        ++ (replicate 2 12 ++ 16 ∷ 7 ∷ 0 ∷ replicate 6 7 ++ replicate 3 0) ∷ replicate 4 (replicate 2 12 ++ replicate 3 16 ++ replicate 6 7
        ++ replicate 3 0) ++ replicate 4 (replicate 2 0 ++ replicate 3 16 ++ replicate 6 7 ++ replicate 3 0) ++ (replicate 3 0
        ++ replicate 2 16 ++ replicate 6 7 ++ replicate 3 0) ∷ (replicate 5 7 ++ 10 ∷ 0 ∷ 10 ∷ replicate 4 7 ++ 0 ∷ 7 ∷ [])
        ∷ replicate 4 (replicate 9 7 ++ 0 ∷ replicate 2 7 ++ 0 ∷ 7 ∷ []) ++ replicate 10 (replicate 3 0 ++ replicate 2 16 ++ replicate 6 7
        ++ replicate 3 0) ++ replicate 5 (replicate 2 0 ++ replicate 3 16 ++ replicate 6 7 ++ replicate 3 0) }
    ensures asks_refused { map (ask_verdicts client01.ends Client client01.asks) (moments client01.turns) ≡ replicate 11 (replicate 4 1 ++ 0
        ∷ replicate 4 1) ++ replicate 9 (replicate 3 1 ++ replicate 2 0 ++ replicate 2 1 ++ replicate 2 0) ++ (replicate 3 1 ++ 2 ∷ 0
        ∷ replicate 2 1 ++ replicate 2 2) ∷ replicate 3 (replicate 3 3 ++ 6 ∷ 0 ∷ 3 ∷ 10 ∷ replicate 2 6) ++ replicate 3 (0 ∷ replicate 2 3
        ++ 6 ∷ 0 ∷ 3 ∷ 10 ∷ replicate 2 6) ++ replicate 8 (replicate 3 3 ++ 6 ∷ 0 ∷ 3 ∷ 10 ∷ replicate 2 6) ++ (3 ∷ 0 ∷ 3 ∷ 6
        ∷ replicate 2 0 ++ 10 ∷ replicate 2 6) ∷ (replicate 3 2 ++ 6 ∷ 0 ∷ replicate 2 2 ++ replicate 2 6) ∷ replicate 14 (3 ∷ 0 ∷ 3 ∷ 6
        ∷ replicate 2 0 ++ 10 ∷ replicate 2 6) ++ replicate 2 (replicate 3 3 ++ 6 ∷ 0 ∷ 3 ∷ 10 ∷ replicate 2 6)
        ++ replicate 3 (replicate 3 2 ++ 6 ∷ 0 ∷ replicate 2 2 ++ replicate 2 6) }
    ensures channel_0 { map (channel_state Client 0) (moments client01.turns) ≡ replicate 23 [] ++ replicate 5 (1 ∷ 4 ∷ 6 ∷ [])
        ++ replicate 2 (3 ∷ 5 ∷ 7 ∷ 4 ∷ 6 ∷ 5 ∷ replicate 5 0) ++ replicate 2 (3 ∷ 5 ∷ 7 ∷ 4 ∷ 6 ∷ 5 ∷ replicate 3 0 ++ 1 ∷ 0 ∷ []) ++ (3
        ∷ 5 ∷ 7 ∷ 3 ∷ 6 ∷ 5 ∷ replicate 3 0 ++ 1 ∷ 0 ∷ []) ∷ (3 ∷ 5 ∷ 7 ∷ 3 ∷ 6 ∷ 5 ∷ replicate 3 0 ++ replicate 2 1) ∷ replicate 5 (3 ∷ 12
        ∷ 7 ∷ 3 ∷ 6 ∷ 5 ∷ replicate 3 0 ++ replicate 2 1) ++ replicate 3 (3 ∷ 11 ∷ 7 ∷ 3 ∷ 6 ∷ 5 ∷ replicate 3 0 ++ replicate 2 1)
        ++ replicate 8 (3 ∷ replicate 2 7 ++ 3 ∷ 6 ∷ 5 ∷ replicate 3 0 ++ replicate 2 1) ++ replicate 2 [] ++ replicate 4 (1 ∷ 10 ∷ 8
        ∷ []) }
    ensures channel_1 { map (channel_state Client 1) (moments client01.turns) ≡ replicate 22 [] ++ replicate 2 (1 ∷ 6 ∷ 4 ∷ []) ++ (3
        ∷ replicate 2 7 ++ 6 ∷ 4 ∷ 8 ∷ replicate 5 0) ∷ (3 ∷ replicate 2 7 ++ 6 ∷ 4 ∷ 8 ∷ replicate 3 0 ++ 1 ∷ 0 ∷ []) ∷ (3 ∷ replicate 2 7
        ++ 6 ∷ 4 ∷ 8 ∷ replicate 2 0 ++ replicate 2 1 ++ 0 ∷ []) ∷ replicate 29 [] }
    ensures channel_2 { map (channel_state Client 2) (moments client01.turns) ≡ replicate 29 [] ++ replicate 6 (1 ∷ 7 ∷ 6 ∷ [])
        ++ replicate 10 (3 ∷ 9 ∷ 4 ∷ 7 ∷ 6 ∷ 4 ∷ replicate 5 0) ++ (3 ∷ 9 ∷ 4 ∷ 3 ∷ 6 ∷ 4 ∷ replicate 5 0) ∷ replicate 3 (3 ∷ 5 ∷ 4 ∷ 3 ∷ 6
        ∷ 4 ∷ replicate 5 0) ++ replicate 2 (3 ∷ 5 ∷ 4 ∷ 2 ∷ 6 ∷ 4 ∷ replicate 5 0) ++ replicate 5 [] }
    ensures held { map (held Client (numbers_from 0 3)) (moments client01.turns) ≡ replicate 22 (replicate 3 false) ++ (false ∷ true ∷ false
        ∷ []) ∷ replicate 4 (replicate 2 true ++ false ∷ []) ++ replicate 2 (true ∷ replicate 2 false) ++ replicate 21 (true ∷ false ∷ true
        ∷ []) ++ (replicate 2 false ++ true ∷ []) ∷ replicate 3 false ∷ replicate 4 (true ∷ replicate 2 false) }
    ensures replies { map (replies Client (numbers_from 0 3)) (moments client01.turns) ≡ replicate 24 (replicate 3 []) ++ replicate 3 ([]
        ∷ ((1 ∷ 8 ∷ []) ∷ []) ∷ [] ∷ []) ++ replicate 3 [] ∷ replicate 7 (((0 ∷ 5 ∷ []) ∷ []) ∷ replicate 2 []) ++ (((0 ∷ 5 ∷ []) ∷ []) ∷ []
        ∷ ((2 ∷ 4 ∷ []) ∷ []) ∷ []) ∷ replicate 3 [] ∷ replicate 13 (((0 ∷ 5 ∷ []) ∷ []) ∷ [] ∷ ((2 ∷ 4 ∷ []) ∷ []) ∷ []) ++ (replicate 2 []
        ++ ((2 ∷ 4 ∷ []) ∷ []) ∷ []) ∷ replicate 5 (replicate 3 []) }
    ensures owed { map (owed_closes Client) (moments client01.turns) ≡ replicate 56 [] }
    ensures globals { map waiting_globals (moments client01.turns) ≡ replicate 38 (replicate 2 0) ++ replicate 16 (0 ∷ 1 ∷ [])
        ++ replicate 2 (replicate 2 0) }
    ensures all_numbers_2 { allowed client01.ends Client (numbers_from 0 256) (whole (take 2 client01.turns)) ≡ numbers_from 1 4
        ++ numbers_from 20 1 }
    ensures all_numbers_56 { allowed client01.ends Client (numbers_from 0 256) (whole (take 56 client01.turns)) ≡ numbers_from 0 5
        ++ numbers_from 8 13 ++ numbers_from 22 8 ++ numbers_from 32 18 ++ numbers_from 54 6 ++ numbers_from 61 195 }
    ensures first_offer { offer client01.ends Client true [] ≡ proposing (codes "k2" ∷ codes "k1" ∷ []) (codes "h2" ∷ []) (codes "e2"
        ∷ []) (codes "e2" ∷ []) (codes "m3" ∷ codes "m1" ∷ []) (codes "m3" ∷ codes "m1" ∷ []) }
    ensures later_offer { offer client01.ends Client false [] ≡ proposing (codes "k2" ∷ codes "k1" ∷ []) (codes "h2" ∷ []) (codes "e2"
        ∷ []) (codes "e2" ∷ []) (codes "m3" ∷ codes "m1" ∷ []) (codes "m3" ∷ codes "m1" ∷ []) }
    ensures texts { map exchange_text (exchanges client01.ends Client (whole client01.turns)) ≡ client01.text_1 ∷ client01.text_0 ∷ [] }
    ensures algorithms { map names_of (choices Client (whole client01.turns)) ≡ replicate 2 (codes "k2" ∷ codes "h2"
        ∷ replicate 2 (codes "e2") ++ replicate 2 (codes "m3") ++ replicate 2 (codes "none")) }
    ensures session { session_id (exchanges client01.ends Client (whole client01.turns)) ≡ sha256 client01.text_0 }
    ensures sending_key { sending_name client01.ends Client (whole client01.turns)
        ≡ named Client (sha256 client01.text_1) (sha256 client01.text_0) }
    ensures taking_key { taking_name client01.ends Client (whole client01.turns)
        ≡ named Server (sha256 client01.text_1) (sha256 client01.text_0) }
{}

/// Server01: values after each of 56 turns.
#[tactic(auto, unfolding(ssh_model::specs::Protocol::Channels::History::has_place, ssh_model::specs::Protocol::Channels::History::some_free, ssh_model::specs::Protocol::KeyExchange::Choice::methods, ssh_model::specs::Protocol::KeyExchange::Exchange::string_of))]
pub fn server01()
    ensures phases { map (phase server01.ends Server) (moments server01.turns) ≡ replicate 2 Start ++ Guessed ∷ Exchanging ∷ Keying
        ∷ replicate 27 Normal ++ replicate 2 Exchanging ++ replicate 3 Keying ++ replicate 5 Normal ++ replicate 3 Exchanging
        ++ replicate 2 Keying ++ replicate 3 Normal ++ Exchanging ∷ replicate 2 Keying ++ replicate 3 Normal }
    ensures blocked { map blocked (moments server01.turns) ≡ replicate 4 true ++ replicate 23 false ++ replicate 7 true ++ replicate 7 false
        ++ replicate 4 true ++ replicate 5 false ++ true ∷ replicate 5 false }
    ensures died { map has_died (moments server01.turns) ≡ replicate 56 false }
    ensures can_feed { map can_feed (moments server01.turns) ≡ replicate 25 true ++ replicate 2 false ++ replicate 9 true
        ++ replicate 5 false ++ replicate 3 true ++ replicate 6 false ++ replicate 6 true }
    ensures points { map (point_now server01.ends Server) (moments server01.turns) ≡ replicate 4 (replicate 32 134) ++ replicate 21 []
        ++ replicate 9 (replicate 32 165) ++ replicate 2 [] ++ replicate 9 (replicate 32 204) ++ replicate 6 (replicate 32 144)
        ++ replicate 5 [] }
    ensures cookies { map next_cookie (moments server01.turns) ≡ replicate 25 [] ++ replicate 2 (replicate 16 217) ++ replicate 9 []
        ++ replicate 5 (replicate 16 123) ++ replicate 3 [] ++ replicate 6 (replicate 16 125) ++ replicate 6 [] }
    ensures other_lines { map other_lines (moments server01.turns) ≡ replicate 56 0 }
    ensures strict { map (is_strict Server) (moments server01.turns) ≡ replicate 2 false ++ replicate 54 true }
    ensures epochs_sent { map (λ h. epoch (sent h)) (moments server01.turns) ≡ replicate 4 0 ++ replicate 30 1 ++ replicate 11 2
        ++ replicate 6 3 ++ replicate 5 4 }
    ensures epochs_taken { map (λ h. epoch (took h)) (moments server01.turns) ≡ replicate 5 0 ++ replicate 32 1 ++ replicate 10 2
        ++ replicate 6 3 ++ replicate 3 4 }
    ensures counts_sent { map (λ h. count (sent h)) (moments server01.turns) ≡ replicate 7 1 ++ 2 ∷ replicate 2 3 ++ 4 ∷ 5 ∷ 6
        ∷ replicate 7 7 ++ 8 ∷ replicate 2 9 ++ replicate 4 10 ++ replicate 7 11 ++ 0 ∷ replicate 6 1 ++ replicate 4 2 ++ 0 ∷ replicate 2 1
        ++ replicate 2 2 ++ 3 ∷ 0 ∷ replicate 4 1 }
    ensures counts_taken { map (λ h. count (took h)) (moments server01.turns) ≡ replicate 2 0 ++ 1 ∷ 2 ∷ 3 ∷ 0 ∷ 1 ∷ 2 ∷ 3 ∷ 4
        ∷ replicate 4 5 ++ 6 ∷ 7 ∷ 8 ∷ replicate 2 9 ++ replicate 2 10 ++ 11 ∷ 12 ∷ 13 ∷ replicate 2 14 ++ replicate 2 15 ++ replicate 2 16
        ++ replicate 2 17 ++ 18 ∷ 19 ∷ replicate 3 20 ++ 0 ∷ 1 ∷ 2 ∷ replicate 2 3 ++ 4 ∷ replicate 2 5 ++ replicate 2 6 ++ replicate 2 0
        ++ 1 ∷ 2 ∷ replicate 2 3 ++ 0 ∷ replicate 2 1 }
    ensures later_sent { map (λ h. length (after_first (sent h))) (moments server01.turns) ≡ replicate 4 0 ++ replicate 3 1 ++ 2
        ∷ replicate 2 3 ++ 4 ∷ 5 ∷ 6 ∷ replicate 7 7 ++ 8 ∷ replicate 2 9 ++ replicate 4 10 ++ replicate 7 11 ++ 13 ∷ replicate 6 14
        ++ replicate 4 15 ++ 17 ∷ replicate 2 18 ++ replicate 2 19 ++ 20 ∷ 22 ∷ replicate 4 23 }
    ensures later_taken { map (λ h. length (after_first (took h))) (moments server01.turns) ≡ replicate 6 0 ++ 1 ∷ 2 ∷ 3 ∷ 4 ∷ replicate 4 5
        ++ 6 ∷ 7 ∷ 8 ∷ replicate 2 9 ++ replicate 2 10 ++ 11 ∷ 12 ∷ 13 ∷ replicate 2 14 ++ replicate 2 15 ++ replicate 2 16
        ++ replicate 2 17 ++ 18 ∷ 19 ∷ replicate 3 20 ++ 21 ∷ 22 ∷ 23 ∷ replicate 2 24 ++ 25 ∷ replicate 2 26 ++ replicate 2 27
        ++ replicate 2 28 ++ 29 ∷ 30 ∷ replicate 2 31 ++ 32 ∷ replicate 2 33 }
    ensures numbers_sent { map (sending_number Server) (moments server01.turns) ≡ replicate 7 1 ++ 2 ∷ replicate 2 3 ++ 4 ∷ 5 ∷ 6
        ∷ replicate 7 7 ++ 8 ∷ replicate 2 9 ++ replicate 4 10 ++ replicate 7 11 ++ 0 ∷ replicate 6 1 ++ replicate 4 2 ++ 0 ∷ replicate 2 1
        ++ replicate 2 2 ++ 3 ∷ 0 ∷ replicate 4 1 }
    ensures numbers_taken { map (taking_number Server) (moments server01.turns) ≡ replicate 2 0 ++ 1 ∷ 2 ∷ 3 ∷ 0 ∷ 1 ∷ 2 ∷ 3 ∷ 4
        ∷ replicate 4 5 ++ 6 ∷ 7 ∷ 8 ∷ replicate 2 9 ++ replicate 2 10 ++ 11 ∷ 12 ∷ 13 ∷ replicate 2 14 ++ replicate 2 15 ++ replicate 2 16
        ++ replicate 2 17 ++ 18 ∷ 19 ∷ replicate 3 20 ++ 0 ∷ 1 ∷ 2 ∷ replicate 2 3 ++ 4 ∷ replicate 2 5 ++ replicate 2 6 ++ replicate 2 0
        ++ 1 ∷ 2 ∷ replicate 2 3 ++ 0 ∷ replicate 2 1 }
    ensures keys_sent { map (sending_key server01.ends Server) (moments server01.turns) ≡ replicate 4 None
        ++ replicate 30 (Some (codes "e2m2")) ++ replicate 17 (Some (codes "e2m3")) ++ replicate 5 (Some (codes "e2m2")) }
    ensures keys_taken { map (taking_key server01.ends Server) (moments server01.turns) ≡ replicate 5 None
        ++ replicate 48 (Some (codes "e2m3")) ++ replicate 3 (Some (codes "e1m2")) }
    ensures may_take { map (allowed server01.ends Server server01.numbers) (moments server01.turns) ≡ replicate 2 (1 ∷ []) ++ (49 ∷ [])
        ∷ replicate 2 (1 ∷ []) ++ replicate 3 (1 ∷ 8 ∷ 49 ∷ 61 ∷ 79 ∷ []) ++ replicate 2 (1 ∷ 8 ∷ 49 ∷ 50 ∷ 61 ∷ 79 ∷ []) ++ replicate 22 (1
        ∷ 8 ∷ 49 ∷ 50 ∷ 61 ∷ 79 ∷ 82 ∷ 90 ∷ 97 ∷ 100 ∷ 192 ∷ []) ++ replicate 5 (1 ∷ 8 ∷ []) ++ replicate 5 (1 ∷ 8 ∷ 49 ∷ 50 ∷ 61 ∷ 79 ∷ 82
        ∷ 90 ∷ 97 ∷ 100 ∷ 192 ∷ []) ++ replicate 5 (1 ∷ 8 ∷ []) ++ replicate 3 (1 ∷ 8 ∷ 49 ∷ 50 ∷ 61 ∷ 79 ∷ 82 ∷ 90 ∷ 97 ∷ 100 ∷ 192 ∷ [])
        ++ replicate 3 (1 ∷ 8 ∷ []) ++ replicate 3 (1 ∷ 8 ∷ 49 ∷ 50 ∷ 61 ∷ 79 ∷ 82 ∷ 90 ∷ 97 ∷ 100 ∷ 192 ∷ []) }
    ensures extensions { map (may_take_extensions Server) (moments server01.turns) ≡ replicate 56 false }
    ensures announces { map (announces server01.ends Server) (moments server01.turns) ≡ replicate 2 false ++ replicate 2 true
        ++ replicate 52 false }
    ensures requested { map (service_requested Server) (moments server01.turns) ≡ replicate 8 false ++ replicate 48 true }
    ensures accepted { map sent_service_accept (moments server01.turns) ≡ replicate 8 false ++ replicate 48 true }
    ensures authenticated { map (authenticated Server) (moments server01.turns) ≡ replicate 10 false ++ replicate 46 true }
    ensures failures { map failures (moments server01.turns) ≡ replicate 56 0 }
    ensures outstanding { map (λ h. request_number (outstanding h)) (moments server01.turns) ≡ replicate 56 0 }
    ensures refused { map (verdicts server01.ends Server server01.messages) (moments server01.turns) ≡ replicate 2 (replicate 2 9
        ++ replicate 15 7) ++ replicate 2 (replicate 5 7 ++ replicate 3 0 ++ replicate 9 7) ++ replicate 17 7 ∷ replicate 3 (replicate 12 7
        ++ 0 ∷ replicate 2 7 ++ 0 ∷ 13 ∷ []) ++ replicate 2 (replicate 8 7 ++ replicate 2 15 ++ 0 ∷ 7 ∷ 0 ∷ replicate 2 7 ++ 0 ∷ 7 ∷ [])
        ++ replicate 4 (replicate 2 12 ++ replicate 3 16 ++ replicate 3 7 ++ replicate 3 0 ++ 16 ∷ 0 ∷ replicate 2 7 ++ 0 ∷ 7 ∷ [])
        ++ replicate 2 (replicate 2 12 ++ 16 ∷ 0 ∷ 16 ∷ replicate 3 7 ++ replicate 5 0 ++ replicate 2 7 ++ 0 ∷ 7 ∷ [])
        ++ replicate 5 (replicate 2 12 ++ replicate 3 0 ++ replicate 3 7 ++ replicate 5 0 ++ replicate 2 7 ++ 0 ∷ 7 ∷ [])
        ++ replicate 2 (replicate 2 12 ++ 0 ∷ 16 ∷ 0 ∷ replicate 3 7 ++ replicate 3 0 ++ 16 ∷ 0 ∷ replicate 2 7 ++ 0 ∷ 7 ∷ [])
        ++ replicate 2 (replicate 2 12 ++ replicate 3 16 ++ replicate 3 7 ++ replicate 3 0 ++ 16 ∷ 0 ∷ replicate 2 7 ++ 0 ∷ 7 ∷ [])
        ++ replicate 7 (replicate 2 0 ++ replicate 3 16 ++ replicate 3 7 ++ replicate 3 0 ++ 16 ∷ 0 ∷ replicate 2 7 ++ 0 ∷ 7 ∷ [])
        ++ replicate 2 (replicate 5 7 ++ replicate 3 0 ++ replicate 4 7 ++ 0 ∷ replicate 2 7 ++ 0 ∷ 7 ∷ []) ++ replicate 3 (replicate 12 7
        ++ 0 ∷ replicate 2 7 ++ 0 ∷ 7 ∷ []) ++ replicate 5 (replicate 2 0 ++ replicate 3 16 ++ replicate 3 7 ++ replicate 3 0 ++ 16 ∷ 0
        ∷ replicate 2 7 ++ 0 ∷ 7 ∷ []) ++ replicate 3 (replicate 5 7 ++ replicate 2 0 ++ 10 ∷ replicate 4 7 ++ 0 ∷ replicate 2 7 ++ 0 ∷ 7
        ∷ []) ++ replicate 2 (replicate 12 7 ++ 0 ∷ replicate 2 7 ++ 0 ∷ 7 ∷ []) ++ (replicate 2 0 ++ replicate 3 16 ++ replicate 3 7
        ++ replicate 3 0 ++ 16 ∷ 0 ∷ replicate 2 7 ++ 0 ∷ 7 ∷ []) ∷ replicate 2 (replicate 2 0 ++ 16 ∷ 0 ∷ 16 ∷ replicate 3 7
        ++ replicate 5 0 ++ replicate 2 7 ++ 0 ∷ 7 ∷ []) ++ (replicate 5 7 ++ replicate 3 0 ++ replicate 4 7 ++ 0 ∷ replicate 2 7 ++ 0 ∷ 7
        ∷ []) ∷ replicate 2 (replicate 12 7 ++ 0 ∷ replicate 2 7 ++ 0 ∷ 7 ∷ []) ++ (replicate 2 12 ++ 16 ∷ 0 ∷ 16 ∷ replicate 3 7
        ++ replicate 5 0 ++ replicate 2 7 ++ 0 ∷ 7 ∷ []) ∷ replicate 2 (replicate 2 12 ++ 16 ∷ 7 ∷ 16 ∷ replicate 3 7 ++ replicate 5 0
        ++ replicate 2 7 ++ 0 ∷ 7 ∷ []) }
    ensures asks_refused { map (ask_verdicts server01.ends Server server01.asks) (moments server01.turns) ≡ replicate 10 (replicate 3 1 ++ 0
        ∷ replicate 2 1 ++ 11 ∷ replicate 2 1) ++ replicate 4 (replicate 2 3 ++ replicate 2 0 ++ 12 ∷ 3 ∷ 11 ∷ replicate 2 3)
        ++ replicate 2 (0 ∷ 3 ∷ replicate 2 0 ++ 12 ∷ 3 ∷ 11 ∷ 0 ∷ 3 ∷ []) ++ replicate 5 (0 ∷ 3 ∷ replicate 2 0 ++ 12 ∷ 3 ∷ 11 ∷ 0 ∷ 8
        ∷ []) ++ replicate 4 (replicate 3 9 ++ 0 ∷ 12 ∷ 9 ∷ 11 ∷ replicate 2 9) ++ replicate 2 (replicate 3 9 ++ replicate 2 0 ++ 9 ∷ 11
        ∷ replicate 2 9) ++ replicate 7 (replicate 3 2 ++ 0 ∷ replicate 2 2 ++ 11 ∷ replicate 2 2) ++ (3 ∷ 5 ∷ replicate 2 0 ++ 2 ∷ 0 ∷ 11
        ∷ replicate 2 3) ∷ replicate 2 (3 ∷ 6 ∷ replicate 2 0 ++ 2 ∷ 0 ∷ 11 ∷ replicate 2 3) ++ replicate 4 (3 ∷ 6 ∷ replicate 4 0 ++ 11
        ∷ replicate 2 3) ++ replicate 4 (replicate 3 2 ++ 0 ∷ replicate 2 2 ++ 11 ∷ replicate 2 2) ++ replicate 2 (3 ∷ 6 ∷ replicate 2 0
        ++ 2 ∷ 0 ∷ 11 ∷ replicate 2 3) ++ (3 ∷ 6 ∷ replicate 4 0 ++ 11 ∷ replicate 2 3) ∷ replicate 2 (4 ∷ 6 ∷ replicate 3 0 ++ 3 ∷ 11 ∷ 0
        ∷ 3 ∷ []) ++ (replicate 3 2 ++ 0 ∷ replicate 2 2 ++ 11 ∷ replicate 2 2) ∷ replicate 2 (4 ∷ 6 ∷ replicate 2 0 ++ 2 ∷ 3 ∷ 11 ∷ 0 ∷ 3
        ∷ []) ++ replicate 3 (4 ∷ 6 ∷ replicate 2 0 ++ 12 ∷ 3 ∷ 11 ∷ 0 ∷ 3 ∷ []) }
    ensures channel_0 { map (channel_state Server 0) (moments server01.turns) ≡ replicate 11 [] ++ replicate 5 (1 ∷ 5 ∷ 8 ∷ []) ++ (3
        ∷ replicate 2 7 ++ 5 ∷ 8 ∷ 7 ∷ replicate 5 0) ∷ replicate 3 (3 ∷ 14 ∷ 7 ∷ 5 ∷ 8 ∷ 7 ∷ replicate 5 0) ++ replicate 3 (3 ∷ 14 ∷ 7 ∷ 6
        ∷ 8 ∷ 7 ∷ replicate 5 0) ++ replicate 33 [] }
    ensures channel_1 { map (channel_state Server 1) (moments server01.turns) ≡ replicate 13 [] ++ replicate 11 (1 ∷ 11 ∷ 6 ∷ [])
        ++ replicate 11 (3 ∷ 8 ∷ 5 ∷ 11 ∷ 6 ∷ 8 ∷ replicate 5 0) ++ replicate 3 (3 ∷ 8 ∷ 5 ∷ 11 ∷ 6 ∷ 8 ∷ 1 ∷ replicate 4 0) ++ (3 ∷ 8 ∷ 5
        ∷ 10 ∷ 6 ∷ 8 ∷ 1 ∷ replicate 4 0) ∷ replicate 7 (3 ∷ 8 ∷ 5 ∷ 10 ∷ 6 ∷ 8 ∷ 1 ∷ 0 ∷ 1 ∷ replicate 2 0) ++ replicate 6 (3 ∷ 8 ∷ 5 ∷ 10
        ∷ 6 ∷ 8 ∷ 1 ∷ 0 ∷ 1 ∷ 0 ∷ 1 ∷ []) ++ replicate 4 (3 ∷ 8 ∷ 5 ∷ 30 ∷ 6 ∷ 8 ∷ 1 ∷ 0 ∷ 1 ∷ 0 ∷ 1 ∷ []) }
    ensures channel_2 { map (channel_state Server 2) (moments server01.turns) ≡ replicate 12 [] ++ replicate 2 (1 ∷ 9 ∷ 6 ∷ [])
        ++ replicate 5 (3 ∷ 10 ∷ 7 ∷ 9 ∷ 6 ∷ 2 ∷ replicate 5 0) ++ replicate 2 (3 ∷ 10 ∷ 7 ∷ 8 ∷ 6 ∷ 2 ∷ replicate 5 0) ++ replicate 5 []
        ++ replicate 22 (2 ∷ 4 ∷ 8 ∷ 5 ∷ []) ++ (3 ∷ 4 ∷ 8 ∷ 10 ∷ 6 ∷ 5 ∷ replicate 5 0) ∷ replicate 5 (3 ∷ 4 ∷ 8 ∷ replicate 2 6 ++ 5
        ∷ replicate 5 0) ++ replicate 2 (3 ∷ 4 ∷ 8 ∷ replicate 2 6 ++ 5 ∷ replicate 2 0 ++ 1 ∷ replicate 2 0) }
    ensures held { map (held Server (numbers_from 0 3)) (moments server01.turns) ≡ replicate 11 (replicate 3 false) ++ (true
        ∷ replicate 2 false) ∷ (true ∷ false ∷ true ∷ []) ∷ replicate 8 (replicate 3 true) ++ replicate 2 (replicate 2 true ++ false ∷ [])
        ++ replicate 3 (false ∷ true ∷ false ∷ []) ++ replicate 30 (false ∷ replicate 2 true) }
    ensures replies { map (replies Server (numbers_from 0 3)) (moments server01.turns) ≡ replicate 14 (replicate 3 [])
        ++ replicate 2 (replicate 2 [] ++ (replicate 2 2 ∷ []) ∷ []) ++ replicate 5 (((0 ∷ 7 ∷ []) ∷ []) ∷ [] ∷ (replicate 2 2 ∷ []) ∷ [])
        ++ replicate 2 (((0 ∷ 7 ∷ []) ∷ []) ∷ replicate 2 []) ++ replicate 3 [] ∷ replicate 3 ([] ∷ ((1 ∷ 8 ∷ []) ∷ []) ∷ [] ∷ [])
        ++ replicate 7 (replicate 3 []) ++ replicate 7 ([] ∷ ((1 ∷ 8 ∷ []) ∷ []) ∷ [] ∷ []) ++ replicate 4 (replicate 3 [])
        ++ replicate 3 ([] ∷ ((1 ∷ 8 ∷ []) ∷ []) ∷ [] ∷ []) ++ replicate 2 ([] ∷ ((1 ∷ 8 ∷ []) ∷ []) ∷ ((2 ∷ 5 ∷ []) ∷ []) ∷ [])
        ++ replicate 3 [] ∷ replicate 5 ([] ∷ ((1 ∷ 8 ∷ []) ∷ []) ∷ ((2 ∷ 5 ∷ []) ∷ []) ∷ []) }
    ensures owed { map (owed_closes Server) (moments server01.turns) ≡ replicate 56 [] }
    ensures globals { map waiting_globals (moments server01.turns) ≡ replicate 56 (replicate 2 0) }
    ensures all_numbers_28 { allowed server01.ends Server (numbers_from 0 256) (whole (take 28 server01.turns)) ≡ numbers_from 0 5
        ++ numbers_from 8 13 ++ numbers_from 22 8 ++ numbers_from 32 19 ++ numbers_from 54 6 ++ numbers_from 61 195 }
    ensures all_numbers_56 { allowed server01.ends Server (numbers_from 0 256) (whole (take 56 server01.turns)) ≡ numbers_from 0 5
        ++ numbers_from 8 13 ++ numbers_from 22 8 ++ numbers_from 32 19 ++ numbers_from 54 6 ++ numbers_from 61 195 }
    ensures first_offer { offer server01.ends Server true [] ≡ proposing (codes "k1" ∷ codes "k2" ∷ codes "k3"
        ∷ codes "kex-strict-s-v00@openssh.com" ∷ []) (codes "h3" ∷ codes "h2" ∷ codes "h1" ∷ []) (codes "e2" ∷ codes "e1" ∷ []) (codes "e2"
        ∷ codes "e1" ∷ []) (codes "m3" ∷ codes "m2" ∷ []) (codes "m3" ∷ codes "m2" ∷ []) }
    ensures later_offer { offer server01.ends Server false [] ≡ proposing (codes "k1" ∷ codes "k2" ∷ codes "k3" ∷ []) (codes "h3"
        ∷ codes "h2" ∷ codes "h1" ∷ []) (codes "e2" ∷ codes "e1" ∷ []) (codes "e2" ∷ codes "e1" ∷ []) (codes "m3" ∷ codes "m2"
        ∷ []) (codes "m3" ∷ codes "m2" ∷ []) }
    ensures texts { map exchange_text (exchanges server01.ends Server (whole server01.turns)) ≡ server01.text_3 ∷ server01.text_2
        ∷ server01.text_1 ∷ server01.text_0 ∷ [] }
    ensures algorithms { map names_of (choices Server (whole server01.turns)) ≡ (codes "k1" ∷ codes "h3" ∷ codes "e1" ∷ codes "e2"
        ∷ replicate 2 (codes "m2") ++ replicate 2 (codes "none")) ∷ (codes "k2" ∷ codes "h1" ∷ replicate 2 (codes "e2")
        ++ replicate 2 (codes "m3") ++ replicate 2 (codes "none")) ∷ (codes "k3" ∷ codes "h2" ∷ replicate 2 (codes "e2")
        ++ replicate 2 (codes "m3") ++ replicate 2 (codes "none")) ∷ (codes "k3" ∷ codes "h2" ∷ replicate 2 (codes "e2") ++ codes "m3"
        ∷ codes "m2" ∷ replicate 2 (codes "none")) ∷ [] }
    ensures session { session_id (exchanges server01.ends Server (whole server01.turns)) ≡ sha256 server01.text_0 }
    ensures sending_key { sending_name server01.ends Server (whole server01.turns)
        ≡ named Server (sha256 server01.text_3) (sha256 server01.text_0) }
    ensures taking_key { taking_name server01.ends Server (whole server01.turns)
        ≡ named Client (sha256 server01.text_3) (sha256 server01.text_0) }
{}

/// Client02: values after each of 54 turns.
#[tactic(auto, unfolding(ssh_model::specs::Protocol::Channels::History::has_place, ssh_model::specs::Protocol::Channels::History::some_free, ssh_model::specs::Protocol::KeyExchange::Choice::methods, ssh_model::specs::Protocol::KeyExchange::Exchange::string_of))]
pub fn client02()
    ensures phases { map (phase client02.ends Client) (moments client02.turns) ≡ replicate 4 Start ++ Exchanging ∷ Keying
        ∷ replicate 17 Normal ++ replicate 2 Exchanging ++ replicate 2 Keying ++ replicate 4 Normal ++ Guessed ∷ replicate 4 Exchanging
        ++ replicate 3 Keying ++ Normal ∷ replicate 2 Guessed ++ replicate 9 Exchanging ++ replicate 3 Keying }
    ensures blocked { map blocked (moments client02.turns) ≡ replicate 5 true ++ replicate 18 false ++ replicate 2 true ++ replicate 4 false
        ++ replicate 7 true ++ replicate 4 false ++ replicate 11 true ++ replicate 3 false }
    ensures died { map has_died (moments client02.turns) ≡ replicate 53 false ++ true ∷ [] }
    ensures can_feed { map can_feed (moments client02.turns) ≡ replicate 21 true ++ replicate 2 false ++ true ∷ replicate 5 false
        ++ replicate 5 true ++ replicate 6 false ++ true ∷ replicate 13 false }
    ensures points { map (point_now client02.ends Client) (moments client02.turns) ≡ replicate 5 (replicate 32 88) ++ replicate 16 []
        ++ replicate 4 (replicate 32 248) ++ replicate 11 (replicate 32 67) ++ replicate 15 (replicate 32 100)
        ++ replicate 3 (replicate 32 170) }
    ensures cookies { map next_cookie (moments client02.turns) ≡ replicate 21 [] ++ replicate 2 (replicate 16 36) ++ []
        ∷ replicate 5 (replicate 16 189) ++ replicate 5 [] ++ replicate 6 (replicate 16 43) ++ [] ∷ replicate 13 (replicate 16 42) }
    ensures other_lines { map other_lines (moments client02.turns) ≡ 0 ∷ 1 ∷ replicate 52 2 }
    ensures strict { map (is_strict Client) (moments client02.turns) ≡ replicate 4 false ++ replicate 50 true }
    ensures epochs_sent { map (λ h. epoch (sent h)) (moments client02.turns) ≡ replicate 5 0 ++ replicate 20 1 ++ replicate 11 2
        ++ replicate 15 3 ++ replicate 3 4 }
    ensures epochs_taken { map (λ h. epoch (took h)) (moments client02.turns) ≡ replicate 6 0 ++ replicate 21 1 ++ replicate 12 2
        ++ replicate 15 3 }
    ensures counts_sent { map (λ h. count (sent h)) (moments client02.turns) ≡ replicate 4 1 ++ 2 ∷ replicate 3 0 ++ replicate 3 1
        ++ replicate 2 2 ++ replicate 3 3 ++ replicate 3 4 ++ replicate 3 5 ++ 6 ∷ replicate 2 8 ++ 0 ∷ replicate 3 1 ++ replicate 2 2
        ++ replicate 5 3 ++ 0 ∷ 1 ∷ replicate 2 2 ++ replicate 11 4 ++ 0 ∷ 1 ∷ 2 ∷ [] }
    ensures counts_taken { map (λ h. count (took h)) (moments client02.turns) ≡ replicate 4 0 ++ 1 ∷ 2 ∷ 0 ∷ replicate 2 1 ++ 2
        ∷ replicate 2 3 ++ replicate 2 4 ++ 5 ∷ 6 ∷ 7 ∷ 8 ∷ replicate 2 9 ++ replicate 2 10 ++ 11 ∷ replicate 2 12 ++ replicate 2 13
        ++ replicate 3 0 ++ 1 ∷ 2 ∷ 3 ∷ replicate 2 4 ++ 5 ∷ replicate 3 6 ++ 0 ∷ replicate 2 1 ++ 2 ∷ 3 ∷ 4 ∷ replicate 2 5 ++ 6 ∷ 7 ∷ 8
        ∷ 9 ∷ replicate 3 10 }
    ensures later_sent { map (λ h. length (after_first (sent h))) (moments client02.turns) ≡ replicate 8 0 ++ replicate 3 1 ++ replicate 2 2
        ++ replicate 3 3 ++ replicate 3 4 ++ replicate 3 5 ++ 6 ∷ replicate 2 8 ++ 9 ∷ replicate 3 10 ++ replicate 2 11 ++ replicate 5 12
        ++ 13 ∷ 14 ∷ replicate 2 15 ++ replicate 11 17 ++ 18 ∷ 19 ∷ 20 ∷ [] }
    ensures later_taken { map (λ h. length (after_first (took h))) (moments client02.turns) ≡ replicate 7 0 ++ replicate 2 1 ++ 2
        ∷ replicate 2 3 ++ replicate 2 4 ++ 5 ∷ 6 ∷ 7 ∷ 8 ∷ replicate 2 9 ++ replicate 2 10 ++ 11 ∷ replicate 2 12 ++ replicate 2 13
        ++ replicate 3 14 ++ 15 ∷ 16 ∷ 17 ∷ replicate 2 18 ++ 19 ∷ replicate 3 20 ++ 21 ∷ replicate 2 22 ++ 23 ∷ 24 ∷ 25 ∷ replicate 2 26
        ++ 27 ∷ 28 ∷ 29 ∷ 30 ∷ replicate 3 31 }
    ensures numbers_sent { map (sending_number Client) (moments client02.turns) ≡ replicate 4 1 ++ 2 ∷ replicate 3 0 ++ replicate 3 1
        ++ replicate 2 2 ++ replicate 3 3 ++ replicate 3 4 ++ replicate 3 5 ++ 6 ∷ replicate 2 8 ++ 0 ∷ replicate 3 1 ++ replicate 2 2
        ++ replicate 5 3 ++ 0 ∷ 1 ∷ replicate 2 2 ++ replicate 11 4 ++ 0 ∷ 1 ∷ 2 ∷ [] }
    ensures numbers_taken { map (taking_number Client) (moments client02.turns) ≡ replicate 4 0 ++ 1 ∷ 2 ∷ 0 ∷ replicate 2 1 ++ 2
        ∷ replicate 2 3 ++ replicate 2 4 ++ 5 ∷ 6 ∷ 7 ∷ 8 ∷ replicate 2 9 ++ replicate 2 10 ++ 11 ∷ replicate 2 12 ++ replicate 2 13
        ++ replicate 3 0 ++ 1 ∷ 2 ∷ 3 ∷ replicate 2 4 ++ 5 ∷ replicate 3 6 ++ 0 ∷ replicate 2 1 ++ 2 ∷ 3 ∷ 4 ∷ replicate 2 5 ++ 6 ∷ 7 ∷ 8
        ∷ 9 ∷ replicate 3 10 }
    ensures keys_sent { map (sending_key client02.ends Client) (moments client02.turns) ≡ replicate 5 None
        ++ replicate 31 (Some (codes "e2m2")) ++ replicate 15 (Some (codes "e2m1")) ++ replicate 3 (Some (codes "e2m2")) }
    ensures keys_taken { map (taking_key client02.ends Client) (moments client02.turns) ≡ replicate 6 None
        ++ replicate 48 (Some (codes "e2m2")) }
    ensures may_take { map (allowed client02.ends Client client02.numbers) (moments client02.turns) ≡ replicate 4 (2 ∷ 4 ∷ [])
        ++ replicate 2 [] ++ (2 ∷ 4 ∷ 7 ∷ 22 ∷ 61 ∷ []) ∷ replicate 2 (2 ∷ 4 ∷ 22 ∷ 61 ∷ []) ++ replicate 3 (2 ∷ 4 ∷ 22 ∷ 53 ∷ 61 ∷ [])
        ++ replicate 11 (2 ∷ 4 ∷ 22 ∷ 61 ∷ 82 ∷ 83 ∷ 97 ∷ 100 ∷ 191 ∷ []) ++ replicate 4 (2 ∷ 4 ∷ 22 ∷ []) ++ replicate 4 (2 ∷ 4 ∷ 22 ∷ 61
        ∷ 82 ∷ 83 ∷ 97 ∷ 100 ∷ 191 ∷ []) ++ (30 ∷ []) ∷ replicate 7 (2 ∷ 4 ∷ 22 ∷ []) ++ (2 ∷ 4 ∷ 22 ∷ 61 ∷ 82 ∷ 83 ∷ 97 ∷ 100 ∷ 191 ∷ [])
        ∷ replicate 2 (30 ∷ []) ++ replicate 12 (2 ∷ 4 ∷ 22 ∷ []) }
    ensures extensions { map (may_take_extensions Client) (moments client02.turns) ≡ replicate 6 false ++ true ∷ replicate 47 false }
    ensures announces { map (announces client02.ends Client) (moments client02.turns) ≡ replicate 54 false }
    ensures requested { map (service_requested Client) (moments client02.turns) ≡ replicate 8 false ++ replicate 46 true }
    ensures accepted { map took_service_accept (moments client02.turns) ≡ replicate 9 false ++ replicate 45 true }
    ensures authenticated { map (authenticated Client) (moments client02.turns) ≡ replicate 12 false ++ replicate 42 true }
    ensures failures { map failures (moments client02.turns) ≡ replicate 54 0 }
    ensures outstanding { map (λ h. request_number (outstanding h)) (moments client02.turns) ≡ replicate 11 0 ++ 3 ∷ replicate 42 0 }
    ensures refused { map (verdicts client02.ends Client client02.messages) (moments client02.turns) ≡ replicate 4 (replicate 2 0
        ++ replicate 12 7) ++ (replicate 5 7 ++ 0 ∷ 11 ∷ 0 ∷ replicate 6 7) ∷ replicate 14 7 ∷ replicate 5 (replicate 9 7 ++ 0
        ∷ replicate 4 7) ++ (replicate 9 7 ++ 0 ∷ replicate 3 7 ++ 0 ∷ []) ∷ (replicate 2 12 ++ replicate 3 16 ++ replicate 3 7 ++ 16 ∷ 0
        ∷ 16 ∷ replicate 3 7) ∷ replicate 2 (replicate 2 12 ++ replicate 3 16 ++ replicate 3 7 ++ 16 ∷ 0 ∷ 16 ∷ replicate 2 0 ++ 7 ∷ [])
        ++ replicate 3 (replicate 2 12 ++ replicate 3 16 ++ replicate 3 7 ++ 16 ∷ 0 ∷ 16 ∷ replicate 3 7) ++ (replicate 2 12
        ++ replicate 3 16 ++ replicate 4 7 ++ 0 ∷ 16 ∷ replicate 3 7) ∷ replicate 2 (replicate 2 12 ++ 16 ∷ 0 ∷ 16 ∷ replicate 4 7 ++ 0 ∷ 16
        ∷ replicate 3 7) ++ (replicate 2 0 ++ 16 ∷ 0 ∷ 16 ∷ replicate 4 7 ++ 0 ∷ 16 ∷ replicate 3 7) ∷ (replicate 2 0 ++ replicate 3 16
        ++ replicate 3 7 ++ 16 ∷ 0 ∷ 16 ∷ replicate 3 7) ∷ replicate 2 (replicate 5 7 ++ 0 ∷ 11 ∷ 0 ∷ 7 ∷ 0 ∷ replicate 4 7)
        ++ replicate 2 (replicate 9 7 ++ 0 ∷ replicate 4 7) ++ replicate 4 (replicate 3 0 ++ 16 ∷ 0 ∷ replicate 3 7 ++ 16 ∷ 0 ∷ 16
        ∷ replicate 3 7) ++ (replicate 5 7 ++ replicate 3 0 ++ replicate 6 7) ∷ replicate 4 (replicate 5 7 ++ 0 ∷ 10 ∷ 0 ∷ 7 ∷ 0
        ∷ replicate 4 7) ++ replicate 3 (replicate 9 7 ++ 0 ∷ replicate 4 7) ++ (replicate 3 0 ++ 16 ∷ 0 ∷ replicate 3 7 ++ 16 ∷ 0 ∷ 16
        ∷ replicate 3 7) ∷ replicate 2 (replicate 5 7 ++ replicate 3 0 ++ replicate 6 7) ++ replicate 9 (replicate 5 7 ++ 0 ∷ 11 ∷ 0 ∷ 7 ∷ 0
        ∷ replicate 4 7) ++ replicate 3 (replicate 9 7 ++ 0 ∷ replicate 4 7) }
    ensures asks_refused { map (ask_verdicts client02.ends Client client02.asks) (moments client02.turns) ≡ replicate 6 (replicate 6 1 ++ 0
        ∷ replicate 2 1) ++ replicate 2 (replicate 6 1 ++ replicate 2 0 ++ 1 ∷ []) ++ (replicate 6 1 ++ 0 ∷ 2 ∷ 1 ∷ [])
        ∷ replicate 2 (replicate 2 1 ++ replicate 3 0 ++ 1 ∷ 0 ∷ 2 ∷ 1 ∷ []) ++ (replicate 2 1 ++ replicate 3 2 ++ 1 ∷ 0 ∷ 2 ∷ 1 ∷ [])
        ∷ replicate 6 (replicate 2 3 ++ replicate 3 6 ++ 3 ∷ 0 ∷ 2 ∷ 3 ∷ []) ++ (replicate 2 3 ++ replicate 3 6 ++ 3 ∷ 0 ∷ 2 ∷ 10 ∷ [])
        ∷ replicate 3 (replicate 2 3 ++ replicate 3 6 ++ 3 ∷ 0 ∷ 2 ∷ 3 ∷ []) ++ (replicate 2 9 ++ replicate 3 6 ++ 9 ∷ 0 ∷ 2 ∷ 9 ∷ [])
        ∷ replicate 2 (replicate 2 2 ++ replicate 3 6 ++ 2 ∷ 0 ∷ replicate 2 2) ++ replicate 4 (replicate 2 3 ++ replicate 3 6 ++ 3 ∷ 0 ∷ 2
        ∷ 3 ∷ []) ++ replicate 7 (replicate 2 2 ++ replicate 3 6 ++ 2 ∷ 0 ∷ replicate 2 2) ++ replicate 4 (replicate 2 3 ++ replicate 3 6
        ++ 3 ∷ 0 ∷ 2 ∷ 3 ∷ []) ++ replicate 11 (replicate 2 2 ++ replicate 3 6 ++ 2 ∷ 0 ∷ replicate 2 2) ++ replicate 3 (replicate 2 3
        ++ replicate 3 6 ++ 3 ∷ 0 ∷ 2 ∷ 3 ∷ []) }
    ensures channel_0 { map (channel_state Client 0) (moments client02.turns) ≡ replicate 52 [] ++ replicate 2 (1 ∷ 11 ∷ 6 ∷ []) }
    ensures channel_1 { map (channel_state Client 1) (moments client02.turns) ≡ replicate 14 [] ++ replicate 12 (2 ∷ 6 ∷ 7 ∷ 8 ∷ [])
        ++ replicate 4 (3 ∷ 6 ∷ 7 ∷ 6 ∷ replicate 2 8 ++ replicate 5 0) ++ replicate 7 (3 ∷ 6 ∷ 7 ∷ 6 ∷ replicate 2 8 ++ replicate 3 0 ++ 1
        ∷ 0 ∷ []) ++ (3 ∷ 6 ∷ 7 ∷ 6 ∷ replicate 2 8 ++ replicate 5 0) ∷ replicate 16 (3 ∷ 6 ∷ 7 ∷ 6 ∷ replicate 2 8 ++ replicate 2 1
        ++ replicate 3 0) }
    ensures channel_2 { map (channel_state Client 2) (moments client02.turns) ≡ replicate 18 [] ++ (2 ∷ 5 ∷ 8 ∷ 4 ∷ []) ∷ (3 ∷ 5 ∷ 8 ∷ 10
        ∷ 8 ∷ 4 ∷ replicate 5 0) ∷ replicate 2 (3 ∷ 5 ∷ 8 ∷ 9 ∷ 8 ∷ 4 ∷ replicate 5 0) ++ replicate 32 [] }
    ensures held { map (held Client (numbers_from 0 3)) (moments client02.turns) ≡ replicate 14 (replicate 3 false) ++ replicate 4 (false
        ∷ true ∷ false ∷ []) ++ replicate 4 (false ∷ replicate 2 true) ++ replicate 30 (false ∷ true ∷ false ∷ [])
        ++ replicate 2 (replicate 2 true ++ false ∷ []) }
    ensures replies { map (replies Client (numbers_from 0 3)) (moments client02.turns) ≡ replicate 19 (replicate 3 [])
        ++ replicate 3 (replicate 2 [] ++ ((2 ∷ 4 ∷ []) ∷ []) ∷ []) ++ replicate 4 (replicate 3 []) ++ replicate 3 ([] ∷ ((1 ∷ 8 ∷ []) ∷ [])
        ∷ [] ∷ []) ++ replicate 7 (replicate 3 []) ++ replicate 2 ([] ∷ ((1 ∷ 8 ∷ []) ∷ []) ∷ [] ∷ []) ++ replicate 16 (replicate 3 []) }
    ensures owed { map (owed_closes Client) (moments client02.turns) ≡ replicate 54 [] }
    ensures globals { map waiting_globals (moments client02.turns) ≡ replicate 13 (replicate 2 0) ++ replicate 2 (0 ∷ 1 ∷ [])
        ++ replicate 39 (replicate 2 0) }
    ensures all_numbers_18 { allowed client02.ends Client (numbers_from 0 256) (whole (take 18 client02.turns)) ≡ numbers_from 0 5
        ++ numbers_from 8 13 ++ numbers_from 22 8 ++ numbers_from 32 18 ++ numbers_from 54 6 ++ numbers_from 61 195 }
    ensures all_numbers_54 { allowed client02.ends Client (numbers_from 0 256) (whole (take 54 client02.turns)) ≡ numbers_from 0 5
        ++ numbers_from 8 12 ++ numbers_from 21 9 }
    ensures first_offer { offer client02.ends Client true [] ≡ proposing (codes "k1" ∷ codes "ext-info-c"
        ∷ codes "kex-strict-c-v00@openssh.com" ∷ []) (codes "h1" ∷ codes "h3" ∷ []) (codes "e2" ∷ codes "e1" ∷ []) (codes "e2" ∷ codes "e1"
        ∷ []) (codes "m2" ∷ codes "m1" ∷ codes "m3" ∷ []) (codes "m2" ∷ codes "m1" ∷ codes "m3" ∷ []) }
    ensures later_offer { offer client02.ends Client false [] ≡ proposing (codes "k1" ∷ []) (codes "h1" ∷ codes "h3" ∷ []) (codes "e2"
        ∷ codes "e1" ∷ []) (codes "e2" ∷ codes "e1" ∷ []) (codes "m2" ∷ codes "m1" ∷ codes "m3" ∷ []) (codes "m2" ∷ codes "m1" ∷ codes "m3"
        ∷ []) }
    ensures texts { map exchange_text (exchanges client02.ends Client (whole client02.turns)) ≡ client02.text_3 ∷ client02.text_2
        ∷ client02.text_1 ∷ client02.text_0 ∷ [] }
    ensures algorithms { map names_of (choices Client (whole client02.turns)) ≡ (codes "k1" ∷ codes "h1" ∷ replicate 2 (codes "e2")
        ++ replicate 2 (codes "m2") ++ replicate 2 (codes "none")) ∷ (codes "k1" ∷ codes "h1" ∷ replicate 2 (codes "e2") ++ codes "m1"
        ∷ codes "m2" ∷ replicate 2 (codes "none")) ∷ replicate 2 (codes "k1" ∷ codes "h1" ∷ replicate 2 (codes "e2")
        ++ replicate 2 (codes "m2") ++ replicate 2 (codes "none")) }
    ensures session { session_id (exchanges client02.ends Client (whole client02.turns)) ≡ sha256 client02.text_0 }
    ensures sending_key { sending_name client02.ends Client (whole client02.turns)
        ≡ named Client (sha256 client02.text_3) (sha256 client02.text_0) }
    ensures taking_key { taking_name client02.ends Client (whole client02.turns)
        ≡ named Server (sha256 client02.text_2) (sha256 client02.text_0) }
{}
