//! Drawn sessions and their tables, written by tools/second_reading.

ghost use Rattle.std.specs.Prelude.{map, ◌≡◌, replicate, ◌++◌, true, false, ◌∷◌, [], length, None, Some, codes, take};
ghost use Rattle.ssh_model.specs.Protocol.Sessions.Phases.{phase, Phase.Start, Phase.Exchanging, Phase.Keying, Phase.Normal};
ghost use Rattle.ssh_model.specs.Protocol.Sessions.Phases.{blocked, other_lines, may_take_extensions, service_requested};
ghost use Rattle.ssh_model.specs.Protocol.Sessions.Phases.{took_service_accept, authenticated, failures, outstanding};
ghost use Rattle.ssh_model.specs.Protocol.Sessions.Phases.{Phase.Guessed, sent_service_accept};
ghost use Rattle.ssh_model.specs.declared.side.Side.TheVariants.{Client, Server};
ghost use Rattle.test_histories.specs.Words.{moments, allowed, request_number, verdicts, ask_verdicts, channel_state, held};
ghost use Rattle.test_histories.specs.Words.{numbers_from, replies, owed_closes, waiting_globals, whole, proposing, names_of};
ghost use Rattle.test_histories.specs.Words.{named};
ghost use Rattle.ssh_model.specs.Protocol.Sessions.Items.{has_died, sent, took};
ghost use Rattle.ssh_model.specs.Protocol.Sessions.Turns.{can_feed};
ghost use Rattle.ssh_model.specs.Protocol.Sessions.Transport.{point_now, next_cookie, announces};
ghost use Rattle.ssh_model.specs.Protocol.KeyExchange.Exchanges.{is_strict, sending_number, taking_number, sending_key};
ghost use Rattle.ssh_model.specs.Protocol.KeyExchange.Exchanges.{taking_key, exchanges, choices, session_id, sending_name};
ghost use Rattle.ssh_model.specs.Protocol.KeyExchange.Exchanges.{taking_name};
ghost use Rattle.ssh_model.specs.Protocol.Sessions.Epochs.{epoch, count, after_first};
ghost use Rattle.ssh_model.specs.Protocol.Sessions.Parties.{offer};
ghost use Rattle.ssh_model.specs.Protocol.KeyExchange.Exchange.{exchange_text};
ghost use Rattle.sha2.specs.Sha256.{sha256};
ghost use Rattle.test_histories.specs.Drawn.Client07 as client07;
ghost use Rattle.test_histories.specs.Drawn.Server07 as server07;
ghost use Rattle.test_histories.specs.Drawn.Client08 as client08;

/// Client07: values after each of 56 turns.
#[tactic(auto, unfolding(ssh_model::specs::Protocol::Channels::History::has_place, ssh_model::specs::Protocol::Channels::History::some_free, ssh_model::specs::Protocol::KeyExchange::Choice::methods, ssh_model::specs::Protocol::KeyExchange::Exchange::string_of))]
pub fn client07()
    ensures phases { map (phase client07.ends Client) (moments client07.turns) ≡ replicate 4 Start ++ replicate 3 Exchanging
        ++ replicate 2 Keying ++ replicate 21 Normal ++ replicate 4 Exchanging ++ replicate 2 Keying ++ replicate 20 Normal }
    ensures blocked { map blocked (moments client07.turns) ≡ replicate 7 true ++ replicate 23 false ++ replicate 4 true
        ++ replicate 19 false ++ replicate 3 true }
    ensures died { map has_died (moments client07.turns) ≡ replicate 56 false }
    ensures can_feed { map can_feed (moments client07.turns) ≡ replicate 29 true ++ false ∷ replicate 2 true ++ replicate 21 false ++ true
        ∷ replicate 2 false }
    ensures points { map (point_now client07.ends Client) (moments client07.turns) ≡ replicate 7 (replicate 32 200) ++ replicate 22 []
        ++ replicate 5 (replicate 32 194) ++ replicate 22 (replicate 32 123) }
    ensures cookies { map next_cookie (moments client07.turns) ≡ replicate 29 [] ++ replicate 16 212 ∷ replicate 2 []
        ++ replicate 21 (replicate 16 31) ++ [] ∷ replicate 2 (replicate 16 3) }
    ensures other_lines { map other_lines (moments client07.turns) ≡ 0 ∷ 1 ∷ replicate 54 2 }
    ensures strict { map (is_strict Client) (moments client07.turns) ≡ replicate 56 false }
    ensures epochs_sent { map (λ h. epoch (sent h)) (moments client07.turns) ≡ replicate 7 0 ++ replicate 27 1 ++ replicate 22 2 }
    ensures epochs_taken { map (λ h. epoch (took h)) (moments client07.turns) ≡ replicate 9 0 ++ replicate 27 1 ++ replicate 20 2 }
    ensures counts_sent { map (λ h. count (sent h)) (moments client07.turns) ≡ replicate 4 1 ++ replicate 3 2 ++ replicate 5 0 ++ 1
        ∷ replicate 3 2 ++ replicate 4 3 ++ replicate 4 4 ++ replicate 6 5 ++ replicate 4 7 ++ 0 ∷ replicate 2 1 ++ 2 ∷ 3 ∷ replicate 2 4
        ++ replicate 4 5 ++ 6 ∷ replicate 3 7 ++ replicate 2 8 ++ replicate 2 9 ++ replicate 3 10 }
    ensures counts_taken { map (λ h. count (took h)) (moments client07.turns) ≡ replicate 4 0 ++ 1 ∷ 2 ∷ 3 ∷ 4 ∷ 5 ∷ 0 ∷ 1 ∷ 2
        ∷ replicate 2 3 ++ 4 ∷ replicate 3 5 ++ 6 ∷ replicate 2 7 ++ 8 ∷ 9 ∷ replicate 2 10 ++ 11 ∷ 12 ∷ replicate 3 13 ++ 14
        ∷ replicate 2 15 ++ 16 ∷ replicate 2 17 ++ replicate 4 0 ++ replicate 7 1 ++ 2 ∷ replicate 2 3 ++ replicate 2 4 ++ replicate 3 5
        ++ 6 ∷ [] }
    ensures later_sent { map (λ h. length (after_first (sent h))) (moments client07.turns) ≡ replicate 12 0 ++ 1 ∷ replicate 3 2
        ++ replicate 4 3 ++ replicate 4 4 ++ replicate 6 5 ++ replicate 4 7 ++ 8 ∷ replicate 2 9 ++ 10 ∷ 11 ∷ replicate 2 12
        ++ replicate 4 13 ++ 14 ∷ replicate 3 15 ++ replicate 2 16 ++ replicate 2 17 ++ replicate 3 18 }
    ensures later_taken { map (λ h. length (after_first (took h))) (moments client07.turns) ≡ replicate 10 0 ++ 1 ∷ 2 ∷ replicate 2 3 ++ 4
        ∷ replicate 3 5 ++ 6 ∷ replicate 2 7 ++ 8 ∷ 9 ∷ replicate 2 10 ++ 11 ∷ 12 ∷ replicate 3 13 ++ 14 ∷ replicate 2 15 ++ 16
        ∷ replicate 2 17 ++ replicate 4 18 ++ replicate 7 19 ++ 20 ∷ replicate 2 21 ++ replicate 2 22 ++ replicate 3 23 ++ 24 ∷ [] }
    ensures numbers_sent { map (sending_number Client) (moments client07.turns) ≡ replicate 4 1 ++ replicate 3 2 ++ replicate 5 3 ++ 4
        ∷ replicate 3 5 ++ replicate 4 6 ++ replicate 4 7 ++ replicate 6 8 ++ replicate 4 10 ++ 11 ∷ replicate 2 12 ++ 13 ∷ 14
        ∷ replicate 2 15 ++ replicate 4 16 ++ 17 ∷ replicate 3 18 ++ replicate 2 19 ++ replicate 2 20 ++ replicate 3 21 }
    ensures numbers_taken { map (taking_number Client) (moments client07.turns) ≡ replicate 4 0 ++ 1 ∷ 2 ∷ 3 ∷ 4 ∷ 5 ∷ 6 ∷ 7 ∷ 8
        ∷ replicate 2 9 ++ 10 ∷ replicate 3 11 ++ 12 ∷ replicate 2 13 ++ 14 ∷ 15 ∷ replicate 2 16 ++ 17 ∷ 18 ∷ replicate 3 19 ++ 20
        ∷ replicate 2 21 ++ 22 ∷ replicate 2 23 ++ replicate 4 24 ++ replicate 7 25 ++ 26 ∷ replicate 2 27 ++ replicate 2 28
        ++ replicate 3 29 ++ 30 ∷ [] }
    ensures keys_sent { map (sending_key client07.ends Client) (moments client07.turns) ≡ replicate 7 None
        ++ replicate 27 (Some (codes "e2m1")) ++ replicate 22 (Some (codes "e2m3")) }
    ensures keys_taken { map (taking_key client07.ends Client) (moments client07.turns) ≡ replicate 9 None
        ++ replicate 47 (Some (codes "e2m3")) }
    ensures may_take { map (allowed client07.ends Client client07.numbers) (moments client07.turns) ≡ replicate 4 [] ++ replicate 3 (31
        ∷ []) ++ replicate 2 [] ++ replicate 4 (54 ∷ 61 ∷ 79 ∷ []) ++ (6 ∷ 54 ∷ 61 ∷ 79 ∷ []) ∷ replicate 2 (53 ∷ 54 ∷ 61 ∷ 79 ∷ [])
        ++ replicate 2 (51 ∷ 53 ∷ 54 ∷ 61 ∷ 79 ∷ []) ++ replicate 2 (53 ∷ 54 ∷ 61 ∷ 79 ∷ []) ++ (51 ∷ 53 ∷ 54 ∷ 61 ∷ 79 ∷ [])
        ∷ replicate 3 (53 ∷ 54 ∷ 61 ∷ 79 ∷ []) ++ (51 ∷ 53 ∷ 54 ∷ 61 ∷ 79 ∷ []) ∷ replicate 5 (54 ∷ 61 ∷ 79 ∷ 80 ∷ 82 ∷ 255 ∷ [])
        ++ replicate 4 (31 ∷ []) ++ replicate 2 [] ++ replicate 20 (54 ∷ 61 ∷ 79 ∷ 80 ∷ 82 ∷ 255 ∷ []) }
    ensures extensions { map (may_take_extensions Client) (moments client07.turns) ≡ replicate 9 false ++ true ∷ replicate 46 false }
    ensures announces { map (announces client07.ends Client) (moments client07.turns) ≡ replicate 56 false }
    ensures requested { map (service_requested Client) (moments client07.turns) ≡ replicate 13 false ++ replicate 43 true }
    ensures accepted { map took_service_accept (moments client07.turns) ≡ replicate 14 false ++ replicate 42 true }
    ensures authenticated { map (authenticated Client) (moments client07.turns) ≡ replicate 25 false ++ replicate 31 true }
    ensures failures { map failures (moments client07.turns) ≡ replicate 56 0 }
    ensures outstanding { map (λ h. request_number (outstanding h)) (moments client07.turns) ≡ replicate 16 0 ++ replicate 2 3
        ++ replicate 2 0 ++ 2 ∷ replicate 3 0 ++ 4 ∷ replicate 31 0 }
    ensures refused { map (verdicts client07.ends Client client07.messages) (moments client07.turns) ≡ replicate 4 (replicate 2 0
        ++ replicate 10 7 ++ 0 ∷ 7 ∷ []) ++ replicate 3 (replicate 5 7 ++ replicate 3 0 ++ replicate 4 7 ++ 0 ∷ 7 ∷ [])
        ++ replicate 9 (replicate 12 7 ++ 0 ∷ 7 ∷ []) ++ replicate 2 (replicate 12 7 ++ replicate 2 0) ++ replicate 2 (replicate 12 7 ++ 0
        ∷ 7 ∷ []) ++ (replicate 12 7 ++ replicate 2 0) ∷ replicate 3 (replicate 12 7 ++ 0 ∷ 7 ∷ []) ++ (replicate 12 7 ++ replicate 2 0)
        ∷ replicate 4 (replicate 2 12 ++ replicate 3 16 ++ replicate 3 7 ++ 16 ∷ replicate 2 7 ++ replicate 2 0 ++ 7 ∷ []) ++ (replicate 2 0
        ++ replicate 3 16 ++ replicate 3 7 ++ 16 ∷ replicate 2 7 ++ replicate 2 0 ++ 7 ∷ []) ∷ replicate 4 (replicate 5 7 ++ 10
        ∷ replicate 2 0 ++ replicate 4 7 ++ 0 ∷ 7 ∷ []) ++ replicate 2 (replicate 12 7 ++ 0 ∷ 7 ∷ []) ++ replicate 2 (replicate 2 0
        ++ replicate 3 16 ++ replicate 3 7 ++ 16 ∷ replicate 2 7 ++ replicate 2 0 ++ 7 ∷ []) ++ replicate 18 (replicate 2 0
        ++ replicate 2 16 ++ 0 ∷ replicate 3 7 ++ 0 ∷ replicate 2 7 ++ replicate 2 0 ++ 7 ∷ []) }
    ensures asks_refused { map (ask_verdicts client07.ends Client client07.asks) (moments client07.turns) ≡ replicate 14 (replicate 9 1)
        ++ replicate 2 (replicate 3 1 ++ 0 ∷ replicate 5 1) ++ replicate 2 (replicate 3 1 ++ 2 ∷ replicate 5 1)
        ++ replicate 2 (replicate 3 1 ++ 0 ∷ replicate 5 1) ++ (replicate 3 1 ++ 2 ∷ replicate 5 1) ∷ replicate 3 (replicate 3 1 ++ 0
        ∷ replicate 5 1) ++ (replicate 3 1 ++ 2 ∷ replicate 5 1) ∷ replicate 5 (replicate 3 3 ++ 6 ∷ replicate 2 3 ++ replicate 2 0 ++ 8
        ∷ []) ++ replicate 4 (replicate 3 2 ++ 6 ∷ replicate 5 2) ++ replicate 4 (replicate 3 3 ++ 6 ∷ replicate 2 3 ++ replicate 2 0 ++ 8
        ∷ []) ++ (replicate 2 3 ++ 8 ∷ 6 ∷ 0 ∷ 3 ∷ replicate 2 0 ++ 8 ∷ []) ∷ replicate 14 (0 ∷ 3 ∷ 8 ∷ 6 ∷ 0 ∷ 3 ∷ replicate 2 0 ++ 8 ∷ [])
        ++ replicate 3 (replicate 3 2 ++ 6 ∷ replicate 5 2) }
    ensures channel_0 { map (channel_state Client 0) (moments client07.turns) ≡ replicate 26 [] ++ replicate 12 (2 ∷ replicate 2 4 ++ 7
        ∷ []) ++ replicate 8 (3 ∷ replicate 2 4 ++ 5 ∷ 6 ∷ 7 ∷ replicate 5 0) ++ replicate 3 (3 ∷ replicate 2 4 ++ 12 ∷ 6 ∷ 7
        ∷ replicate 5 0) ++ replicate 6 (3 ∷ replicate 2 4 ++ 12 ∷ 6 ∷ 7 ∷ 1 ∷ replicate 4 0) ++ (3 ∷ replicate 2 4 ++ 11 ∷ 6 ∷ 7 ∷ 1
        ∷ replicate 4 0) ∷ [] }
    ensures channel_1 { map (channel_state Client 1) (moments client07.turns) ≡ replicate 27 [] ++ replicate 12 (2 ∷ 5 ∷ 4 ∷ 1 ∷ [])
        ++ replicate 2 (3 ∷ 5 ∷ 4 ∷ 5 ∷ 4 ∷ 1 ∷ replicate 5 0) ++ replicate 6 (3 ∷ replicate 2 4 ++ 5 ∷ 4 ∷ 1 ∷ replicate 5 0) ++ (3
        ∷ replicate 2 4 ++ 5 ∷ 4 ∷ 1 ∷ replicate 3 0 ++ 1 ∷ 0 ∷ []) ∷ replicate 2 (3 ∷ replicate 4 4 ++ 1 ∷ replicate 3 0 ++ 1 ∷ 0 ∷ [])
        ++ replicate 6 (3 ∷ replicate 4 4 ++ 1 ∷ replicate 2 0 ++ replicate 2 1 ++ 0 ∷ []) }
    ensures channel_2 { map (channel_state Client 2) (moments client07.turns) ≡ replicate 56 [] }
    ensures held { map (held Client (numbers_from 0 3)) (moments client07.turns) ≡ replicate 26 (replicate 3 false) ++ (true
        ∷ replicate 2 false) ∷ replicate 29 (replicate 2 true ++ false ∷ []) }
    ensures replies { map (replies Client (numbers_from 0 3)) (moments client07.turns) ≡ replicate 38 (replicate 3 []) ++ (((0 ∷ 7 ∷ [])
        ∷ []) ∷ replicate 2 []) ∷ replicate 14 (((0 ∷ 7 ∷ []) ∷ []) ∷ (replicate 2 1 ∷ []) ∷ [] ∷ []) ++ replicate 3 (replicate 3 []) }
    ensures owed { map (owed_closes Client) (moments client07.turns) ≡ replicate 56 [] }
    ensures globals { map waiting_globals (moments client07.turns) ≡ replicate 35 (replicate 2 0) ++ replicate 21 (0 ∷ 1 ∷ []) }
    ensures all_numbers_39 { allowed client07.ends Client (numbers_from 0 256) (whole (take 39 client07.turns)) ≡ numbers_from 0 5
        ++ numbers_from 8 13 ++ numbers_from 22 8 ++ numbers_from 32 18 ++ numbers_from 54 6 ++ numbers_from 61 195 }
    ensures all_numbers_56 { allowed client07.ends Client (numbers_from 0 256) (whole (take 56 client07.turns)) ≡ numbers_from 0 5
        ++ numbers_from 8 13 ++ numbers_from 22 8 ++ numbers_from 32 18 ++ numbers_from 54 6 ++ numbers_from 61 195 }
    ensures first_offer { offer client07.ends Client true [] ≡ proposing (codes "k2" ∷ codes "k3" ∷ codes "ext-info-c" ∷ []) (codes "h2"
        ∷ []) (codes "e2" ∷ []) (codes "e2" ∷ []) (codes "m3" ∷ codes "m1" ∷ []) (codes "m3" ∷ codes "m1" ∷ []) }
    ensures later_offer { offer client07.ends Client false [] ≡ proposing (codes "k2" ∷ codes "k3" ∷ []) (codes "h2" ∷ []) (codes "e2"
        ∷ []) (codes "e2" ∷ []) (codes "m3" ∷ codes "m1" ∷ []) (codes "m3" ∷ codes "m1" ∷ []) }
    ensures texts { map exchange_text (exchanges client07.ends Client (whole client07.turns)) ≡ client07.text_1 ∷ client07.text_0 ∷ [] }
    ensures algorithms { map names_of (choices Client (whole client07.turns)) ≡ (codes "k2" ∷ codes "h2" ∷ replicate 2 (codes "e2")
        ++ replicate 2 (codes "m3") ++ replicate 2 (codes "none")) ∷ (codes "k2" ∷ codes "h2" ∷ replicate 2 (codes "e2") ++ codes "m1"
        ∷ codes "m3" ∷ replicate 2 (codes "none")) ∷ [] }
    ensures session { session_id (exchanges client07.ends Client (whole client07.turns)) ≡ sha256 client07.text_0 }
    ensures sending_key { sending_name client07.ends Client (whole client07.turns)
        ≡ named Client (sha256 client07.text_1) (sha256 client07.text_0) }
    ensures taking_key { taking_name client07.ends Client (whole client07.turns)
        ≡ named Server (sha256 client07.text_1) (sha256 client07.text_0) }
{}

/// Server07: values after each of 55 turns.
#[tactic(auto, unfolding(ssh_model::specs::Protocol::Channels::History::has_place, ssh_model::specs::Protocol::Channels::History::some_free, ssh_model::specs::Protocol::KeyExchange::Choice::methods, ssh_model::specs::Protocol::KeyExchange::Exchange::string_of))]
pub fn server07()
    ensures phases { map (phase server07.ends Server) (moments server07.turns) ≡ replicate 2 Start ++ Guessed ∷ Exchanging ∷ Keying
        ∷ replicate 11 Normal ++ replicate 3 Exchanging ++ replicate 3 Keying ++ replicate 3 Normal ++ Guessed ∷ replicate 3 Exchanging
        ++ replicate 2 Keying ++ replicate 18 Normal ++ replicate 2 Exchanging ++ Keying ∷ replicate 3 Normal }
    ensures blocked { map blocked (moments server07.turns) ≡ replicate 4 true ++ replicate 12 false ++ replicate 3 true ++ replicate 5 false
        ++ replicate 5 true ++ replicate 20 false ++ replicate 2 true ++ replicate 4 false }
    ensures died { map has_died (moments server07.turns) ≡ replicate 54 false ++ true ∷ [] }
    ensures can_feed { map can_feed (moments server07.turns) ≡ replicate 14 true ++ replicate 2 false ++ replicate 4 true
        ++ replicate 4 false ++ replicate 24 true ++ false ∷ replicate 5 true ++ false ∷ [] }
    ensures points { map (point_now server07.ends Server) (moments server07.turns) ≡ replicate 4 (replicate 32 228) ++ replicate 10 []
        ++ replicate 5 (replicate 32 167) ++ [] ∷ replicate 9 (replicate 32 179) ++ replicate 19 [] ++ replicate 3 (replicate 32 196)
        ++ replicate 4 [] }
    ensures cookies { map next_cookie (moments server07.turns) ≡ replicate 14 [] ++ replicate 2 (replicate 16 23) ++ replicate 4 []
        ++ replicate 4 (replicate 16 143) ++ replicate 24 [] ++ replicate 16 76 ∷ replicate 6 [] }
    ensures other_lines { map other_lines (moments server07.turns) ≡ replicate 55 0 }
    ensures strict { map (is_strict Server) (moments server07.turns) ≡ replicate 2 false ++ replicate 53 true }
    ensures epochs_sent { map (λ h. epoch (sent h)) (moments server07.turns) ≡ replicate 4 0 ++ replicate 15 1 ++ replicate 10 2
        ++ replicate 22 3 ++ replicate 4 4 }
    ensures epochs_taken { map (λ h. epoch (took h)) (moments server07.turns) ≡ replicate 5 0 ++ replicate 17 1 ++ replicate 9 2
        ++ replicate 21 3 ++ replicate 3 4 }
    ensures counts_sent { map (λ h. count (sent h)) (moments server07.turns) ≡ replicate 4 1 ++ replicate 2 0 ++ replicate 2 1
        ++ replicate 2 2 ++ replicate 2 3 ++ replicate 4 4 ++ replicate 3 5 ++ replicate 2 0 ++ replicate 3 1 ++ replicate 5 2
        ++ replicate 4 0 ++ replicate 3 1 ++ 2 ∷ 3 ∷ replicate 2 4 ++ replicate 2 5 ++ replicate 2 6 ++ replicate 5 7 ++ replicate 2 8
        ++ replicate 3 0 ++ 1 ∷ [] }
    ensures counts_taken { map (λ h. count (took h)) (moments server07.turns) ≡ replicate 2 0 ++ 1 ∷ 2 ∷ 3 ∷ 0 ∷ 1 ∷ 2 ∷ 3 ∷ replicate 2 4
        ++ replicate 2 5 ++ replicate 2 6 ++ 7 ∷ 8 ∷ 9 ∷ 10 ∷ replicate 3 11 ++ replicate 3 0 ++ 1 ∷ replicate 2 2 ++ 3 ∷ replicate 2 4 ++ 0
        ∷ replicate 2 1 ++ 2 ∷ replicate 6 3 ++ 4 ∷ 5 ∷ 6 ∷ 7 ∷ 8 ∷ 9 ∷ replicate 2 10 ++ 11 ∷ 12 ∷ 13 ∷ replicate 3 0 }
    ensures later_sent { map (λ h. length (after_first (sent h))) (moments server07.turns) ≡ replicate 6 0 ++ replicate 2 1 ++ replicate 2 2
        ++ replicate 2 3 ++ replicate 4 4 ++ replicate 3 5 ++ replicate 2 7 ++ replicate 3 8 ++ replicate 5 9 ++ replicate 4 11
        ++ replicate 3 12 ++ 13 ∷ 14 ∷ replicate 2 15 ++ replicate 2 16 ++ replicate 2 17 ++ replicate 5 18 ++ replicate 2 19
        ++ replicate 3 21 ++ 22 ∷ [] }
    ensures later_taken { map (λ h. length (after_first (took h))) (moments server07.turns) ≡ replicate 6 0 ++ 1 ∷ 2 ∷ 3 ∷ replicate 2 4
        ++ replicate 2 5 ++ replicate 2 6 ++ 7 ∷ 8 ∷ 9 ∷ 10 ∷ replicate 3 11 ++ replicate 3 12 ++ 13 ∷ replicate 2 14 ++ 15 ∷ replicate 2 16
        ++ 17 ∷ replicate 2 18 ++ 19 ∷ replicate 6 20 ++ 21 ∷ 22 ∷ 23 ∷ 24 ∷ 25 ∷ 26 ∷ replicate 2 27 ++ 28 ∷ 29 ∷ 30 ∷ replicate 3 31 }
    ensures numbers_sent { map (sending_number Server) (moments server07.turns) ≡ replicate 4 1 ++ replicate 2 0 ++ replicate 2 1
        ++ replicate 2 2 ++ replicate 2 3 ++ replicate 4 4 ++ replicate 3 5 ++ replicate 2 0 ++ replicate 3 1 ++ replicate 5 2
        ++ replicate 4 0 ++ replicate 3 1 ++ 2 ∷ 3 ∷ replicate 2 4 ++ replicate 2 5 ++ replicate 2 6 ++ replicate 5 7 ++ replicate 2 8
        ++ replicate 3 0 ++ 1 ∷ [] }
    ensures numbers_taken { map (taking_number Server) (moments server07.turns) ≡ replicate 2 0 ++ 1 ∷ 2 ∷ 3 ∷ 0 ∷ 1 ∷ 2 ∷ 3 ∷ replicate 2 4
        ++ replicate 2 5 ++ replicate 2 6 ++ 7 ∷ 8 ∷ 9 ∷ 10 ∷ replicate 3 11 ++ replicate 3 0 ++ 1 ∷ replicate 2 2 ++ 3 ∷ replicate 2 4 ++ 0
        ∷ replicate 2 1 ++ 2 ∷ replicate 6 3 ++ 4 ∷ 5 ∷ 6 ∷ 7 ∷ 8 ∷ 9 ∷ replicate 2 10 ++ 11 ∷ 12 ∷ 13 ∷ replicate 3 0 }
    ensures keys_sent { map (sending_key server07.ends Server) (moments server07.turns) ≡ replicate 4 None
        ++ replicate 51 (Some (codes "e1m2")) }
    ensures keys_taken { map (taking_key server07.ends Server) (moments server07.turns) ≡ replicate 5 None
        ++ replicate 50 (Some (codes "e1m2")) }
    ensures may_take { map (allowed server07.ends Server server07.numbers) (moments server07.turns) ≡ replicate 2 (20 ∷ []) ++ (32 ∷ [])
        ∷ [] ∷ (21 ∷ []) ∷ (5 ∷ 32 ∷ 79 ∷ []) ∷ replicate 2 (32 ∷ 50 ∷ 79 ∷ []) ++ replicate 8 (20 ∷ 32 ∷ 50 ∷ 79 ∷ 82 ∷ 90 ∷ 192 ∷ [])
        ++ replicate 3 [] ++ replicate 3 (21 ∷ []) ++ replicate 3 (20 ∷ 32 ∷ 50 ∷ 79 ∷ 82 ∷ 90 ∷ 192 ∷ []) ++ (32 ∷ []) ∷ replicate 3 []
        ++ replicate 2 (21 ∷ []) ++ replicate 18 (20 ∷ 32 ∷ 50 ∷ 79 ∷ 82 ∷ 90 ∷ 192 ∷ []) ++ replicate 2 [] ++ (21 ∷ []) ∷ replicate 3 (20
        ∷ 32 ∷ 50 ∷ 79 ∷ 82 ∷ 90 ∷ 192 ∷ []) }
    ensures extensions { map (may_take_extensions Server) (moments server07.turns) ≡ replicate 5 false ++ true ∷ replicate 49 false }
    ensures announces { map (announces server07.ends Server) (moments server07.turns) ≡ replicate 55 false }
    ensures requested { map (service_requested Server) (moments server07.turns) ≡ replicate 6 false ++ replicate 49 true }
    ensures accepted { map sent_service_accept (moments server07.turns) ≡ replicate 6 false ++ replicate 49 true }
    ensures authenticated { map (authenticated Server) (moments server07.turns) ≡ replicate 8 false ++ replicate 47 true }
    ensures failures { map failures (moments server07.turns) ≡ replicate 55 0 }
    ensures outstanding { map (λ h. request_number (outstanding h)) (moments server07.turns) ≡ replicate 55 0 }
    ensures refused { map (verdicts server07.ends Server server07.messages) (moments server07.turns) ≡ replicate 2 (replicate 2 9
        ++ replicate 15 7) ++ replicate 2 (replicate 5 7 ++ replicate 3 0 ++ replicate 9 7) ++ replicate 17 7 ∷ (replicate 14 7 ++ 0
        ∷ replicate 2 7) ∷ replicate 2 (replicate 8 7 ++ 15 ∷ 0 ∷ 15 ∷ replicate 3 7 ++ 0 ∷ replicate 2 7) ++ replicate 6 (replicate 2 12
        ++ replicate 3 16 ++ replicate 3 7 ++ replicate 3 0 ++ replicate 2 7 ++ replicate 2 0 ++ replicate 2 16)
        ++ replicate 2 (replicate 2 0 ++ replicate 3 16 ++ replicate 3 7 ++ replicate 3 0 ++ replicate 2 7 ++ replicate 2 0
        ++ replicate 2 16) ++ replicate 3 (replicate 5 7 ++ replicate 3 0 ++ replicate 6 7 ++ 0 ∷ replicate 2 7)
        ++ replicate 3 (replicate 14 7 ++ 0 ∷ replicate 2 7) ++ replicate 3 (replicate 2 0 ++ replicate 3 16 ++ replicate 3 7
        ++ replicate 3 0 ++ 7 ∷ replicate 3 0 ++ replicate 2 16) ++ (replicate 5 7 ++ replicate 3 0 ++ replicate 9 7)
        ∷ replicate 3 (replicate 5 7 ++ replicate 3 0 ++ replicate 6 7 ++ 0 ∷ replicate 2 7) ++ replicate 2 (replicate 14 7 ++ 0
        ∷ replicate 2 7) ++ (replicate 2 12 ++ replicate 3 16 ++ replicate 3 7 ++ replicate 3 0 ++ 7 ∷ replicate 3 0 ++ replicate 2 16)
        ∷ replicate 3 (replicate 2 12 ++ replicate 3 16 ++ replicate 3 7 ++ replicate 3 0 ++ replicate 2 7 ++ replicate 2 0
        ++ replicate 2 16) ++ replicate 2 (replicate 2 12 ++ 16 ∷ 0 ∷ 16 ∷ replicate 3 7 ++ replicate 3 0 ++ replicate 2 7 ++ replicate 2 0
        ++ replicate 2 16) ++ replicate 5 (replicate 2 12 ++ 16 ∷ replicate 2 0 ++ replicate 3 7 ++ replicate 3 0 ++ replicate 2 7
        ++ replicate 2 0 ++ replicate 2 16) ++ replicate 2 (replicate 2 12 ++ replicate 2 16 ++ 0 ∷ replicate 3 7 ++ replicate 3 0
        ++ replicate 2 7 ++ replicate 2 0 ++ replicate 2 16) ++ replicate 4 (replicate 2 12 ++ replicate 3 16 ++ replicate 3 7
        ++ replicate 3 0 ++ replicate 2 7 ++ replicate 2 0 ++ replicate 2 16) ++ (replicate 2 0 ++ replicate 3 16 ++ replicate 3 7
        ++ replicate 3 0 ++ replicate 2 7 ++ replicate 2 0 ++ replicate 2 16) ∷ replicate 2 (replicate 5 7 ++ replicate 3 0 ++ replicate 6 7
        ++ 0 ∷ replicate 2 7) ++ (replicate 14 7 ++ 0 ∷ replicate 2 7) ∷ replicate 3 (replicate 2 12 ++ replicate 3 16 ++ replicate 3 7
        ++ replicate 3 0 ++ replicate 2 7 ++ replicate 2 0 ++ replicate 2 16) }
    ensures asks_refused { map (ask_verdicts server07.ends Server server07.asks) (moments server07.turns) ≡ replicate 8 (replicate 3 1 ++ 0
        ∷ 11 ∷ replicate 4 1) ++ replicate 5 (replicate 3 3 ++ 0 ∷ 11 ∷ replicate 2 3 ++ 12 ∷ 3 ∷ []) ++ (replicate 3 3 ++ 0 ∷ 11 ∷ 3 ∷ 0
        ∷ 12 ∷ 3 ∷ []) ∷ replicate 2 (replicate 3 3 ++ 0 ∷ 11 ∷ 3 ∷ replicate 2 0 ++ 3 ∷ []) ++ replicate 3 (replicate 3 2 ++ 0 ∷ 11
        ∷ replicate 4 2) ++ replicate 3 (replicate 3 3 ++ 0 ∷ 11 ∷ 3 ∷ 0 ∷ 2 ∷ 3 ∷ []) ++ replicate 2 (replicate 3 3 ++ 0 ∷ 11 ∷ 3
        ∷ replicate 2 0 ++ 3 ∷ []) ++ replicate 5 (replicate 3 2 ++ 0 ∷ 11 ∷ replicate 4 2) ++ replicate 2 (replicate 3 3 ++ 0 ∷ 11 ∷ 3 ∷ 0
        ∷ 2 ∷ 3 ∷ []) ++ replicate 4 (replicate 3 3 ++ 0 ∷ 11 ∷ 3 ∷ 0 ∷ 12 ∷ 3 ∷ []) ++ (3 ∷ replicate 3 0 ++ 11 ∷ 3 ∷ 0 ∷ 12 ∷ 3 ∷ []) ∷ (3
        ∷ 6 ∷ replicate 2 0 ++ 11 ∷ 3 ∷ 0 ∷ 12 ∷ 3 ∷ []) ∷ replicate 5 (3 ∷ 6 ∷ replicate 2 0 ++ 11 ∷ replicate 2 3 ++ 12 ∷ 8 ∷ [])
        ++ replicate 2 (replicate 3 3 ++ 0 ∷ 11 ∷ replicate 2 3 ++ 12 ∷ 8 ∷ []) ++ replicate 4 (replicate 3 3 ++ 0 ∷ 11 ∷ replicate 2 3
        ++ 12 ∷ 3 ∷ []) ++ (replicate 3 3 ++ 0 ∷ 11 ∷ replicate 2 3 ++ 0 ∷ 3 ∷ []) ∷ replicate 2 (replicate 3 2 ++ 0 ∷ 11 ∷ replicate 4 2)
        ++ (replicate 3 3 ++ 0 ∷ 11 ∷ replicate 2 3 ++ 2 ∷ 3 ∷ []) ∷ replicate 3 (replicate 3 3 ++ 0 ∷ 11 ∷ replicate 2 3 ++ 12 ∷ 3 ∷ []) }
    ensures channel_0 { map (channel_state Server 0) (moments server07.turns) ≡ replicate 9 [] ++ (2 ∷ 9 ∷ 5 ∷ 2 ∷ []) ∷ replicate 2 []
        ++ replicate 23 (1 ∷ 5 ∷ 6 ∷ []) ++ (3 ∷ 6 ∷ 7 ∷ 5 ∷ 6 ∷ 9 ∷ replicate 5 0) ∷ replicate 6 (3 ∷ 6 ∷ 7 ∷ 5 ∷ 6 ∷ 9 ∷ 1
        ∷ replicate 4 0) ++ replicate 4 [] ++ replicate 9 (2 ∷ replicate 2 8 ++ 0 ∷ []) }
    ensures channel_1 { map (channel_state Server 1) (moments server07.turns) ≡ replicate 11 [] ++ replicate 44 (2 ∷ 10 ∷ 5 ∷ 4 ∷ []) }
    ensures channel_2 { map (channel_state Server 2) (moments server07.turns) ≡ replicate 13 [] ++ replicate 24 (2 ∷ 9 ∷ 5 ∷ 8 ∷ []) ++ (3
        ∷ 9 ∷ 5 ∷ 7 ∷ 6 ∷ 8 ∷ replicate 5 0) ∷ replicate 3 (3 ∷ 9 ∷ 5 ∷ 7 ∷ 6 ∷ 8 ∷ 1 ∷ replicate 4 0) ++ replicate 3 (3 ∷ 9 ∷ 5 ∷ 3 ∷ 6 ∷ 8
        ∷ 1 ∷ replicate 4 0) ++ replicate 11 [] }
    ensures held { map (held Server (numbers_from 0 3)) (moments server07.turns) ≡ replicate 9 (replicate 3 false) ++ (true
        ∷ replicate 2 false) ∷ replicate 3 false ∷ (false ∷ true ∷ false ∷ []) ∷ (replicate 2 true ++ false ∷ [])
        ∷ replicate 29 (replicate 3 true) ++ replicate 2 (false ∷ replicate 2 true) ++ replicate 2 (false ∷ true ∷ false ∷ [])
        ++ replicate 9 (replicate 2 true ++ false ∷ []) }
    ensures replies { map (replies Server (numbers_from 0 3)) (moments server07.turns) ≡ replicate 35 (replicate 3 []) ++ replicate 2 (((0
        ∷ 9 ∷ []) ∷ []) ∷ replicate 2 []) ++ replicate 5 (((0 ∷ 9 ∷ []) ∷ []) ∷ [] ∷ ((2 ∷ 8 ∷ []) ∷ []) ∷ [])
        ++ replicate 2 (replicate 2 [] ++ ((2 ∷ 8 ∷ []) ∷ []) ∷ []) ++ replicate 11 (replicate 3 []) }
    ensures owed { map (owed_closes Server) (moments server07.turns) ≡ replicate 55 [] }
    ensures globals { map waiting_globals (moments server07.turns) ≡ replicate 21 (replicate 2 0) ++ replicate 11 (0 ∷ 1 ∷ [])
        ++ replicate 23 (replicate 2 0) }
    ensures all_numbers_35 { allowed server07.ends Server (numbers_from 0 256) (whole (take 35 server07.turns)) ≡ numbers_from 0 5
        ++ numbers_from 8 13 ++ numbers_from 22 8 ++ numbers_from 32 19 ++ numbers_from 54 6 ++ numbers_from 61 195 }
    ensures all_numbers_55 { allowed server07.ends Server (numbers_from 0 256) (whole (take 55 server07.turns)) ≡ numbers_from 0 5
        ++ numbers_from 8 13 ++ numbers_from 22 8 ++ numbers_from 32 19 ++ numbers_from 54 6 ++ numbers_from 61 195 }
    ensures first_offer { offer server07.ends Server true [] ≡ proposing (codes "k3" ∷ codes "k1" ∷ codes "k2" ∷ codes "ext-info-s"
        ∷ codes "kex-strict-s-v00@openssh.com" ∷ []) (codes "h3" ∷ codes "h1" ∷ []) (codes "e1" ∷ []) (codes "e1" ∷ []) (codes "m2"
        ∷ []) (codes "m2" ∷ []) }
    ensures later_offer { offer server07.ends Server false [] ≡ proposing (codes "k3" ∷ codes "k1" ∷ codes "k2" ∷ []) (codes "h3"
        ∷ codes "h1" ∷ []) (codes "e1" ∷ []) (codes "e1" ∷ []) (codes "m2" ∷ []) (codes "m2" ∷ []) }
    ensures texts { map exchange_text (exchanges server07.ends Server (whole server07.turns)) ≡ server07.text_3 ∷ server07.text_2
        ∷ server07.text_1 ∷ server07.text_0 ∷ [] }
    ensures algorithms { map names_of (choices Server (whole server07.turns)) ≡ (codes "k1" ∷ codes "h3" ∷ replicate 2 (codes "e1")
        ++ replicate 2 (codes "m2") ++ replicate 2 (codes "none")) ∷ (codes "k3" ∷ codes "h1" ∷ replicate 2 (codes "e1")
        ++ replicate 2 (codes "m2") ++ replicate 2 (codes "none")) ∷ (codes "k1" ∷ codes "h1" ∷ replicate 2 (codes "e1")
        ++ replicate 2 (codes "m2") ++ replicate 2 (codes "none")) ∷ (codes "k3" ∷ codes "h1" ∷ replicate 2 (codes "e1")
        ++ replicate 2 (codes "m2") ++ replicate 2 (codes "none")) ∷ [] }
    ensures session { session_id (exchanges server07.ends Server (whole server07.turns)) ≡ sha256 server07.text_0 }
    ensures sending_key { sending_name server07.ends Server (whole server07.turns)
        ≡ named Server (sha256 server07.text_3) (sha256 server07.text_0) }
    ensures taking_key { taking_name server07.ends Server (whole server07.turns)
        ≡ named Client (sha256 server07.text_3) (sha256 server07.text_0) }
{}

/// Client08: values after each of 54 turns.
#[tactic(auto, unfolding(ssh_model::specs::Protocol::Channels::History::has_place, ssh_model::specs::Protocol::Channels::History::some_free, ssh_model::specs::Protocol::KeyExchange::Choice::methods, ssh_model::specs::Protocol::KeyExchange::Exchange::string_of))]
pub fn client08()
    ensures phases { map (phase client08.ends Client) (moments client08.turns) ≡ replicate 3 Start ++ replicate 2 Exchanging ++ Keying
        ∷ replicate 24 Normal ++ replicate 3 Exchanging ++ replicate 6 Keying ++ Normal ∷ replicate 2 Exchanging ++ replicate 2 Keying
        ++ Normal ∷ Exchanging ∷ replicate 3 Keying ++ replicate 5 Normal }
    ensures blocked { map blocked (moments client08.turns) ≡ replicate 5 true ++ replicate 25 false ++ replicate 3 true ++ replicate 7 false
        ++ replicate 2 true ++ replicate 3 false ++ true ∷ replicate 8 false }
    ensures died { map has_died (moments client08.turns) ≡ replicate 53 false ++ true ∷ [] }
    ensures can_feed { map can_feed (moments client08.turns) ≡ replicate 29 true ++ false ∷ replicate 4 true ++ replicate 6 false
        ++ replicate 3 true ++ replicate 2 false ++ replicate 3 true ++ replicate 6 false }
    ensures points { map (point_now client08.ends Client) (moments client08.turns) ≡ replicate 5 (replicate 32 105) ++ replicate 24 []
        ++ replicate 4 (replicate 32 142) ++ [] ∷ replicate 8 (replicate 32 168) ++ [] ∷ replicate 3 (replicate 32 221) ++ replicate 2 []
        ++ replicate 6 (replicate 32 138) }
    ensures cookies { map next_cookie (moments client08.turns) ≡ replicate 29 [] ++ replicate 16 39 ∷ replicate 4 []
        ++ replicate 6 (replicate 16 71) ++ replicate 3 [] ++ replicate 2 (replicate 16 26) ++ replicate 3 []
        ++ replicate 6 (replicate 16 48) }
    ensures other_lines { map other_lines (moments client08.turns) ≡ replicate 54 0 }
    ensures strict { map (is_strict Client) (moments client08.turns) ≡ replicate 54 false }
    ensures epochs_sent { map (λ h. epoch (sent h)) (moments client08.turns) ≡ replicate 5 0 ++ replicate 28 1 ++ replicate 9 2
        ++ replicate 4 3 ++ replicate 8 4 }
    ensures epochs_taken { map (λ h. epoch (took h)) (moments client08.turns) ≡ replicate 6 0 ++ replicate 33 1 ++ replicate 5 2
        ++ replicate 5 3 ++ replicate 5 4 }
    ensures counts_sent { map (λ h. count (sent h)) (moments client08.turns) ≡ replicate 3 1 ++ replicate 2 2 ++ replicate 2 0
        ++ replicate 2 1 ++ replicate 7 2 ++ replicate 4 3 ++ replicate 3 4 ++ 5 ∷ replicate 6 6 ++ replicate 3 8 ++ replicate 2 0 ++ 1
        ∷ replicate 4 2 ++ replicate 2 4 ++ replicate 3 0 ++ 2 ∷ 0 ∷ replicate 3 1 ++ 2 ∷ replicate 2 3 ++ 4 ∷ [] }
    ensures counts_taken { map (λ h. count (took h)) (moments client08.turns) ≡ replicate 3 0 ++ replicate 2 1 ++ 2 ∷ replicate 2 0 ++ 1
        ∷ replicate 2 2 ++ 3 ∷ 4 ∷ 5 ∷ 6 ∷ replicate 2 7 ++ 8 ∷ 9 ∷ replicate 2 10 ++ 11 ∷ replicate 3 12 ++ 13 ∷ 14 ∷ 15 ∷ replicate 2 16
        ++ 17 ∷ 18 ∷ 19 ∷ replicate 6 20 ++ 0 ∷ 1 ∷ 2 ∷ replicate 2 3 ++ 0 ∷ 1 ∷ replicate 3 2 ++ 0 ∷ replicate 2 1 ++ replicate 2 2 }
    ensures later_sent { map (λ h. length (after_first (sent h))) (moments client08.turns) ≡ replicate 7 0 ++ replicate 2 1 ++ replicate 7 2
        ++ replicate 4 3 ++ replicate 3 4 ++ 5 ∷ replicate 6 6 ++ replicate 3 8 ++ replicate 2 9 ++ 10 ∷ replicate 4 11 ++ replicate 2 13
        ++ replicate 3 14 ++ 16 ∷ 17 ∷ replicate 3 18 ++ 19 ∷ replicate 2 20 ++ 21 ∷ [] }
    ensures later_taken { map (λ h. length (after_first (took h))) (moments client08.turns) ≡ replicate 8 0 ++ 1 ∷ replicate 2 2 ++ 3 ∷ 4
        ∷ 5 ∷ 6 ∷ replicate 2 7 ++ 8 ∷ 9 ∷ replicate 2 10 ++ 11 ∷ replicate 3 12 ++ 13 ∷ 14 ∷ 15 ∷ replicate 2 16 ++ 17 ∷ 18 ∷ 19
        ∷ replicate 6 20 ++ 21 ∷ 22 ∷ 23 ∷ replicate 2 24 ++ 25 ∷ 26 ∷ replicate 3 27 ++ 28 ∷ replicate 2 29 ++ replicate 2 30 }
    ensures numbers_sent { map (sending_number Client) (moments client08.turns) ≡ replicate 3 1 ++ replicate 2 2 ++ replicate 2 3
        ++ replicate 2 4 ++ replicate 7 5 ++ replicate 4 6 ++ replicate 3 7 ++ 8 ∷ replicate 6 9 ++ replicate 3 11 ++ replicate 2 12 ++ 13
        ∷ replicate 4 14 ++ replicate 2 16 ++ replicate 3 17 ++ 19 ∷ 20 ∷ replicate 3 21 ++ 22 ∷ replicate 2 23 ++ 24 ∷ [] }
    ensures numbers_taken { map (taking_number Client) (moments client08.turns) ≡ replicate 3 0 ++ replicate 2 1 ++ 2 ∷ replicate 2 3 ++ 4
        ∷ replicate 2 5 ++ 6 ∷ 7 ∷ 8 ∷ 9 ∷ replicate 2 10 ++ 11 ∷ 12 ∷ replicate 2 13 ++ 14 ∷ replicate 3 15 ++ 16 ∷ 17 ∷ 18
        ∷ replicate 2 19 ++ 20 ∷ 21 ∷ 22 ∷ replicate 6 23 ++ 24 ∷ 25 ∷ 26 ∷ replicate 2 27 ++ 28 ∷ 29 ∷ replicate 3 30 ++ 31
        ∷ replicate 2 32 ++ replicate 2 33 }
    ensures keys_sent { map (sending_key client08.ends Client) (moments client08.turns) ≡ replicate 5 None
        ++ replicate 37 (Some (codes "e1m1")) ++ replicate 4 (Some (codes "e1m3")) ++ replicate 8 (Some (codes "e1m1")) }
    ensures keys_taken { map (taking_key client08.ends Client) (moments client08.turns) ≡ replicate 6 None
        ++ replicate 38 (Some (codes "e1m1")) ++ replicate 5 (Some (codes "e1m3")) ++ replicate 5 (Some (codes "e1m1")) }
    ensures may_take { map (allowed client08.ends Client client08.numbers) (moments client08.turns) ≡ replicate 6 [] ++ replicate 2 (22 ∷ 54
        ∷ 61 ∷ 79 ∷ []) ++ replicate 9 (22 ∷ 53 ∷ 54 ∷ 61 ∷ 79 ∷ []) ++ replicate 13 (22 ∷ 54 ∷ 61 ∷ 79 ∷ 83 ∷ 90 ∷ 100 ∷ 101 ∷ 191 ∷ [])
        ++ replicate 9 (22 ∷ []) ++ (22 ∷ 54 ∷ 61 ∷ 79 ∷ 83 ∷ 90 ∷ 100 ∷ 101 ∷ 191 ∷ []) ∷ replicate 4 (22 ∷ []) ++ (22 ∷ 54 ∷ 61 ∷ 79 ∷ 83
        ∷ 90 ∷ 100 ∷ 101 ∷ 191 ∷ []) ∷ replicate 4 (22 ∷ []) ++ replicate 5 (22 ∷ 54 ∷ 61 ∷ 79 ∷ 83 ∷ 90 ∷ 100 ∷ 101 ∷ 191 ∷ []) }
    ensures extensions { map (may_take_extensions Client) (moments client08.turns) ≡ replicate 6 false ++ replicate 2 true
        ++ replicate 46 false }
    ensures announces { map (announces client08.ends Client) (moments client08.turns) ≡ replicate 54 false }
    ensures requested { map (service_requested Client) (moments client08.turns) ≡ replicate 7 false ++ replicate 47 true }
    ensures accepted { map took_service_accept (moments client08.turns) ≡ replicate 8 false ++ replicate 46 true }
    ensures authenticated { map (authenticated Client) (moments client08.turns) ≡ replicate 17 false ++ replicate 37 true }
    ensures failures { map failures (moments client08.turns) ≡ replicate 54 0 }
    ensures outstanding { map (λ h. request_number (outstanding h)) (moments client08.turns) ≡ replicate 16 0 ++ 3 ∷ replicate 37 0 }
    ensures refused { map (verdicts client08.ends Client client08.messages) (moments client08.turns) ≡ replicate 3 (replicate 2 0
        ++ replicate 12 7) ++ replicate 2 (replicate 5 7 ++ replicate 3 0 ++ replicate 6 7) ++ replicate 11 (replicate 14 7)
        ++ (replicate 9 7 ++ 0 ∷ replicate 4 7) ∷ (replicate 2 12 ++ replicate 3 16 ++ replicate 6 7 ++ replicate 2 16 ++ 7 ∷ [])
        ∷ replicate 11 (replicate 2 12 ++ replicate 3 16 ++ replicate 6 7 ++ 16 ∷ replicate 2 7) ++ (replicate 2 0 ++ replicate 3 16
        ++ replicate 6 7 ++ 16 ∷ replicate 2 7) ∷ replicate 3 (replicate 5 7 ++ replicate 3 0 ++ replicate 6 7)
        ++ replicate 6 (replicate 14 7) ++ (replicate 2 0 ++ replicate 3 16 ++ replicate 6 7 ++ 16 ∷ replicate 2 7)
        ∷ replicate 2 (replicate 5 7 ++ replicate 3 0 ++ replicate 6 7) ++ replicate 2 (replicate 14 7) ++ (replicate 2 0 ++ replicate 3 16
        ++ replicate 6 7 ++ 16 ∷ replicate 2 7) ∷ (replicate 5 7 ++ replicate 3 0 ++ replicate 6 7) ∷ replicate 3 (replicate 14 7)
        ++ replicate 2 (replicate 2 0 ++ replicate 3 16 ++ replicate 6 7 ++ 16 ∷ replicate 2 7) ++ replicate 3 (replicate 5 0
        ++ replicate 6 7 ++ 16 ∷ replicate 2 7) }
    ensures asks_refused { map (ask_verdicts client08.ends Client client08.asks) (moments client08.turns) ≡ replicate 8 (replicate 9 1)
        ++ replicate 8 (replicate 4 1 ++ 0 ∷ replicate 2 1 ++ 0 ∷ 1 ∷ []) ++ (replicate 4 1 ++ 2 ∷ replicate 2 1 ++ 2 ∷ 1 ∷ [])
        ∷ replicate 2 (replicate 2 3 ++ 8 ∷ 12 ∷ 6 ∷ replicate 2 3 ++ 6 ∷ 3 ∷ []) ++ replicate 5 (replicate 2 3 ++ 0 ∷ 12 ∷ 6
        ∷ replicate 2 3 ++ 6 ∷ 3 ∷ []) ++ replicate 5 (replicate 3 9 ++ 12 ∷ 6 ∷ replicate 2 9 ++ 6 ∷ 9 ∷ []) ++ (replicate 3 9 ++ 0 ∷ 6
        ∷ replicate 2 9 ++ 6 ∷ 9 ∷ []) ∷ replicate 3 (replicate 4 2 ++ 6 ∷ replicate 2 2 ++ 6 ∷ 2 ∷ []) ++ replicate 3 (replicate 2 3 ++ 0
        ∷ 2 ∷ 6 ∷ 10 ∷ 3 ∷ 6 ∷ 3 ∷ []) ++ replicate 3 (replicate 2 3 ++ 8 ∷ 2 ∷ 6 ∷ 10 ∷ 3 ∷ 6 ∷ 3 ∷ []) ++ (replicate 2 3 ++ 8 ∷ 0 ∷ 6 ∷ 10
        ∷ 3 ∷ 6 ∷ 3 ∷ []) ∷ replicate 2 (replicate 4 2 ++ 6 ∷ replicate 2 2 ++ 6 ∷ 2 ∷ []) ++ replicate 2 (replicate 2 3 ++ 8 ∷ 2 ∷ 6 ∷ 10
        ∷ 3 ∷ 6 ∷ 3 ∷ []) ++ (replicate 2 3 ++ 8 ∷ 0 ∷ 6 ∷ 10 ∷ 3 ∷ 6 ∷ 3 ∷ []) ∷ (replicate 4 2 ++ 6 ∷ replicate 2 2 ++ 6 ∷ 2 ∷ [])
        ∷ replicate 3 (replicate 2 3 ++ 8 ∷ 2 ∷ 6 ∷ 10 ∷ 3 ∷ 6 ∷ 3 ∷ []) ++ replicate 2 (replicate 2 3 ++ 8 ∷ 0 ∷ 6 ∷ 10 ∷ 3 ∷ 6 ∷ 3 ∷ [])
        ++ replicate 3 (5 ∷ 3 ∷ 8 ∷ 0 ∷ 6 ∷ 10 ∷ 3 ∷ 6 ∷ 3 ∷ []) }
    ensures channel_0 { map (channel_state Client 0) (moments client08.turns) ≡ replicate 26 [] ++ replicate 28 (2 ∷ 12 ∷ 5 ∷ 9 ∷ []) }
    ensures channel_1 { map (channel_state Client 1) (moments client08.turns) ≡ replicate 18 [] ++ replicate 33 (2 ∷ 4 ∷ 5 ∷ 2 ∷ [])
        ++ replicate 3 (3 ∷ 4 ∷ replicate 2 5 ++ 6 ∷ 2 ∷ replicate 5 0) }
    ensures channel_2 { map (channel_state Client 2) (moments client08.turns) ≡ replicate 54 [] }
    ensures held { map (held Client (numbers_from 0 3)) (moments client08.turns) ≡ replicate 18 (replicate 3 false) ++ replicate 8 (false
        ∷ true ∷ false ∷ []) ++ replicate 28 (replicate 2 true ++ false ∷ []) }
    ensures replies { map (replies Client (numbers_from 0 3)) (moments client08.turns) ≡ replicate 51 (replicate 3 []) ++ replicate 3 ([]
        ∷ ((1 ∷ 2 ∷ []) ∷ []) ∷ [] ∷ []) }
    ensures owed { map (owed_closes Client) (moments client08.turns) ≡ replicate 54 [] }
    ensures globals { map waiting_globals (moments client08.turns) ≡ replicate 19 (replicate 2 0) ++ (1 ∷ 0 ∷ []) ∷ replicate 2 1 ∷ (2 ∷ 1
        ∷ []) ∷ (2 ∷ 0 ∷ []) ∷ (2 ∷ 1 ∷ []) ∷ replicate 4 (replicate 2 1) ++ replicate 7 (1 ∷ 0 ∷ []) ++ replicate 2 1 ∷ replicate 11 (0 ∷ 1
        ∷ []) ++ replicate 7 (0 ∷ 2 ∷ []) }
    ensures all_numbers_29 { allowed client08.ends Client (numbers_from 0 256) (whole (take 29 client08.turns)) ≡ numbers_from 0 5
        ++ numbers_from 8 13 ++ numbers_from 22 8 ++ numbers_from 32 18 ++ numbers_from 54 6 ++ numbers_from 61 195 }
    ensures all_numbers_54 { allowed client08.ends Client (numbers_from 0 256) (whole (take 54 client08.turns)) ≡ numbers_from 0 5
        ++ numbers_from 8 13 ++ numbers_from 22 8 ++ numbers_from 32 18 ++ numbers_from 54 6 ++ numbers_from 61 195 }
    ensures first_offer { offer client08.ends Client true [] ≡ proposing (codes "k3" ∷ codes "k2" ∷ codes "ext-info-c" ∷ []) (codes "h2"
        ∷ codes "h1" ∷ codes "h3" ∷ []) (codes "e1" ∷ []) (codes "e1" ∷ []) (codes "m1" ∷ codes "m3" ∷ []) (codes "m1" ∷ codes "m3" ∷ []) }
    ensures later_offer { offer client08.ends Client false [] ≡ proposing (codes "k3" ∷ codes "k2" ∷ []) (codes "h2" ∷ codes "h1"
        ∷ codes "h3" ∷ []) (codes "e1" ∷ []) (codes "e1" ∷ []) (codes "m1" ∷ codes "m3" ∷ []) (codes "m1" ∷ codes "m3" ∷ []) }
    ensures texts { map exchange_text (exchanges client08.ends Client (whole client08.turns)) ≡ client08.text_3 ∷ client08.text_2
        ∷ client08.text_1 ∷ client08.text_0 ∷ [] }
    ensures algorithms { map names_of (choices Client (whole client08.turns)) ≡ (codes "k3" ∷ codes "h2" ∷ replicate 2 (codes "e1")
        ++ replicate 2 (codes "m1") ++ replicate 2 (codes "none")) ∷ (codes "k3" ∷ codes "h2" ∷ replicate 2 (codes "e1")
        ++ replicate 2 (codes "m3") ++ replicate 2 (codes "none")) ∷ replicate 2 (codes "k3" ∷ codes "h2" ∷ replicate 2 (codes "e1")
        ++ replicate 2 (codes "m1") ++ replicate 2 (codes "none")) }
    ensures session { session_id (exchanges client08.ends Client (whole client08.turns)) ≡ sha256 client08.text_0 }
    ensures sending_key { sending_name client08.ends Client (whole client08.turns)
        ≡ named Client (sha256 client08.text_3) (sha256 client08.text_0) }
    ensures taking_key { taking_name client08.ends Client (whole client08.turns)
        ≡ named Server (sha256 client08.text_3) (sha256 client08.text_0) }
{}
