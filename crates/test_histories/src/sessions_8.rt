//! Drawn sessions and their tables, written by tools/second_reading.

ghost use Rattle.std.specs.Prelude.{map, ◌≡◌, replicate, ◌++◌, ◌∷◌, [], true};
ghost use Rattle.ssh_model.specs.Protocol.Sessions.Phases.{phase, Phase.Normal, authenticated};
ghost use Rattle.ssh_model.specs.declared.side.Side.TheVariants.{Client, Server};
ghost use Rattle.test_histories.specs.Words.{moments, allowed, verdicts, ask_verdicts, channel_state, waiting_globals};
ghost use Rattle.ssh_model.specs.Protocol.Sessions.Epochs.{count};
ghost use Rattle.ssh_model.specs.Protocol.Sessions.Items.{sent, took};
ghost use Rattle.test_histories.specs.Drawn.ClientLimits as clientlimits;
ghost use Rattle.test_histories.specs.Drawn.ServerLimits as serverlimits;

/// ClientLimits: values after each of 23 turns.
#[tactic(auto, unfolding(ssh_model::specs::Protocol::Channels::History::has_place, ssh_model::specs::Protocol::Channels::History::some_free, ssh_model::specs::Protocol::KeyExchange::Choice::methods, ssh_model::specs::Protocol::KeyExchange::Exchange::string_of))]
pub fn clientlimits()
    ensures phases { map (phase clientlimits.ends Client) (moments clientlimits.turns) ≡ replicate 23 Normal }
    ensures counts_sent { map (λ h. count (sent h)) (moments clientlimits.turns) ≡ replicate 3 1 ++ replicate 2 2 ++ 257 ∷ replicate 2 258
        ++ replicate 3 259 ++ replicate 2 260 ++ 515 ∷ replicate 2 516 ++ 517 ∷ replicate 6 518 }
    ensures counts_taken { map (λ h. count (took h)) (moments clientlimits.turns) ≡ 2 ∷ 257 ∷ replicate 2 258 ++ replicate 3 259
        ++ replicate 2 260 ++ 515 ∷ replicate 2 516 ++ replicate 3 517 ++ replicate 3 518 ++ 519 ∷ 520 ∷ 521 ∷ 522 ∷ 523 ∷ [] }
    ensures may_take { map (allowed clientlimits.ends Client clientlimits.numbers) (moments clientlimits.turns) ≡ replicate 23 (80 ∷ 98
        ∷ []) }
    ensures authenticated { map (authenticated Client) (moments clientlimits.turns) ≡ replicate 23 true }
    ensures refused { map (verdicts clientlimits.ends Client clientlimits.messages) (moments clientlimits.turns)
        ≡ replicate 2 (replicate 4 0 ++ replicate 2 7) ++ (19 ∷ replicate 3 0 ++ replicate 2 7) ∷ (replicate 4 0 ++ replicate 2 7) ∷ (19
        ∷ replicate 3 0 ++ replicate 2 7) ∷ replicate 5 (19 ∷ replicate 3 0 ++ 7 ∷ 0 ∷ []) ++ (19 ∷ 0 ∷ 19 ∷ 0 ∷ 7 ∷ 0 ∷ []) ∷ (19
        ∷ replicate 3 0 ++ 7 ∷ 0 ∷ []) ∷ (19 ∷ 0 ∷ 19 ∷ 0 ∷ 7 ∷ 0 ∷ []) ∷ replicate 4 (19 ∷ 0 ∷ 19 ∷ replicate 3 0) ++ replicate 5 (19
        ∷ replicate 5 0) ++ (19 ∷ 0 ∷ replicate 3 16 ++ 0 ∷ []) ∷ [] }
    ensures asks_refused { map (ask_verdicts clientlimits.ends Client clientlimits.asks) (moments clientlimits.turns) ≡ (replicate 4 0 ++ 3
        ∷ replicate 2 8 ++ 0 ∷ 5 ∷ 0 ∷ 5 ∷ 0 ∷ 5 ∷ []) ∷ replicate 5 (replicate 4 0 ++ 3 ∷ 8 ∷ replicate 2 0 ++ 5 ∷ 0 ∷ 5 ∷ 0 ∷ 5 ∷ [])
        ++ (2 ∷ replicate 3 0 ++ 3 ∷ 8 ∷ replicate 2 0 ++ 5 ∷ 0 ∷ 5 ∷ 0 ∷ 5 ∷ []) ∷ (replicate 4 0 ++ 3 ∷ 8 ∷ replicate 2 0 ++ 5 ∷ 0 ∷ 5 ∷ 0
        ∷ 5 ∷ []) ∷ (2 ∷ replicate 3 0 ++ 3 ∷ 8 ∷ replicate 2 0 ++ 5 ∷ 0 ∷ 5 ∷ 0 ∷ 5 ∷ []) ∷ replicate 5 (2 ∷ replicate 3 0 ++ 3
        ∷ replicate 3 0 ++ 5 ∷ 0 ∷ 5 ∷ 0 ∷ 5 ∷ []) ++ (2 ∷ 0 ∷ 2 ∷ 0 ∷ 3 ∷ replicate 3 0 ++ 5 ∷ 0 ∷ 5 ∷ 0 ∷ 5 ∷ []) ∷ (2 ∷ replicate 3 0
        ++ 3 ∷ replicate 3 0 ++ 5 ∷ 0 ∷ 5 ∷ 0 ∷ 5 ∷ []) ∷ (2 ∷ 0 ∷ 2 ∷ 0 ∷ 3 ∷ replicate 3 0 ++ 5 ∷ 0 ∷ 5 ∷ 0 ∷ 5 ∷ []) ∷ replicate 3 (2 ∷ 0
        ∷ 2 ∷ 6 ∷ 3 ∷ 6 ∷ replicate 2 0 ++ 5 ∷ 0 ∷ 5 ∷ 0 ∷ 5 ∷ []) ++ replicate 2 (2 ∷ 0 ∷ replicate 2 6 ++ 3 ∷ 6 ∷ replicate 2 0 ++ 5 ∷ 0
        ∷ 5 ∷ 0 ∷ 5 ∷ []) ++ (2 ∷ 0 ∷ replicate 4 3 ++ replicate 2 0 ++ 5 ∷ 0 ∷ 5 ∷ 0 ∷ 5 ∷ []) ∷ [] }
    ensures channel_0 { map (channel_state Client 0) (moments clientlimits.turns) ≡ replicate 9 (3 ∷ replicate 4 9 ++ 5 ∷ replicate 5 0)
        ++ (3 ∷ replicate 4 9 ++ 5 ∷ replicate 3 0 ++ 255 ∷ 0 ∷ []) ∷ (3 ∷ replicate 4 9 ++ 5 ∷ replicate 3 0 ++ 256 ∷ 0 ∷ []) ∷ (3
        ∷ replicate 4 9 ++ 5 ∷ replicate 3 0 ++ 255 ∷ 0 ∷ []) ∷ (3 ∷ replicate 4 9 ++ 5 ∷ replicate 3 0 ++ 256 ∷ 0 ∷ []) ∷ (3
        ∷ replicate 4 9 ++ 5 ∷ replicate 3 0 ++ 256 ∷ 255 ∷ []) ∷ (3 ∷ replicate 4 9 ++ 5 ∷ replicate 3 0 ++ replicate 2 256) ∷ (3
        ∷ replicate 4 9 ++ 5 ∷ replicate 3 0 ++ 256 ∷ 255 ∷ []) ∷ (3 ∷ replicate 4 9 ++ 5 ∷ replicate 3 0 ++ replicate 2 256)
        ∷ replicate 2 (3 ∷ replicate 4 9 ++ 5 ∷ replicate 2 1 ++ 0 ∷ replicate 2 256) ++ (3 ∷ replicate 2 9 ++ 6 ∷ 9 ∷ 5 ∷ replicate 2 1
        ++ 0 ∷ replicate 2 256) ∷ (3 ∷ replicate 2 9 ++ 6 ∷ 9 ∷ 5 ∷ replicate 2 1 ++ 0 ∷ 256 ∷ 255 ∷ []) ∷ (3 ∷ replicate 2 9 ++ 6 ∷ 9 ∷ 5
        ∷ replicate 3 1 ++ 256 ∷ 255 ∷ []) ∷ [] ∷ [] }
    ensures globals { map waiting_globals (moments clientlimits.turns) ≡ replicate 2 0 ∷ (255 ∷ 0 ∷ []) ∷ (256 ∷ 0 ∷ []) ∷ (255 ∷ 0 ∷ [])
        ∷ (256 ∷ 0 ∷ []) ∷ (256 ∷ 255 ∷ []) ∷ replicate 2 256 ∷ (256 ∷ 255 ∷ []) ∷ replicate 15 (replicate 2 256) }
{}

/// ServerLimits: values after each of 23 turns.
#[tactic(auto, unfolding(ssh_model::specs::Protocol::Channels::History::has_place, ssh_model::specs::Protocol::Channels::History::some_free, ssh_model::specs::Protocol::KeyExchange::Choice::methods, ssh_model::specs::Protocol::KeyExchange::Exchange::string_of))]
pub fn serverlimits()
    ensures phases { map (phase serverlimits.ends Server) (moments serverlimits.turns) ≡ replicate 23 Normal }
    ensures counts_sent { map (λ h. count (sent h)) (moments serverlimits.turns) ≡ replicate 3 2 ++ replicate 2 3 ++ 258 ∷ replicate 2 259
        ++ replicate 3 260 ++ replicate 2 261 ++ 516 ∷ replicate 2 517 ++ 518 ∷ replicate 6 519 }
    ensures counts_taken { map (λ h. count (took h)) (moments serverlimits.turns) ≡ 1 ∷ 256 ∷ replicate 2 257 ++ replicate 3 258
        ++ replicate 2 259 ++ 514 ∷ replicate 2 515 ++ replicate 3 516 ++ replicate 3 517 ++ 518 ∷ 519 ∷ 520 ∷ 521 ∷ 522 ∷ [] }
    ensures may_take { map (allowed serverlimits.ends Server serverlimits.numbers) (moments serverlimits.turns) ≡ replicate 23 (80 ∷ 98
        ∷ []) }
    ensures authenticated { map (authenticated Server) (moments serverlimits.turns) ≡ replicate 23 true }
    ensures refused { map (verdicts serverlimits.ends Server serverlimits.messages) (moments serverlimits.turns)
        ≡ replicate 2 (replicate 4 0 ++ replicate 2 7) ++ (19 ∷ replicate 3 0 ++ replicate 2 7) ∷ (replicate 4 0 ++ replicate 2 7) ∷ (19
        ∷ replicate 3 0 ++ replicate 2 7) ∷ replicate 5 (19 ∷ replicate 3 0 ++ 7 ∷ 0 ∷ []) ++ (19 ∷ 0 ∷ 19 ∷ 0 ∷ 7 ∷ 0 ∷ []) ∷ (19
        ∷ replicate 3 0 ++ 7 ∷ 0 ∷ []) ∷ (19 ∷ 0 ∷ 19 ∷ 0 ∷ 7 ∷ 0 ∷ []) ∷ replicate 4 (19 ∷ 0 ∷ 19 ∷ replicate 3 0) ++ replicate 5 (19
        ∷ replicate 5 0) ++ (19 ∷ 0 ∷ replicate 3 16 ++ 0 ∷ []) ∷ [] }
    ensures asks_refused { map (ask_verdicts serverlimits.ends Server serverlimits.asks) (moments serverlimits.turns) ≡ (replicate 4 0 ++ 3
        ∷ replicate 2 8 ++ 0 ∷ 5 ∷ 0 ∷ 5 ∷ 0 ∷ 5 ∷ []) ∷ replicate 5 (replicate 4 0 ++ 3 ∷ 8 ∷ replicate 2 0 ++ 5 ∷ 0 ∷ 5 ∷ 0 ∷ 5 ∷ [])
        ++ (2 ∷ replicate 3 0 ++ 3 ∷ 8 ∷ replicate 2 0 ++ 5 ∷ 0 ∷ 5 ∷ 0 ∷ 5 ∷ []) ∷ (replicate 4 0 ++ 3 ∷ 8 ∷ replicate 2 0 ++ 5 ∷ 0 ∷ 5 ∷ 0
        ∷ 5 ∷ []) ∷ (2 ∷ replicate 3 0 ++ 3 ∷ 8 ∷ replicate 2 0 ++ 5 ∷ 0 ∷ 5 ∷ 0 ∷ 5 ∷ []) ∷ replicate 5 (2 ∷ replicate 3 0 ++ 3
        ∷ replicate 3 0 ++ 5 ∷ 0 ∷ 5 ∷ 0 ∷ 5 ∷ []) ++ (2 ∷ 0 ∷ 2 ∷ 0 ∷ 3 ∷ replicate 3 0 ++ 5 ∷ 0 ∷ 5 ∷ 0 ∷ 5 ∷ []) ∷ (2 ∷ replicate 3 0
        ++ 3 ∷ replicate 3 0 ++ 5 ∷ 0 ∷ 5 ∷ 0 ∷ 5 ∷ []) ∷ (2 ∷ 0 ∷ 2 ∷ 0 ∷ 3 ∷ replicate 3 0 ++ 5 ∷ 0 ∷ 5 ∷ 0 ∷ 5 ∷ []) ∷ replicate 3 (2 ∷ 0
        ∷ 2 ∷ 6 ∷ 3 ∷ 6 ∷ replicate 2 0 ++ 5 ∷ 0 ∷ 5 ∷ 0 ∷ 5 ∷ []) ++ replicate 2 (2 ∷ 0 ∷ replicate 2 6 ++ 3 ∷ 6 ∷ replicate 2 0 ++ 5 ∷ 0
        ∷ 5 ∷ 0 ∷ 5 ∷ []) ++ (2 ∷ 0 ∷ replicate 4 3 ++ replicate 2 0 ++ 5 ∷ 0 ∷ 5 ∷ 0 ∷ 5 ∷ []) ∷ [] }
    ensures channel_0 { map (channel_state Server 0) (moments serverlimits.turns) ≡ replicate 9 (3 ∷ replicate 4 9 ++ 5 ∷ replicate 5 0)
        ++ (3 ∷ replicate 4 9 ++ 5 ∷ replicate 3 0 ++ 255 ∷ 0 ∷ []) ∷ (3 ∷ replicate 4 9 ++ 5 ∷ replicate 3 0 ++ 256 ∷ 0 ∷ []) ∷ (3
        ∷ replicate 4 9 ++ 5 ∷ replicate 3 0 ++ 255 ∷ 0 ∷ []) ∷ (3 ∷ replicate 4 9 ++ 5 ∷ replicate 3 0 ++ 256 ∷ 0 ∷ []) ∷ (3
        ∷ replicate 4 9 ++ 5 ∷ replicate 3 0 ++ 256 ∷ 255 ∷ []) ∷ (3 ∷ replicate 4 9 ++ 5 ∷ replicate 3 0 ++ replicate 2 256) ∷ (3
        ∷ replicate 4 9 ++ 5 ∷ replicate 3 0 ++ 256 ∷ 255 ∷ []) ∷ (3 ∷ replicate 4 9 ++ 5 ∷ replicate 3 0 ++ replicate 2 256)
        ∷ replicate 2 (3 ∷ replicate 4 9 ++ 5 ∷ replicate 2 1 ++ 0 ∷ replicate 2 256) ++ (3 ∷ replicate 2 9 ++ 6 ∷ 9 ∷ 5 ∷ replicate 2 1
        ++ 0 ∷ replicate 2 256) ∷ (3 ∷ replicate 2 9 ++ 6 ∷ 9 ∷ 5 ∷ replicate 2 1 ++ 0 ∷ 256 ∷ 255 ∷ []) ∷ (3 ∷ replicate 2 9 ++ 6 ∷ 9 ∷ 5
        ∷ replicate 3 1 ++ 256 ∷ 255 ∷ []) ∷ [] ∷ [] }
    ensures globals { map waiting_globals (moments serverlimits.turns) ≡ replicate 2 0 ∷ (255 ∷ 0 ∷ []) ∷ (256 ∷ 0 ∷ []) ∷ (255 ∷ 0 ∷ [])
        ∷ (256 ∷ 0 ∷ []) ∷ (256 ∷ 255 ∷ []) ∷ replicate 2 256 ∷ (256 ∷ 255 ∷ []) ∷ replicate 15 (replicate 2 256) }
{}
