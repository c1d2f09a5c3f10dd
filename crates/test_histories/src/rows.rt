//! Values of definitions besides histories, written by tools/second_reading.

ghost use Rattle.std.specs.Prelude.{map, ◌≡◌, [], ◌∷◌, codes, replicate, ◌++◌, false, true, None, Some};
ghost use Rattle.test_histories.specs.Words.{chosen_by, can_choose_by, wrong_guesses, judged, numbers_from};
ghost use Rattle.std.specs.List.{filter};
ghost use Rattle.ssh_model.specs.Protocol.Wire.Message.{is_known, is_unknown, message_name, message_number};
ghost use Rattle.ssh_model.specs.Protocol.Sessions.Refusals.{refusal_number, refusal_reason};
ghost use Rattle.ssh_model.specs.Protocol.Wire.Packet.{is_size, with_length, without_length};
ghost use Rattle.ssh_model.specs.Protocol.KeyExchange.Exchange.{mpint_of, blocks};
ghost use Rattle.ssh_model.specs.Protocol.Authentication.Requests.{signed_text};
ghost use Rattle.sha2.specs.Sha256.{sha256};
ghost use Rattle.ssh_model.specs.Protocol.KeyExchange.Exchanges.{iv_letter, cipher_letter, mac_letter};
ghost use Rattle.ssh_model.specs.declared.side.Side.TheVariants.{Client, Server};
ghost use Rattle.test_histories.specs.Drawn.Rows as drawn;

/// Algorithms that are chosen, and guesses.
#[tactic(auto, unfolding(ssh_model::specs::Protocol::KeyExchange::Choice::methods))]
pub fn algorithms()
    ensures chosen { map chosen_by drawn.pairs ≡ ([] ∷ codes "h1" ∷ [] ∷ codes "e2" ∷ replicate 2 (codes "m1")
        ++ replicate 2 (codes "none")) ∷ (codes "k1" ∷ codes "h3" ∷ codes "e2" ∷ codes "e1" ∷ [] ∷ codes "m3" ∷ replicate 2 (codes "none"))
        ∷ (codes "k1" ∷ codes "h1" ∷ [] ∷ codes "e1" ∷ codes "m3" ∷ codes "m1" ∷ replicate 2 (codes "none")) ∷ (codes "k1" ∷ replicate 2 []
        ++ codes "e1" ∷ replicate 2 (codes "m3") ++ replicate 2 (codes "none")) ∷ (codes "k3" ∷ codes "h1" ∷ codes "e2" ∷ codes "e1"
        ∷ replicate 2 (codes "m3") ++ replicate 2 (codes "none")) ∷ (codes "k3" ∷ codes "h3" ∷ codes "e1" ∷ codes "e2"
        ∷ replicate 2 (codes "m2") ++ replicate 2 (codes "none")) ∷ (codes "k2" ∷ codes "h3" ∷ codes "e1" ∷ codes "e2" ∷ codes "m1"
        ∷ codes "m2" ∷ replicate 2 (codes "none")) ∷ (codes "k3" ∷ codes "h3" ∷ replicate 2 (codes "e1") ++ codes "m1" ∷ codes "m3"
        ∷ replicate 2 (codes "none")) ∷ (codes "k3" ∷ codes "h3" ∷ codes "e2" ∷ codes "e1" ∷ codes "m1" ∷ codes "m2"
        ∷ replicate 2 (codes "none")) ∷ (codes "k3" ∷ codes "h2" ∷ codes "e1" ∷ codes "e2" ∷ codes "m3" ∷ codes "m2"
        ∷ replicate 2 (codes "none")) ∷ ([] ∷ codes "h1" ∷ codes "e1" ∷ codes "e2" ∷ codes "m2" ∷ [] ∷ replicate 2 (codes "none"))
        ∷ (codes "k2" ∷ [] ∷ codes "e2" ∷ codes "e1" ∷ codes "m2" ∷ [] ∷ replicate 2 (codes "none")) ∷ (codes "k2" ∷ [] ∷ codes "e2"
        ∷ codes "e1" ∷ codes "m1" ∷ codes "m3" ∷ replicate 2 (codes "none")) ∷ ([] ∷ codes "h1" ∷ codes "e1" ∷ codes "e2" ∷ codes "m2" ∷ []
        ∷ replicate 2 (codes "none")) ∷ (codes "k2" ∷ codes "h1" ∷ codes "e2" ∷ codes "e1" ∷ replicate 2 (codes "m3")
        ++ replicate 2 (codes "none")) ∷ (codes "k3" ∷ codes "h2" ∷ codes "e2" ∷ codes "e1" ∷ [] ∷ codes "m2" ∷ replicate 2 (codes "none"))
        ∷ (codes "k2" ∷ codes "h3" ∷ replicate 2 (codes "e2") ++ [] ∷ codes "m3" ∷ replicate 2 (codes "none")) ∷ (codes "k1" ∷ codes "h3"
        ∷ replicate 2 (codes "e1") ++ codes "m2" ∷ codes "m3" ∷ replicate 2 (codes "none")) ∷ (codes "k2" ∷ codes "h1"
        ∷ replicate 2 (codes "e2") ++ codes "m3" ∷ codes "m1" ∷ replicate 2 (codes "none")) ∷ (codes "k1" ∷ codes "h1" ∷ [] ∷ codes "e1"
        ∷ codes "m2" ∷ codes "m3" ∷ replicate 2 (codes "none")) ∷ (codes "k1" ∷ codes "h1" ∷ replicate 2 (codes "e1") ++ codes "m2" ∷ []
        ∷ replicate 2 (codes "none")) ∷ (codes "k1" ∷ codes "h3" ∷ codes "e1" ∷ [] ∷ codes "m3" ∷ codes "m1" ∷ replicate 2 (codes "none"))
        ∷ ([] ∷ codes "h2" ∷ replicate 2 (codes "e1") ++ codes "m1" ∷ codes "m2" ∷ replicate 2 (codes "none")) ∷ (codes "k2" ∷ codes "h2"
        ∷ replicate 2 (codes "e2") ++ replicate 2 (codes "m3") ++ replicate 2 (codes "none")) ∷ (codes "k3" ∷ codes "h2" ∷ codes "e2"
        ∷ codes "e1" ∷ codes "m2" ∷ codes "m3" ∷ replicate 2 (codes "none")) ∷ (codes "k2" ∷ codes "h2" ∷ codes "e2" ∷ replicate 3 []
        ++ replicate 2 (codes "none")) ∷ (codes "k2" ∷ codes "h2" ∷ replicate 2 (codes "e2") ++ codes "m2" ∷ codes "m3"
        ∷ replicate 2 (codes "none")) ∷ (codes "k1" ∷ codes "h3" ∷ replicate 2 (codes "e1") ++ [] ∷ codes "m1" ∷ replicate 2 (codes "none"))
        ∷ (codes "k2" ∷ codes "h3" ∷ replicate 2 (codes "e1") ++ codes "m1" ∷ codes "m2" ∷ replicate 2 (codes "none")) ∷ ([] ∷ codes "h1"
        ∷ replicate 2 (codes "e2") ++ codes "m2" ∷ codes "m3" ∷ replicate 2 (codes "none")) ∷ (codes "k3" ∷ codes "h3"
        ∷ replicate 2 (codes "e1") ++ codes "m2" ∷ [] ∷ replicate 2 (codes "none")) ∷ ([] ∷ codes "h3" ∷ replicate 2 (codes "e2")
        ++ codes "m2" ∷ [] ∷ replicate 2 (codes "none")) ∷ [] }
    ensures can_choose { map can_choose_by drawn.pairs ≡ replicate 4 false ++ replicate 6 true ++ replicate 4 false ++ true
        ∷ replicate 2 false ++ replicate 2 true ++ replicate 4 false ++ replicate 2 true ++ false ∷ true ∷ false ∷ true
        ∷ replicate 3 false }
    ensures wrong_guesses { map wrong_guesses drawn.pairs ≡ (false ∷ true ∷ []) ∷ (true ∷ false ∷ []) ∷ (false ∷ true ∷ []) ∷ (true ∷ false
        ∷ []) ∷ replicate 2 true ∷ replicate 2 false ∷ replicate 2 (true ∷ false ∷ []) ++ replicate 2 (replicate 2 true)
        ++ replicate 2 (false ∷ true ∷ []) ++ replicate 2 false ∷ replicate 2 true ∷ (true ∷ false ∷ []) ∷ replicate 2 false
        ∷ replicate 2 true ∷ (false ∷ true ∷ []) ∷ replicate 5 (replicate 2 true) ++ replicate 2 false ∷ replicate 2 true ∷ (false ∷ true
        ∷ []) ∷ replicate 2 (replicate 2 true) ++ replicate 2 false ∷ (true ∷ false ∷ []) ∷ replicate 2 false ∷ replicate 2 true ∷ [] }
{}

/// Requests for authentication, by the methods that the server names.
pub fn logins()
    ensures judged_1 { map (judged (codes "publickey" ∷ codes "password" ∷ [])) drawn.requests ≡ replicate 4 (replicate 2 false ++ true
        ∷ []) ++ (true ∷ replicate 2 false) ∷ replicate 3 (replicate 2 false ++ true ∷ []) ++ (true ∷ replicate 2 false)
        ∷ replicate 23 (replicate 2 false ++ true ∷ []) }
    ensures judged_2 { map (judged (codes "password" ∷ [])) drawn.requests ≡ replicate 4 (replicate 2 false ++ true ∷ []) ++ (true
        ∷ replicate 2 false) ∷ replicate 3 (replicate 2 false ++ true ∷ []) ++ (true ∷ replicate 2 false) ∷ replicate 23 (replicate 2 false
        ++ true ∷ []) }
    ensures judged_3 { map (judged (codes "publickey" ∷ [])) drawn.requests ≡ replicate 8 (replicate 2 false ++ true ∷ []) ++ (true
        ∷ replicate 2 false) ∷ replicate 23 (replicate 2 false ++ true ∷ []) }
    ensures judged_4 { map (judged []) drawn.requests ≡ replicate 8 (replicate 2 false ++ true ∷ []) ++ (true ∷ replicate 2 false)
        ∷ replicate 23 (replicate 2 false ++ true ∷ []) }
{}

/// Numbers, names and reason codes.
pub fn numbers()
    ensures known { filter is_known (numbers_from 0 256) ≡ numbers_from 1 7 ++ numbers_from 20 2 ++ numbers_from 30 2 ++ numbers_from 50 4
        ++ numbers_from 60 1 ++ numbers_from 80 3 ++ numbers_from 90 11 }
    ensures unknown { filter (is_unknown false) (numbers_from 0 256) ≡ numbers_from 0 1 ++ numbers_from 8 12 ++ numbers_from 22 8
        ++ numbers_from 32 18 ++ numbers_from 54 26 ++ numbers_from 83 7 ++ numbers_from 101 155 }
    ensures unknown_to_one_that_probes { filter (is_unknown true) (numbers_from 0 256) ≡ numbers_from 0 1 ++ numbers_from 8 12
        ++ numbers_from 22 8 ++ numbers_from 32 18 ++ numbers_from 54 6 ++ numbers_from 61 19 ++ numbers_from 83 7 ++ numbers_from 101 155 }
    ensures names { map message_name (numbers_from 0 256) ≡ codes "UNKNOWN" ∷ codes "DISCONNECT" ∷ codes "IGNORE" ∷ codes "UNIMPLEMENTED"
        ∷ codes "DEBUG" ∷ (codes "SERVICE" ++ 95 ∷ codes "REQUEST") ∷ (codes "SERVICE" ++ 95 ∷ codes "ACCEPT") ∷ (codes "EXT" ++ 95
        ∷ codes "INFO") ∷ replicate 12 (codes "UNKNOWN") ++ codes "KEXINIT" ∷ codes "NEWKEYS" ∷ replicate 8 (codes "UNKNOWN")
        ++ (codes "KEX" ++ 95 ∷ codes "ECDH" ++ 95 ∷ codes "INIT") ∷ (codes "KEX" ++ 95 ∷ codes "ECDH" ++ 95 ∷ codes "REPLY")
        ∷ replicate 18 (codes "UNKNOWN") ++ (codes "USERAUTH" ++ 95 ∷ codes "REQUEST") ∷ (codes "USERAUTH" ++ 95 ∷ codes "FAILURE")
        ∷ (codes "USERAUTH" ++ 95 ∷ codes "SUCCESS") ∷ (codes "USERAUTH" ++ 95 ∷ codes "BANNER") ∷ replicate 6 (codes "UNKNOWN")
        ++ (codes "USERAUTH" ++ 95 ∷ 80 ∷ 75 ∷ 95 ∷ 79 ∷ 75 ∷ []) ∷ replicate 19 (codes "UNKNOWN") ++ (codes "GLOBAL" ++ 95
        ∷ codes "REQUEST") ∷ (codes "REQUEST" ++ 95 ∷ codes "SUCCESS") ∷ (codes "REQUEST" ++ 95 ∷ codes "FAILURE")
        ∷ replicate 7 (codes "UNKNOWN") ++ (codes "CHANNEL" ++ 95 ∷ codes "OPEN") ∷ (codes "CHANNEL" ++ 95 ∷ codes "OPEN" ++ 95
        ∷ codes "CONFIRMATION") ∷ (codes "CHANNEL" ++ 95 ∷ codes "OPEN" ++ 95 ∷ codes "FAILURE") ∷ (codes "CHANNEL" ++ 95 ∷ codes "WINDOW"
        ++ 95 ∷ codes "ADJUST") ∷ (codes "CHANNEL" ++ 95 ∷ codes "DATA") ∷ (codes "CHANNEL" ++ 95 ∷ codes "EXTENDED" ++ 95 ∷ codes "DATA")
        ∷ (codes "CHANNEL" ++ 95 ∷ codes "EOF") ∷ (codes "CHANNEL" ++ 95 ∷ codes "CLOSE") ∷ (codes "CHANNEL" ++ 95 ∷ codes "REQUEST")
        ∷ (codes "CHANNEL" ++ 95 ∷ codes "SUCCESS") ∷ (codes "CHANNEL" ++ 95 ∷ codes "FAILURE") ∷ replicate 155 (codes "UNKNOWN") }
    ensures of_messages { map message_number drawn.messages ≡ 1 ∷ 2 ∷ 3 ∷ 4 ∷ 5 ∷ 6 ∷ 7 ∷ 20 ∷ 21 ∷ 30 ∷ 31 ∷ 50 ∷ 51 ∷ 52 ∷ 53 ∷ 60 ∷ 80
        ∷ 81 ∷ 82 ∷ 90 ∷ 91 ∷ 92 ∷ 93 ∷ 94 ∷ 95 ∷ 96 ∷ 97 ∷ 98 ∷ 99 ∷ 100 ∷ 77 ∷ [] }
    ensures of_refusals { map refusal_number drawn.refusals ≡ numbers_from 1 19 }
    ensures of_reasons { map refusal_reason drawn.refusals ≡ replicate 2 None ++ replicate 2 (Some 2) ++ Some 5 ∷ replicate 2 (Some 2)
        ++ replicate 3 (Some 3) ++ Some 9 ∷ Some 3 ∷ Some 7 ∷ Some 2 ∷ Some 14 ∷ replicate 4 (Some 2) }
{}

/// Sizes that a packet may have without its tag.
pub fn sizes()
    ensures small_1 { filter (is_size (with_length 8) 0) (numbers_from 0 160) ≡ 16 ∷ 24 ∷ 32 ∷ 40 ∷ 48 ∷ 56 ∷ 64 ∷ 72 ∷ 80 ∷ 88 ∷ 96 ∷ 104
        ∷ 112 ∷ 120 ∷ 128 ∷ 136 ∷ 144 ∷ 152 ∷ [] }
    ensures large_1 { filter (is_size (with_length 8) 0) (numbers_from 34920 88) ≡ 34920 ∷ 34928 ∷ 34936 ∷ 34944 ∷ 34952 ∷ 34960 ∷ 34968
        ∷ 34976 ∷ 34984 ∷ 34992 ∷ 35000 ∷ [] }
    ensures small_2 { filter (is_size (with_length 8) 32) (numbers_from 0 160) ≡ 16 ∷ 24 ∷ 32 ∷ 40 ∷ 48 ∷ 56 ∷ 64 ∷ 72 ∷ 80 ∷ 88 ∷ 96 ∷ 104
        ∷ 112 ∷ 120 ∷ 128 ∷ 136 ∷ 144 ∷ 152 ∷ [] }
    ensures large_2 { filter (is_size (with_length 8) 32) (numbers_from 34920 88) ≡ 34920 ∷ 34928 ∷ 34936 ∷ 34944 ∷ 34952 ∷ 34960 ∷ 34968
        ∷ [] }
    ensures small_3 { filter (is_size (with_length 16) 32) (numbers_from 0 160) ≡ 16 ∷ 32 ∷ 48 ∷ 64 ∷ 80 ∷ 96 ∷ 112 ∷ 128 ∷ 144 ∷ [] }
    ensures large_3 { filter (is_size (with_length 16) 32) (numbers_from 34920 88) ≡ 34928 ∷ 34944 ∷ 34960 ∷ [] }
    ensures small_4 { filter (is_size (without_length 16) 16) (numbers_from 0 160) ≡ 20 ∷ 36 ∷ 52 ∷ 68 ∷ 84 ∷ 100 ∷ 116 ∷ 132 ∷ 148 ∷ [] }
    ensures large_4 { filter (is_size (without_length 16) 16) (numbers_from 34920 88) ≡ 34932 ∷ 34948 ∷ 34964 ∷ 34980 ∷ [] }
    ensures small_5 { filter (is_size (without_length 64) 16) (numbers_from 0 160) ≡ 68 ∷ 132 ∷ [] }
    ensures large_5 { filter (is_size (without_length 64) 16) (numbers_from 34920 88) ≡ 34948 ∷ [] }
    ensures small_6 { filter (is_size (with_length 64) 0) (numbers_from 0 160) ≡ 64 ∷ 128 ∷ [] }
    ensures large_6 { filter (is_size (with_length 64) 0) (numbers_from 34920 88) ≡ 34944 ∷ [] }
{}

/// Small numbers as mpints.
#[tactic(auto, unfolding(ssh_model::specs::Protocol::KeyExchange::Exchange::string_of, ssh_model::specs::Protocol::KeyExchange::Exchange::mpint_body, ssh_model::specs::Protocol::KeyExchange::Exchange::digits))]
pub fn mpints()
    ensures mpints { map mpint_of (0 ∷ 1 ∷ 127 ∷ 128 ∷ 255 ∷ 256 ∷ 32767 ∷ 32768 ∷ 1105 ∷ 5437 ∷ 5794 ∷ 12782 ∷ 31134 ∷ 71743 ∷ 74149
        ∷ 103485 ∷ []) ≡ replicate 4 0 ∷ (replicate 3 0 ++ replicate 2 1) ∷ (replicate 3 0 ++ 1 ∷ 127 ∷ []) ∷ (replicate 3 0 ++ 2 ∷ 0 ∷ 128
        ∷ []) ∷ (replicate 3 0 ++ 2 ∷ 0 ∷ 255 ∷ []) ∷ (replicate 3 0 ++ 2 ∷ 1 ∷ 0 ∷ []) ∷ (replicate 3 0 ++ 2 ∷ 127 ∷ 255 ∷ [])
        ∷ (replicate 3 0 ++ 3 ∷ 0 ∷ 128 ∷ 0 ∷ []) ∷ (replicate 3 0 ++ 2 ∷ 4 ∷ 81 ∷ []) ∷ (replicate 3 0 ++ 2 ∷ 21 ∷ 61 ∷ [])
        ∷ (replicate 3 0 ++ 2 ∷ 22 ∷ 162 ∷ []) ∷ (replicate 3 0 ++ 2 ∷ 49 ∷ 238 ∷ []) ∷ (replicate 3 0 ++ 2 ∷ 121 ∷ 158 ∷ [])
        ∷ (replicate 3 0 ++ 3 ∷ 1 ∷ 24 ∷ 63 ∷ []) ∷ (replicate 3 0 ++ 3 ∷ 1 ∷ 33 ∷ 165 ∷ []) ∷ (replicate 3 0 ++ 3 ∷ 1 ∷ 148 ∷ 61 ∷ [])
        ∷ [] }
{}

/// The text that a client signs.
#[tactic(auto, unfolding(ssh_model::specs::Protocol::KeyExchange::Exchange::string_of))]
pub fn signed()
    ensures text { signed_text (codes "session id") (codes "u") (codes "ssh-connection") (codes "alg") (codes "k") ≡ 0 ∷ 0 ∷ 0 ∷ 10
        ∷ codes "session id2" ++ 0 ∷ 0 ∷ 0 ∷ 1 ∷ 117 ∷ 0 ∷ 0 ∷ 0 ∷ 14 ∷ codes "ssh-connection" ++ 0 ∷ 0 ∷ 0 ∷ 9 ∷ codes "publickey" ++ 1 ∷ 0
        ∷ 0 ∷ 0 ∷ 3 ∷ codes "alg" ++ 0 ∷ 0 ∷ 0 ∷ 1 ∷ 107 ∷ [] }
{}

/// The blocks of which keys are made, and their letters.
#[tactic(auto, unfolding(ssh_model::specs::Protocol::KeyExchange::Exchange::blocks))]
pub fn keys()
    ensures blocks_1 { blocks (codes "KH") (codes "Xid") 1 ≡ sha256 (codes "KHXid") }
    ensures blocks_2 { blocks (codes "KH") (codes "Xid") 2 ≡ sha256 (codes "KHXid") ++ sha256 (codes "KH" ++ sha256 (codes "KHXid")) }
    ensures blocks_3 { blocks (codes "KH") (codes "Xid") 3 ≡ (sha256 (codes "KHXid") ++ sha256 (codes "KH" ++ sha256 (codes "KHXid")))
        ++ sha256 (codes "KH" ++ sha256 (codes "KHXid") ++ sha256 (codes "KH" ++ sha256 (codes "KHXid"))) }
    ensures of_client { iv_letter Client ∷ cipher_letter Client ∷ mac_letter Client ∷ [] ≡ codes "ACE" }
    ensures of_server { iv_letter Server ∷ cipher_letter Server ∷ mac_letter Server ∷ [] ≡ codes "BDF" }
{}
