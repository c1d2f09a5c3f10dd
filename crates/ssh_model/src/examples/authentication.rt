//! The definitions applied to the requests for authentication of two toy ends.

ghost use Rattle.std.specs.Prelude.{◌≡◌, ◌∷◌, true, false, [], Some, None, codes, replicate};
ghost use Rattle.ssh_model.specs.declared.side.Side.TheVariants.{Server};
ghost use Rattle.ssh_model.specs.Example.Histories.{connection, friendly, served, userauth, with_methods};
ghost use Rattle.ssh_model.specs.Example.Toys.{toy};
ghost use Rattle.ssh_model.specs.Protocol.Wire.Message.{Method.NoMethod, Method.Password, Method.Publickey};
ghost use Rattle.ssh_model.specs.Protocol.Authentication.Requests.{judge_of, is_known_key, signed_text, is_accepted, is_good_probe};

/// What a server accepts, and what a client signs.
pub fn request_examples()
    ensures accepted_password { is_accepted toy (served Server) (codes "u") connection (Password (codes "p") None) ≡ true }
    ensures other_password { is_accepted toy (served Server) (codes "u") connection (Password (codes "q") None) ≡ false }
    ensures changed_password { is_accepted toy (served Server) (codes "u") connection (Password (codes "p") (Some (codes "q"))) ≡ false }
    ensures other_service_of_request { is_accepted toy (served Server) (codes "u") userauth (Password (codes "p") None) ≡ false }
    ensures bare_request { is_accepted toy (served Server) (codes "u") connection NoMethod ≡ false }
    ensures bare_request_admitted { is_accepted (record toy { admits = λ user. true }) (served Server) (codes "u") connection NoMethod
        ≡ true }
    ensures password_not_configured { is_accepted (with_methods (codes "publickey" ∷ [])) (served Server) (codes "u") connection
        (Password (codes "p") None) ≡ false }
    ensures key_alone_is_not_accepted { is_accepted toy (served Server) (codes "u") connection (Publickey (codes "toy") (codes "k") None)
        ≡ false }
    ensures probe_of_known_key { is_good_probe toy (codes "u") connection (Publickey (codes "toy") (codes "k") None) ≡ true }
    ensures probe_of_other_key { is_good_probe toy (codes "u") connection (Publickey (codes "toy") (codes "l") None) ≡ false }
    ensures probe_for_other_service { is_good_probe toy (codes "u") userauth (Publickey (codes "toy") (codes "k") None) ≡ false }
    ensures probe_not_configured { is_good_probe (with_methods (codes "password" ∷ [])) (codes "u") connection
        (Publickey (codes "toy") (codes "k") None) ≡ false }
    ensures longest_key { is_known_key (judge_of friendly) [] (replicate 64 0) (replicate 16384 0) ≡ true }
    ensures longer_key { is_known_key (judge_of friendly) [] [] (replicate 16385 0) ≡ false }
    ensures longer_algorithm { is_known_key (judge_of friendly) [] (replicate 65 0) [] ≡ false }
    ensures what_is_signed { signed_text (codes "s") (codes "u") (codes "c") (codes "t") (codes "k") ≡ 0 ∷ 0 ∷ 0 ∷ 1 ∷ 115 ∷ 50 ∷ 0 ∷ 0
        ∷ 0 ∷ 1 ∷ 117 ∷ 0 ∷ 0 ∷ 0 ∷ 1 ∷ 99 ∷ 0 ∷ 0 ∷ 0 ∷ 9 ∷ 112 ∷ 117 ∷ 98 ∷ 108 ∷ 105 ∷ 99 ∷ 107 ∷ 101 ∷ 121 ∷ 1 ∷ 0 ∷ 0 ∷ 0 ∷ 1 ∷ 116
        ∷ 0 ∷ 0 ∷ 0 ∷ 1 ∷ 107 ∷ [] }
{}
