ghost use Rattle.std.specs.Prelude.{◌≡◌};
ghost use Rattle.ssh_model.specs.Protocol.KeyExchange.Exchange.{Inputs, exchange_text};
ghost use Rattle.ssh_model.specs.Laws.KeyExchange.{Fits};

/// Two key exchanges that hash the same text have the same inputs, if the length of each input fits into the uint32
/// in front of it (RFC 5656 section 4).
#[tactic(auto, using(crate::proofs::KeyExchange::Texts::equal_inputs))]
pub fn equal_texts()
    ensures { (x y : Inputs) → Fits x → Fits y → exchange_text x ≡ exchange_text y → x ≡ y }
{}
