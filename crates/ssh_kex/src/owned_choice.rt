use crate::choice::Choice;
use ssh_types::NameBuf;

/// The algorithms that two ends use, with names that own their bytes: a choice that outlives the lists that it was made
/// from, without an allocation. The fields are those of `Choice`.
#[derive(Clone, Copy, Debug)]
pub struct OwnedChoice {
    /// The key exchange method.
    pub kex: NameBuf,
    /// The algorithm of the host key.
    pub host: NameBuf,
    /// The encryption from the client to the server.
    pub enc_cs: NameBuf,
    /// The encryption from the server to the client.
    pub enc_sc: NameBuf,
    /// The MAC from the client to the server.
    pub mac_cs: NameBuf,
    /// The MAC from the server to the client.
    pub mac_sc: NameBuf,
    /// The compression from the client to the server.
    pub comp_cs: NameBuf,
    /// The compression from the server to the client.
    pub comp_sc: NameBuf,
}

impl From<Choice<'_>> for OwnedChoice {
    ghost use Rattle.std.specs.Prelude.{◌≡◌};
    ghost use Rattle.ssh_kex.specs.Values.{chosen_of, owned_chosen};

    ghost from_gives = { λ choice owned. owned_chosen owned ≡ chosen_of choice };

    /// A copy of the names.
    fn from(choice: Choice<'_>) -> OwnedChoice {
        OwnedChoice {
            kex: NameBuf::from(choice.kex),
            host: NameBuf::from(choice.host),
            enc_cs: NameBuf::from(choice.enc_cs),
            enc_sc: NameBuf::from(choice.enc_sc),
            mac_cs: NameBuf::from(choice.mac_cs),
            mac_sc: NameBuf::from(choice.mac_sc),
            comp_cs: NameBuf::from(choice.comp_cs),
            comp_sc: NameBuf::from(choice.comp_sc),
        }
    }
}
