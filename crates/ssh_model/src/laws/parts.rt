//! The part that an end asks, and under which name: algorithms by their direction, host keys by the chosen algorithm, and the
//! agreement of its own side.

ghost use Rattle.std.specs.Prelude.{◌≡◌, ◌++◌, true, false, [], Some, codes, replicate};
ghost use Rattle.ssh_model.specs.declared.side.Side.TheVariants.{Client, Server};
ghost use Rattle.ssh_model.specs.Protocol.KeyExchange.Exchanges.{sending_key, taking_key};
ghost use Rattle.ssh_model.specs.Protocol.Sessions.Transport.{host_key_now, is_trusted, point_now};
ghost use Rattle.ssh_model.specs.Example.Toys.{naming_toys, own_points, secret, two_host_keys};
ghost use Rattle.ssh_model.specs.Example.Histories.{offered, offered_by, keyed_naming};

/// Each direction has its own encryption and MAC: from the client to the server those of the lists `cs`, and back those
/// of `sc`.
pub fn directions()
    ensures client_sends { sending_key naming_toys Client (keyed_naming Client) ≡ Some (codes "a" ++ codes "c") }
    ensures client_takes { taking_key naming_toys Client (keyed_naming Client) ≡ Some (codes "b" ++ codes "d") }
    ensures server_sends { sending_key naming_toys Server (keyed_naming Server) ≡ Some (codes "b" ++ codes "d") }
    ensures server_takes { taking_key naming_toys Server (keyed_naming Server) ≡ Some (codes "a" ++ codes "c") }
{}

/// The server answers with the host key of the chosen algorithm, and the client judges it under that name.
pub fn host_keys()
    ensures by_server { host_key_now two_host_keys (offered_by two_host_keys Server) ≡ codes "x" }
    ensures by_client { is_trusted two_host_keys (offered_by two_host_keys Client) (codes "x") [] [] ≡ true }
    ensures other_by_client { is_trusted two_host_keys (offered_by two_host_keys Client) (codes "toy@example.com") [] [] ≡ false }
{}

/// Each end has an agreement of its own.
pub fn agreements()
    ensures client { point_now own_points Client (offered Client) ≡ secret 1 }
    ensures server { point_now own_points Server (offered Server) ≡ replicate 32 9 }
{}
