ghost use Rattle.std.specs.Prelude.{◌≡◌, ◌≤◌, ◌++◌, Bool, None, List, [], ◌∷◌, length, take, ℕ};
ghost use Rattle.ssh_model.specs.Protocol.Wire.Sealing.{Crypto, IsSealing};
ghost use Rattle.ssh_model.specs.declared.refusal.Refusal.{Refusal};
ghost use Rattle.ssh_packet.specs.Directions.{NextOpens, Receiver, Receives};
ghost use Rattle.ssh_packet.specs.declared.step.PacketStep.{PacketStep};
ghost use Rattle.ssh_packet.specs.declared.step.PacketStep.TheVariants as step;
ghost use Rattle.ssh_model.specs.Protocol.Sessions.Epochs.{epoch};
ghost use Rattle.ssh_model.specs.Protocol.Sessions.Items.{Payload, Payload.NewkeysOf, Payload.OtherOf};
ghost use Rattle.ssh_packet.specs.Directions.{Direction, SumsUp, counted, new_direction, renewed};

/// A direction sums up the payloads that went through it, the newest first. Its number is that of the next packet (RFC 4253
/// section 6.4, and OpenSSH's strict key exchange). Its count is the number of packets after the last NEWKEYS, and its
/// epoch the number of NEWKEYS. It does so before the first payload, after each, and after a NEWKEYS once the next epoch
/// has begun. Before the first NEWKEYS it is the same whether keys are exchanged strictly or not. A fact for proofs, at no
/// cost.
pub fn directions_sum_up<K>()
    ensures none { (strict : Bool) → SumsUp strict [] (new_direction {K = K}) }
    ensures other { (strict : Bool) (l : List Payload) (direction : Direction K) (bytes : List ℕ) → SumsUp strict l direction →
        SumsUp strict (OtherOf bytes ∷ l) (counted direction) }
    ensures newkeys { (strict : Bool) (l : List Payload) (direction : Direction K) (key : K) (bytes : List ℕ) →
        SumsUp strict l direction → SumsUp strict (NewkeysOf bytes ∷ l) (renewed strict key (counted direction)) }
    ensures first_epoch { (strict other : Bool) (l : List Payload) (direction : Direction K) → epoch l ≡ 0 → SumsUp strict l direction →
        SumsUp other l direction }
{}

/// What is told of the next packet before it is taken (`PacketReceiver::peek`) is what is made of it when the same bytes are taken. If it
/// would open to a payload, that is taken and shown. If none would open, no payload is taken. A fact for proofs, at no cost.
pub fn peeked_is_taken<K>()
    ensures opens { (c : Crypto K) (old new : Receiver K) (bytes payload : List ℕ) (used : ℕ) (given : PacketStep Refusal) → IsSealing c →
        (given ≡ step.More → used ≡ length bytes) → Receives c (old.buffered ++ take used bytes) old given new →
        NextOpens c old bytes payload → (given ≡ step.Payload) × (new.payload ≡ payload) }
    ensures none { (c : Crypto K) (old new : Receiver K) (bytes : List ℕ) (used : ℕ) → used ≤ length bytes → old.ended ≡ None →
        ((payload : List ℕ) → NextOpens c old bytes payload → ⊥) → Receives c (old.buffered ++ take used bytes) old step.Payload new → ⊥ }
{
    ssh_model::laws::packet_units::<K>();
}
