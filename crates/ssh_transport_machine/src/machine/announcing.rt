//! The announcement of an end after its first NEWKEYS (RFC 8308 section 2.4).

ghost use Rattle.std.specs.Prelude.{◌≡◌, ◌≤◌, IfOk, length, nat_lt};
ghost use Rattle.std.specs.Option.{option_map};
ghost use Rattle.ssh_model.specs.Protocol.Bounds.{longest_payload};
ghost use Rattle.ssh_model.specs.Protocol.Wire.Message.{ExtInfo};
ghost use Rattle.ssh_model.specs.Laws.Sizes.{payload_size};
ghost use Rattle.ssh_model.specs.Protocol.Sessions.Turns.{IsEncoded};
ghost use Rattle.ssh_model.specs.State.TransportLayer.Kept.{is_announcing};
ghost use Rattle.ssh_message.specs.Announced.{extensions_of};
ghost use Rattle.ssh_config.specs.Meaning.{settings_of};
ghost use Rattle.ssh_transport_machine.specs.Finishing.{IsAnnouncement};

use crate::machine::Machine;
use ssh_config::Config;
use ssh_message::{Extensions, Message};
use ssh_model::laws;
use ssh_packet::Sealing;
use std::alloc::AllocError;

impl<S: Sealing> Machine<S> {
    /// The payload of the EXT_INFO that follows the NEWKEYS sent next, if one does.
    ///
    /// # Errors
    ///
    /// Only if memory is refused.
    pub(crate) fn encode_announcement(&self) -> Result<Option<Vec<u8>>, AllocError>
        ensures { IfOk result (λ payload. IsAnnouncement self.now.kept (option_map (λ v. v.items) payload)) }
    {
        if !self.is_announcing() {
            return Ok(None);
        }
        let payload = self.encode_extensions()?;
        Ok(Some(payload))
    }

    // EXT_INFO follows the NEWKEYS sent next.
    fn is_announcing(&self) -> bool
        ensures { result ≡ is_announcing self.now.kept }
    {
        self.sending.epoch() == 0 && has_extensions(&self.config) && self.peer_takes_extensions
    }

    // The payload of an EXT_INFO.
    fn encode_extensions(&self) -> Result<Vec<u8>, AllocError>
        ensures encoded { IfOk result (λ payload. IsEncoded (ExtInfo self.now.kept.settings.extensions) payload.items) }
        ensures some { IfOk result (λ payload. 1 ≤ length payload.items) }
        ensures most { IfOk result (λ payload. length payload.items ≤ longest_payload) }
    {
        let extensions = own_extensions(&self.config);
        self.encode_payload(&Message::ExtInfo { extensions })
    }
}

// There is something to announce.
fn has_extensions<S: Sealing>(config: &Config<S>) -> bool
    ensures { result ≡ nat_lt 0 (length (settings_of config.now).extensions) }
{
    0 < config.extensions().count()
}

// What is announced fits a payload.
fn own_extensions<S: Sealing>(config: &Config<S>) -> Extensions<'_>
    ensures extensions { extensions_of result ≡ (settings_of config.now).extensions }
    ensures size { payload_size (ExtInfo (extensions_of result)) ≤ longest_payload }
{
    ssh_config::laws::every_config_is_good(config);
    config.extensions()
}
