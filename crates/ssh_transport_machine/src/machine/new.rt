//! A new end: its version line, and its first KEXINIT (RFC 4253 sections 4.2 and 7.1).

ghost use Rattle.ssh_transport_machine.specs.Padding.{PadsTo, sending_after_line, sending_by};
ghost use Rattle.ssh_transport_machine.specs.Puts.{outs};
ghost use Rattle.std.specs.Prelude.{◌≡◌, ◌<◌, ◌++◌, IfOk, OnErr, OnOk};
ghost use Rattle.ssh_model.specs.Protocol.Wire.Line.{line_end};
ghost use Rattle.ssh_config.specs.Meaning.{settings_of};
ghost use Rattle.ssh_transport_machine.specs.Opening.{IsBegun, IsOpened, unopened};
ghost use Rattle.ssh_model.specs.Protocol.Bounds.{numbers_of_epoch};

use crate::machine::kexinit_payload::KexinitPayload;
use crate::machine::sides::reads_server;
use crate::machine::{Machine, Material, Phase};
use crate::parts::Outgoing;
use ssh_config::Config;
use ssh_packet::{Filler, LineReader, PacketReceiver, PacketSender, Sealing};
use ssh_types::Side;
use std::alloc::{AllocError, Global};

impl<S: Sealing> Machine<S> {
    /// An end of this side that put out its version line and its first KEXINIT, for which this material is. It has room for the peer's
    /// line, for packets and for both KEXINITs of an exchange from then on.
    ///
    /// # Errors
    ///
    /// Only if memory is refused: nothing is put out, and the parts are dropped.
    pub fn new<F: Filler + Drop>(
        alloc: Global,
        side: Side,
        config: Config<S>,
        first: Material,
        out: &mut Vec<u8>,
        sent: &mut Outgoing<F>,
    ) -> Result<Machine<S>, AllocError>
        ensures opened { IfOk result (λ machine. IsOpened S.crypto (settings_of config) side first.cookie first.secret machine
            (outs out.old out.new sent.old sent.new)) }
        ensures padded { IfOk result (λ machine. PadsTo S.crypto F.gives
            (sending_after_line (unopened (settings_of config) side first.secret) sent.old out.old)
            (sending_by machine sent.new out.new)) }
        ensures out { OnErr result (out.new.items ≡ out.old.items) }
        ensures kept { OnErr result (sent.new.payloads.items ≡ sent.old.payloads.items) }
    {
        let mut machine = Machine::unopened(alloc, side, config, first.secret)?;
        machine.begin(&first.cookie, out, sent)?;
        Ok(machine)
    }

    // The same before anything was put out.
    fn unopened(
        alloc: Global,
        side: Side,
        config: Config<S>,
        secret: [u8; 32],
    ) -> Result<Machine<S>, AllocError>
        ensures { IfOk result (λ machine. machine ≡ unopened (settings_of config) side secret) }
    {
        let taking = PacketReceiver::new(alloc)?;
        let own = KexinitPayload::new(alloc)?;
        let theirs = KexinitPayload::new(alloc)?;
        Ok(Machine {
            alloc,
            side,
            config,
            lines: LineReader::new(reads_server(side)),
            sending: PacketSender::new(),
            taking,
            pending: None,
            phase: Phase::Start,
            blocked: true,
            own,
            theirs,
            secret,
            material: None,
            fed: 1,
            session: None,
            strict: false,
            peer_takes_extensions: false,
            requested: false,
            accepted: false,
            authenticated: false,
            dead: false,
        })
    }

    // Puts out the version line and the first KEXINIT, or nothing.
    fn begin<F: Filler + Drop>(
        &mut self,
        cookie: &[u8; 16],
        out: &mut Vec<u8>,
        sent: &mut Outgoing<F>,
    ) -> Result<(), AllocError>
        // What the caller must ensure.
        requires left { self.old.kept.sending.count < numbers_of_epoch }
        // What it does.
        ensures begun { OnOk result (IsBegun S.crypto self.old cookie.now self.new (outs out.old out.new sent.old sent.new)) }
        // If it fails.
        ensures out { OnErr result (out.new.items ≡ out.old.items) }
        ensures kept { OnErr result (sent.new.payloads.items ≡ sent.old.payloads.items) }
        // Where the padding comes from.
        ensures padded { OnOk result (PadsTo S.crypto F.gives (sending_after_line self.old sent.old out.old)
            (sending_by self.new sent.new out.new)) }
    {
        let bytes = out.len();
        let payload = self.encode_kexinit(true, cookie)?;
        put_line(self.config.line(), out)?;
        self.own.set(&payload);
        if let Err(error) = self.put(payload, out, sent) {
            out.truncate(bytes);
            return Err(error);
        }
        Ok(())
    }
}

// Puts a line with CR LF at the end, or leaves the bytes as they were.
fn put_line(line: &[u8], out: &mut Vec<u8>) -> Result<(), AllocError>
    ensures put { OnOk result (out.new.items ≡ out.old.items ++ (line.now ++ line_end)) }
    ensures kept { OnErr result (out.new.items ≡ out.old.items) }
{
    let bytes = out.len();
    out.extend_from_slice(line)?;
    if let Err(error) = out.extend_from_slice(b"\r\n") {
        out.truncate(bytes);
        return Err(error);
    }
    Ok(())
}
