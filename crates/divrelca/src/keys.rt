//! Cookies, secrets and padding.

ghost use Rattle.std.specs.Io.{StartsWith};
ghost use Rattle.std.specs.Prelude.{◌≡◌, IfErr, IfOk, List, None, OnErr, OnOk, ℕ};
ghost use Rattle.ssh_config.specs.Meaning.{settings_of};
ghost use Rattle.divrelca.specs.Opening.{IsFresh, IsNewEnd};
ghost use Rattle.divrelca.specs.Supplies.{IsDrawn, IsOfSource, KeepsFresh, SeedsPadding, next_bytes, padding_under};

use crate::end::{End, asked};
use crate::error::SupplyError;
use rand_chacha::ChaCha20Rng;
use rand_core::{Rng, SeedableRng};
use ssh_end::{Ask, Fault, SuppliedEnd};
use ssh_packet::Filler;
use ssh_transport::{Config, Role, Supplied};
use std::alloc::Global;
use std::io;
use std::random::RandomSource;

/// A source of random bytes. Its ghost member `gives` says which bytes a call may give, from the value before it to the value after it. So
/// a clause can say that bytes are those of a call and of no earlier one. `RandomBytes` is the source that a program uses.
pub trait Entropy: Drop {
    ghost gives: { Self → List ℕ → Self → Type 0 };

    /// Fills all of `bytes`.
    ///
    /// # Errors
    ///
    /// The source gave none.
    fn draw(&mut self, bytes: &mut [u8]) -> io::Result<()>
        ensures { OnOk result (gives self.old bytes.new self.new) };
}

/// The bytes of a `RandomSource`, the system's among them. They are trusted: no clause says which bytes such a source gives, so none says
/// that they are drawn from it, or that they are random.
#[derive(Drop)]
pub struct RandomBytes<R: RandomSource + Drop>(pub R);

impl<R: RandomSource + Drop> Entropy for RandomBytes<R> {
    ghost use Rattle.std.specs.Prelude.{⊤};

    ghost gives = { λ _ _ _. ⊤ };

    fn draw(&mut self, bytes: &mut [u8]) -> io::Result<()> {
        self.0.fill_bytes(bytes)
    }
}

/// The random bytes that an exchange of keys takes.
#[derive(Clone, Copy)]
pub struct Material {
    /// The cookie of the KEXINIT (RFC 4253 section 7.1).
    pub cookie: [u8; 16],
    /// The secret; the peer gets its point (RFC 8731 section 3).
    pub secret: [u8; 32],
}

/// Feeds an end with cookies and secrets from a source of random bytes, and has keys exchanged in time.
#[derive(Drop)]
pub struct KeySupply<R: Entropy> {
    source: R,
    next: Option<Material>,
}

impl<R: Entropy> KeySupply<R> {
    /// A supply from this source.
    pub fn new(source: R) -> KeySupply<R>
        ensures source { result.source ≡ source }
        ensures next { result.next ≡ None }
    {
        KeySupply { source, next: None }
    }

    /// A fresh cookie and a fresh secret, drawn one after the other.
    ///
    /// # Errors
    ///
    /// `Random`: the source gave no random bytes.
    pub fn draw(&mut self) -> Result<Material, SupplyError>
        ensures drawn { IfOk result (λ material. IsDrawn R.gives self.old.source material self.new.source) }
        ensures refused { IfErr result IsOfSource }
        ensures next { self.new.next ≡ self.old.next }
    {
        let mut cookie = [0; 16];
        let mut secret = [0; 32];
        self.source.draw(&mut cookie).map_err(SupplyError::Random)?;
        self.source.draw(&mut secret).map_err(SupplyError::Random)?;
        Ok(Material { cookie, secret })
    }

    /// A source of padding: a ChaCha20 stream whose key is drawn now.
    ///
    /// # Errors
    ///
    /// `Random`: the source gave no random bytes.
    pub fn padding(&mut self) -> Result<PaddingSource, SupplyError>
        ensures seeded { IfOk result (λ padding. SeedsPadding R.gives self.old.source padding self.new.source) }
        ensures refused { IfErr result IsOfSource }
        ensures next { self.new.next ≡ self.old.next }
    {
        let mut seed = [0; 32];
        self.source.draw(&mut seed).map_err(SupplyError::Random)?;
        Ok(PaddingSource::from_key(seed))
    }

    /// A new end of this config, these parts and this user, that put its version line and its first KEXINIT into `out`. Its cookie and its
    /// secret are drawn now.
    ///
    /// # Errors
    ///
    /// - `Random`: the source gave no random bytes.
    /// - `End`: memory was refused.
    ///
    /// With either nothing is put out, and the values handed in are dropped.
    pub fn open<T: SuppliedEnd>(
        &mut self,
        alloc: Global,
        config: Config<<T::Exchange as Role>::Sealing>,
        parts: <T::Exchange as Supplied>::Parts,
        user: T::User,
        out: &mut Vec<u8>,
    ) -> Result<ssh_end::End<T>, SupplyError>
    where
        T::Exchange: Supplied,
        ensures fresh { IfOk result (λ end. IsFresh R.gives self.old.source (IsNewEnd T.Exchange.Sealing.crypto T.EndRole
            T.Exchange.Filler.gives T.Exchange.SIDE (settings_of config) (T.Exchange.filler_of parts) out.old.items out.new.items end)
            self.new.source) }
        ensures made { IfOk result (λ end. T.Exchange.is_made_of end.role.exchange parts) }
        ensures user { IfOk result (λ end. T.is_made_of end.role.own user) }
        ensures next { self.new.next ≡ self.old.next }
        ensures out { OnErr result (out.new.items ≡ out.old.items) }
    {
        let Material { cookie, secret } = self.draw()?;
        match ssh_end::End::<T>::new(alloc, config, parts, user, cookie, secret, out) {
            Ok(end) => Ok(end),
            Err(_) => Err(SupplyError::End(Fault::Memory)),
        }
    }

    /// Call it after every turn of the end. It keeps one cookie and one secret with the end, since the peer may begin an exchange at any
    /// time, and begins an exchange when one is due. Random bytes are drawn only once the earlier ones were handed in, and bytes that were
    /// handed in are kept no longer.
    ///
    /// # Errors
    ///
    /// - `Random`: the source gave no random bytes, and nothing was handed in.
    /// - `End`: the end refused to exchange keys when that was due, or memory was refused to it.
    pub fn keep_fresh<E: End>(&mut self, end: &mut E, out: &mut Vec<u8>) -> Result<(), SupplyError>
        ensures kept { KeepsFresh R.gives E.feeds E.is_due E.asks (record { supply = self.old; end = end.old; out = out.old.items }) result
            (record { supply = self.new; end = end.new; out = out.new.items }) }
        ensures out { StartsWith out.new.items out.old.items }
    {
        let material = match self.next {
            Some(material) => material,
            None => self.draw()?,
        };
        let is_taken = end.feed_material(material.cookie, material.secret);
        self.next = if is_taken { None } else { Some(material) };
        if end.rekey_due() {
            // Where an exchange is under way already, it is not begun again.
            asked(end, &Ask::Rekey, out)?;
        }
        Ok(())
    }
}

/// Fills the padding of packets (RFC 4253 section 6) from a ChaCha20 stream, whose key is 32 random bytes.
#[derive(Drop)]
pub struct PaddingSource {
    stream: ChaCha20Rng,
}

impl PaddingSource {
    /// The stream under this key, from its first byte. The key has to be 32 random bytes that are used for nothing else.
    pub fn from_key(key: [u8; 32]) -> PaddingSource
        ensures { result ≡ padding_under key }
    {
        PaddingSource {
            stream: ChaCha20Rng::from_seed(key),
        }
    }
}

impl Filler for PaddingSource {
    ghost gives = { next_bytes };

    fn fill(&mut self, out: &mut [u8]) {
        self.stream.fill_bytes(out);
    }
}
