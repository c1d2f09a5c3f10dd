//! One byte that is changed on its way.

ghost use Rattle.std.specs.Prelude.{◌≡◌, ◌++◌, ◌<◌, IfOk, IfSome, OnOk, length};
ghost use Rattle.std.specs.Option.{option_map};
ghost use Rattle.ssh_play.specs.Altering.{changed_at, changes, index_of};

use ssh_script::{Origin, Parcel};
use ssh_types::Side;
use std::alloc::{AllocError, Global};

/// The change of a byte.
#[derive(Clone, Copy)]
pub(crate) enum Change {
    /// Its lowest bit is changed.
    Flipped,
    LeftOut,
    /// It comes twice.
    Doubled,
}

/// A byte, and its change each time that it is delivered.
#[derive(Clone, Copy)]
pub(crate) struct Alteration {
    /// The side that puts it out.
    pub side: Side,
    /// How many bytes the side puts out before it.
    pub place: usize,
    pub change: Change,
}

impl Alteration {
    /// The bytes of a parcel with the change. None if the byte is not among them.
    ///
    /// # Errors
    ///
    /// Only if memory is refused.
    pub fn altered(&self, alloc: Global, parcel: &Parcel<'_>) -> Result<Option<Vec<u8>>, AllocError>
        ensures { IfOk result (λ bytes. option_map (λ v. v.items) bytes
            ≡ option_map (changed_at self.now.change parcel.now.bytes.now) (index_of self.now parcel.now)) }
    {
        let Some(index) = self.index_in(parcel) else {
            return Ok(None);
        };
        let bytes = changed(alloc, parcel.bytes, index, self.change)?;
        Ok(Some(bytes))
    }

    // Where the byte stands in a parcel.
    fn index_in(&self, parcel: &Parcel<'_>) -> Option<usize>
        ensures index { result ≡ index_of self.now parcel.now }
        ensures inside { IfSome result (λ index. index < length parcel.now.bytes.now) }
    {
        let Origin::PutOut { start } = parcel.origin else {
            return None;
        };
        if parcel.to == self.side {
            return None;
        }
        let index = self.place.checked_sub(start)?;
        if index < parcel.bytes.len() {
            Some(index)
        } else {
            None
        }
    }
}

// These bytes, the one at this index changed.
fn changed(alloc: Global, bytes: &[u8], index: usize, change: Change) -> Result<Vec<u8>, AllocError>
    requires { index < length bytes.now }
    ensures { IfOk result (λ whole. whole.items ≡ changed_at change bytes.now index) }
{
    let mut whole = bytes[..index].to_vec(alloc)?;
    push_changed(&mut whole, bytes[index], change)?;
    whole.extend_from_slice(&bytes[index + 1..])?;
    Ok(whole)
}

// What comes for a byte.
fn push_changed(whole: &mut Vec<u8>, byte: u8, change: Change) -> Result<(), AllocError>
    ensures { OnOk result (whole.new.items ≡ whole.old.items ++ changes change byte) }
{
    match change {
        Change::Flipped => whole.push(byte ^ 1)?,
        Change::LeftOut => {}
        Change::Doubled => whole.extend_from_slice(&[byte, byte])?,
    }
    Ok(())
}
