ghost use Rattle.std.specs.Prelude.{IsTrue};
ghost use Rattle.ssh_types.specs.Names.{are_names as passes_names};

use crate::name::Name;
use crate::name_bytes::push_name;
use crate::name_list::NameList;
use std::alloc::{AllocError, Global};

/// A list of names that owns its text, the names joined by commas (the name-list of RFC 4251 section 5).
#[derive(Debug, Drop)]
pub struct NameListBuf {
    text: Vec<u8>,
    ghost checked: { IsTrue (passes_names text.items) },
}

impl NameListBuf {
    ghost use Rattle.std.specs.Prelude.{◌≡◌, ◌≤◌, ◌*◌, ◌++◌, ◌∷◌, [], OnOk, OnErr, IfOk, length};
    ghost use Rattle.ssh_types.specs.Values.{name_text, names, names_text, owned_names};

    /// A list of no names. It takes no memory.
    pub fn new(alloc: Global) -> NameListBuf
        ensures { owned_names result ≡ [] }
    {
        NameListBuf {
            text: Vec::new(alloc),
        }
    }

    /// A copy of a list.
    ///
    /// # Errors
    ///
    /// Only if an allocation of the bytes of its text fails.
    pub fn copied(alloc: Global, list: &NameList<'_>) -> Result<NameListBuf, AllocError>
        ensures { IfOk result (λ copy. owned_names copy ≡ names list.now) }
    {
        Ok(NameListBuf {
            text: list.text().to_vec(alloc)?,
        })
    }

    /// Puts a name after those that are there.
    ///
    /// # Errors
    ///
    /// Only if an allocation fails; the list is then as it was.
    pub fn push(&mut self, name: Name<'_>) -> Result<(), AllocError>
        ensures pushed { OnOk result (owned_names self.new ≡ owned_names self.old ++ name_text name.entry ∷ []) }
        ensures kept { OnErr result (owned_names self.new ≡ owned_names self.old) }
    {
        push_name(&mut self.text, name.as_bytes())
    }

    /// The list, as it is borrowed. Its text has at most 65 bytes a name.
    #[tactic(auto, using(crate::proofs::Joined::checked_length))]
    pub fn as_list(&self) -> NameList<'_>
        ensures names { names result ≡ owned_names self.now }
        ensures short { length (names_text result) ≤ 65 * length (names result) }
    {
        NameList::of_checked(&self.text)
    }
}
