ghost use Rattle.std.specs.Prelude.{IsTrue};
ghost use Rattle.ssh_types.specs.Names.{are_names as passes_names};

use crate::name::Name;
use crate::name_bytes::{are_names, split_comma};

/// A text of checked names joined by commas (the name-list of RFC 4251 section 5). The empty text is the list of no names.
#[derive(Clone, Copy, Debug, PartialEq, Eq)]
pub struct NameList<'a> {
    text: &'a [u8],
    ghost checked: { IsTrue (passes_names text.now) },
}

/// Goes over the names of a `NameList` in order, without memory.
#[derive(Clone, Copy, Debug)]
pub struct Names<'a> {
    rest: NameList<'a>,
}

impl<'a> NameList<'a> {
    ghost use Rattle.std.specs.Prelude.{◌≡◌, ◌↔◌, ℕ, ◌<◌, ◌^◌, length, List, [], ◌∷◌, IfSome, IfNone, is_some};
    ghost use Rattle.std.specs.List.{slice_get, Contains};
    ghost use Rattle.std.specs.Option.{option_map};
    ghost use Rattle.ssh_model.specs.Protocol.Wire.DataTypes.{IsNameText};
    ghost use Rattle.ssh_types.specs.Values.{name_text, names, names_text, names_left};

    /// The list that the text is, or `None` if the text isn't empty and a part of it between commas is no name.
    #[tactic(auto, using(crate::proofs::Joined::text_of_names, crate::proofs::Joined::no_text))]
    pub fn new(text: &'a [u8]) -> Option<NameList<'a>>
        ensures found { IfSome result (λ list. IsNameText (names list) text.now) }
        ensures text { IfSome result (λ list. names_text list ≡ text.now) }
        ensures none { IfNone result ((list : List (List ℕ)) → IsNameText list text.now → ⊥) }
        ensures there { is_some result ≡ passes_names text.now }
    {
        if !are_names(text) {
            return None;
        }
        Some(NameList { text })
    }

    // The list that a checked text is.
    pub(crate) fn of_checked(text: &'a [u8]) -> NameList<'a>
        requires { IsTrue (passes_names text.now) }
        ensures { names_text result ≡ text.now }
    {
        NameList { text }
    }

    // The names joined by commas.
    pub(crate) fn text(&self) -> &'a [u8]
        ensures text { result.now ≡ names_text self.now }
        ensures names { IsTrue (passes_names result.now) }
    {
        self.text
    }

    /// The names joined by commas.
    #[tactic(auto, using(crate::proofs::Joined::text_of_names))]
    pub fn as_bytes(&self) -> &'a [u8]
        ensures text { result.now ≡ names_text self.now }
        ensures names { IsNameText (names self.now) result.now }
    {
        self.text()
    }

    /// Tests whether the list has no names.
    pub fn is_empty(&self) -> bool
        ensures { IsTrue result ↔ (names self.now ≡ []) }
    {
        self.text.is_empty()
    }

    /// The names, in order.
    #[tactic(auto, using(crate::proofs::Joined::names_fit))]
    pub fn iter(&self) -> Names<'a>
        ensures names { names_left result ≡ names self.now }
        ensures fits { length (names self.now) < 2 ^ 64 }
    {
        Names { rest: *self }
    }

    /// Tests whether the name is one of the list, byte by byte.
    pub fn contains(&self, name: &[u8]) -> bool
        ensures { IsTrue result ↔ Contains (names self.now) name.now }
    {
        self.iter().any(|own| own.as_bytes() == name)
    }

    /// The first name, or `None` if the list is empty.
    pub fn first(&self) -> Option<Name<'a>>
        ensures { option_map name_text result ≡ slice_get (names self.now) 0 }
    {
        let (name, _) = self.split_first()?;
        Some(name)
    }

    // The first name and the names after it.
    #[tactic(auto, using(crate::proofs::Joined::first_and_rest, crate::proofs::Joined::last_name))]
    fn split_first(&self) -> Option<(Name<'a>, NameList<'a>)>
        ensures found { IfSome result (λ parts. names self.now ≡ name_text parts.0 ∷ names parts.1) }
        ensures none { IfNone result (names self.now ≡ []) }
    {
        if self.is_empty() {
            return None;
        }
        let Some((bytes, text)) = split_comma(self.text) else {
            return Some((Name::of_checked(self.text), NameList { text: &[] }));
        };
        Some((Name::of_checked(bytes), NameList { text }))
    }
}

impl<'a> Iterator for Names<'a> {
    ghost use Rattle.std.specs.Iterator.{YieldsFirstBy, item_count};
    ghost use Rattle.ssh_types.specs.Values.{name_text, names_left};

    type Item = Name<'a>;

    ghost next_gives = { YieldsFirstBy name_text names_left };

    ghost remaining = { item_count names_left };

    fn next(&mut self) -> Option<Name<'a>> {
        let (first, others) = self.rest.split_first()?;
        self.rest = others;
        Some(first)
    }
}
