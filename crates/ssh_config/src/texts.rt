// The texts that a config keeps.

ghost use Rattle.std.specs.Prelude.{◌≡◌, ◌≤◌, IfOk, IsTrue, length, map};
ghost use Rattle.std.specs.List.{list_all};
ghost use Rattle.std.specs.Option.{option_copied};
ghost use Rattle.ssh_model.specs.Laws.Bounds.{most_names};
ghost use Rattle.ssh_model.specs.Protocol.Wire.DataTypes.{is_name};
ghost use Rattle.ssh_types.specs.Values.{names, names_text, owned_names};
ghost use Rattle.ssh_config.specs.Config.{version_text};

use ssh_types::{Name, NameList, NameListBuf};
use std::alloc::{AllocError, Global};

// The text of the version line, without CR LF.
pub(crate) fn version_line(
    alloc: Global,
    software: &[u8],
    comments: Option<&[u8]>,
) -> Result<Vec<u8>, AllocError>
    ensures { IfOk result (λ line. line.items ≡ version_text software.now (option_copied comments.entry)) }
{
    let mut line = Vec::new(alloc);
    line.extend_from_slice(b"SSH-2.0-")?;
    line.extend_from_slice(software)?;
    if let Some(text) = comments {
        line.push(b' ')?;
        line.extend_from_slice(text)?;
    }
    Ok(line)
}

// The names that the texts are.
pub(crate) fn names_of(alloc: Global, texts: &[&[u8]]) -> Result<NameListBuf, AllocError>
    requires { IsTrue (list_all is_name (map (λ name. name.now) texts.now)) }
    ensures { IfOk result (λ list. owned_names list ≡ map (λ name. name.now) texts.now) }
{
    let mut list = NameListBuf::new(alloc);
    for text in texts {
        list.push(Name::new(text).unwrap())?;
    }
    Ok(list)
}

// A list of at most `most_names` names, as it is borrowed.
pub(crate) fn short_list(list: &NameListBuf) -> NameList<'_>
    requires { length (owned_names list.now) ≤ most_names }
    ensures names { names result ≡ owned_names list.now }
    ensures short { length (names_text result) ≤ 1040 }
{
    list.as_list()
}
