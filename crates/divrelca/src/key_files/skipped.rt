//! The lines of a file that are passed over.

ghost use Rattle.std.specs.Prelude.{◌≡◌};
ghost use Rattle.std.specs.Option.{option_copied};
ghost use Rattle.divrelca.specs.Skipped as spec;

use crate::key_files::fault::{Expected, FileFault};
use crate::key_files::known_hosts::{host_key_on, may_revoke};
use crate::key_files::numbered_lines::NumberedLines;
use crate::key_files::user_keys::user_key_on;
use crate::key_files::words::Words;

// What the lines of a file say.
#[derive(Clone, Copy)]
enum Form<'a> {
    // The keys of the named host, or of any host if none is named.
    KnownHosts(Option<&'a [u8]>),
    // The keys that let a user in.
    AuthorizedKeys,
}

/// Goes over the lines of a file that its reader passes over since it expected something else, in order. Each is told as a
/// `FileFault::Line`, by its number and by what was expected there. No memory is asked for.
#[derive(Drop)]
pub struct SkippedLines<'a> {
    form: Form<'a>,
    lines: NumberedLines<'a>,
}

/// The lines of a file of the form of known_hosts that `trusted_keys` passes over for this host, or for any host if none is given. A
/// malformed line that may revoke a key is none of them: for that `trusted_keys` refuses the file.
pub fn skipped_hosts<'a>(text: &'a [u8], host: Option<&'a [u8]>) -> SkippedLines<'a>
    ensures { spec.faults_left result ≡ spec.host_faults (option_copied host.entry) text.now }
{
    SkippedLines {
        form: Form::KnownHosts(host),
        lines: NumberedLines::new(text),
    }
}

/// The lines of a file of the form of authorized_keys that `authorized_keys` passes over.
pub fn skipped_users(text: &[u8]) -> SkippedLines<'_>
    ensures { spec.faults_left result ≡ spec.user_faults text.now }
{
    SkippedLines {
        form: Form::AuthorizedKeys,
        lines: NumberedLines::new(text),
    }
}

impl<'a> Iterator for SkippedLines<'a> {
    ghost use Rattle.std.specs.Iterator.{YieldsFirst, item_count};
    ghost use Rattle.divrelca.specs.Skipped.{faults_left};

    type Item = FileFault;

    ghost next_gives = { YieldsFirst faults_left };

    ghost remaining = { item_count faults_left };

    fn next(&mut self) -> Option<FileFault> {
        while let Some((number, line)) = self.lines.next_line() {
            if let Some(expected) = expected_by(self.form, line) {
                return Some(FileFault::Line {
                    line: number,
                    expected,
                });
            }
        }
        None
    }
}

// What was expected on a line of this form, if it says something else.
fn expected_by(form: Form<'_>, line: &[u8]) -> Option<Expected>
    ensures { result ≡ spec.expected_by form.entry line.now }
{
    let words = Words::new(line);
    match form {
        Form::KnownHosts(_) if may_revoke(&words) => None,
        Form::KnownHosts(host) => host_key_on(&words, host).err(),
        Form::AuthorizedKeys => user_key_on(&words).err(),
    }
}
