//! Key files of OpenSSH, for keys of ssh-ed25519: private keys, public keys, known_hosts and authorized_keys, and files with a password.
//! Each function goes from the bytes of a file to the keys or the password in it. A fault of a file names the line and what was expected
//! there. `specs/` defines the result for each text: KnownHosts and HostNames, UserKeys, Skipped, Passwords and PrivateKeys. It also
//! defines the words in which a fault is told: Faults.
//!
//! ```rust
//! let host = private_key(alloc, &host_key_file)?;
//! let users = authorized_keys(alloc, &authorized_keys_file)?;
//! let trusted = trusted_keys(alloc, &known_hosts_file, Some(b"example.org"))?;
//! for fault in skipped_hosts(&known_hosts_file, Some(b"example.org")) {
//!     // line 3: expected ..
//! }
//! ```
//!
//! # What it promises
//!
//! Each reader's answer is an equation over the text of the file. Lines are read in order (`read_lines` of `specs/Lines.antt`), and the
//! first one that is a fault is told by its number. A reader that takes memory may also answer `Memory` (`IsFaultOf`). For users' keys it
//! does so only if the file has one (`memory`). For the others no clause says when. Edits: those of `divrelca/falsify` that change a file
//! of `src/key_files/`.
//!
//! - `trusted_keys` is `trusted_keys` of `specs/KnownHosts.antt`: the keys of the lines that count, in order. A line counts if its hosts
//!   name the host. If no host is given, every line counts. `host_key_on` says what a line has to be. Another line is passed over, unless
//!   it may revoke a key (`may_revoke`): then it is a fault. A key that a line revokes is left out, whatever host that line is for. There
//!   has to be a key, and one has to be left.
//! - `skipped_hosts` and `skipped_users` go over the lines that are passed over, each by its number and by what was expected there
//!   (`host_faults` and `user_faults` of `specs/Skipped.antt`).
//! - The hosts of a line name a host by `names_host` (`specs/HostNames.antt`). If they begin with `|1|`, they are a salt and the HMAC-SHA-1
//!   of the name in lower case, of 20 bytes each, by `sha1` of the toolchain. Otherwise one of the names between commas is like the host's
//!   (`is_like`), and no name after `!` is.
//! - Digits are a key if `decode_of` of the toolchain's base64 makes just 51 bytes of them, and `Ed25519Trust::from_key` takes these
//!   (`key_in` of `specs/Keys.antt`). `is_key_type` says which words are types of keys, and `words_of` which words a line has
//!   (`specs/Texts.antt`).
//! - `authorized_keys` is `user_keys` (`specs/UserKeys.antt`): the keys of ssh-ed25519 of all lines, in order, each line with its type
//!   first. There is at least one. Any other line is passed over, also one with options.
//! - `password` is `password_of` (`specs/Passwords.antt`): the first line without a CR at its end, of 1 to 1,024 bytes, if no other line
//!   has bytes.
//! - `private_key` is `private_key` of `specs/PrivateKeys.antt`: the base64 between the first and the last line, and in its bytes one key
//!   without a passphrase. Its public key is there three times, always the same, and is that of the seed.
//! - `{}` shows a `FileFault` as `fault_text` of `specs/Faults.antt`: the number of the line, if the fault is of one, and what was expected
//!   there, by one table of texts (`expected_text`). Edits: `base64_is_called_other_digits` and three more.
mod armor;
mod digits;
mod fault;
mod host_names;
mod known_hosts;
mod numbered_lines;
mod openssh_key;
mod parts;
mod password_line;
mod patterns;
mod public_key;
mod skipped;
mod user_keys;
mod words;

pub use fault::{Expected, FileFault};
pub use known_hosts::trusted_keys;
pub use openssh_key::{PrivateKey, private_key};
pub use password_line::{MOST_PASSWORD_BYTES, password};
pub use skipped::{SkippedLines, skipped_hosts, skipped_users};
pub use user_keys::authorized_keys;
