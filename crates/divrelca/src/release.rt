//! What this release is, as the programs say it: `ssh_trace --version` and `ssh_pipe --version`.

/// The version, as CHANGELOG.md has it.
pub const VERSION: &str = "0.1.0";

/// The kit of the toolchain that it is proved with, as README.md has it.
pub const KIT: &str = "rattle-kit-13f logic dac8208d650f15bf";
