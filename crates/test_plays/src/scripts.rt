//! Stored scripts, of whole sessions and of one epoch: whether the ends do what each expects of them. And sweeps: a whole session is played
//! with each byte that goes over the network changed, left out and doubled in turn, and so is one without strict key exchange.

use crate::status::Status;
use ssh_trace::{check_to, sweep_to};
use std::fs::{self, File};
use std::io::{self, Write};

// The names of the files of whole sessions, without their ending.
const SESSIONS: &[&str] = &[
    "whole_session",
    "whole_session_dripped",
    "key_probe_and_signature",
    "extensions",
    "extensions_not_taken",
    "second_exchange",
    "close_in_second_exchange",
    "window_used_up_and_grown",
    "window_of_data_and_extended_data",
    "end_of_data_and_close",
    "closes_that_cross",
    "epoch_limit",
    "channel_table_full",
    "owed_replies_full",
    "plain_session",
    "plain_session_cut",
    "offered_strictness_finds_ignore",
    "offered_strictness_struck_out",
    "required_strictness_not_offered",
    "marker_struck_out",
    "ignore_before_kexinit",
    "ignore_after_kexinit",
    "clear_packet_waits",
    "clear_packet_refused",
    "short_point",
    "equal_secrets",
    "injected_newkeys",
    "forged_open_at_server",
    "forged_open_at_client",
    "forged_close_of_unconfirmed",
    "lost_packet",
    "replayed_packet",
    "channel_before_login",
    "second_request_too_early",
    "wrong_password",
    "wrong_passwords_dripped",
    "refused_asks",
    "both_ends_over",
    "exchange_without_material",
    "peer_without_material",
    "success_from_the_client",
    "exec_before_login",
    "open_without_a_service",
    "request_in_the_clear",
    "extensions_in_the_clear",
    "ignore_in_the_exchange",
    "host_signature_of_another_session",
    "user_signature_of_another_session",
    "banner_and_debug",
    "data_over_the_longest",
    "data_over_the_window",
    "globals_over_the_limit",
    "globals_over_the_servers_limit",
    "keys_of_a_plain_session",
    "keys_with_extensions",
    "no_common_mac",
    "other_service",
    "other_version",
    "requests_after_success",
    "requests_over_the_limit",
    "requests_over_the_clients_limit",
    "window_over_the_largest",
    "global_requests",
    "last_try",
    "refused_open_and_extended_data",
    "requests_and_replies",
    "tries_used_up",
    "asks_of_each_size",
    "largest_data",
    "data_over_the_largest",
    "data_over_the_clients_largest",
    "longest_payload",
    "longest_packet",
    "clients_longest_packet",
    "clients_channel_table_full",
    "last_settings_hold",
];

// Those of one epoch.
const EPOCHS: &[&str] = &[
    "epoch_packets_in_order",
    "epoch_lost_packet",
    "epoch_repeated_packet",
    "epoch_dripped",
    "epoch_cut",
    "epoch_nothing_waits",
    "epoch_delivered_before",
    "epoch_dead_end",
    "epoch_longest_length",
    "epoch_bad_length",
    "epoch_names_by_number",
    "epoch_recorded_openssh",
];

// Those that are swept: a session with strict key exchange, and one without it, in which the answer to a request for a service is lost. The
// second is unsafe as it is, and stays so where nothing depends on the byte: on each of the 64 that are lost, in all three ways; on padding
// of a packet without a tag that is flipped, 11 bytes after a KEXINIT, 6 after a point and 10 after NEWKEYS of each side; and on the last
// byte of each side that comes twice. The client puts out 291 bytes there, and the server 395, so 3 * 64 + 2 * (11 + 6 + 10) + 2 of its 3 *
// (291 + 395) runs are unsafe.
const SWEPT: &[&str] = &["whole_session", "plain_session_cut"];

/// Compares, and tells the result. It is done unless a file can't be read, which is told on standard error.
pub fn run(rt: &HostRuntime) -> Status {
    let outcome = compared(rt);
    Status::of(rt, outcome)
}

/// Sweeps, and tells the result. It is done unless a file can't be read, which is told on standard error.
pub fn sweep(rt: &HostRuntime) -> Status {
    let outcome = swept(rt);
    Status::of(rt, outcome)
}

fn compared(rt: &HostRuntime) -> io::Result<()> {
    for name in SESSIONS.iter().chain(EPOCHS.iter()) {
        let mut script = opened(rt, name)?;
        write!(rt.stdout(), "{name}: ")?;
        check_to(rt.alloc(), &mut script, &mut rt.stdout(), &mut rt.stderr());
    }
    Ok(())
}

fn swept(rt: &HostRuntime) -> io::Result<()> {
    for name in SWEPT {
        let mut script = opened(rt, name)?;
        write!(rt.stdout(), "{name}: ")?;
        sweep_to(rt.alloc(), &mut script, &mut rt.stdout(), &mut rt.stderr());
    }
    Ok(())
}

// The file of a script.
fn opened(rt: &HostRuntime, name: &str) -> io::Result<File> {
    let file = format!(in rt.alloc(); "{name}.txt")?;
    fs::open(rt, file.as_str())
}
