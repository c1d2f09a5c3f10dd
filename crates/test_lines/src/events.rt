//! What a user is told about channels, with all of its fields.

use ssh_channels::ChannelEvent;
use ssh_toys::lines::Problem;

/// Puts an event behind a text. Its own `{:?}` keeps the texts in it back.
///
/// # Errors
///
/// Only if memory is refused.
pub fn put_event(text: &mut String, event: ChannelEvent<'_>) -> Result<(), Problem> {
    match event {
        ChannelEvent::Opened {
            channel,
            kind,
            window,
            max_packet,
            rest,
        } => write!(
            text,
            "Opened {{ channel: {channel}, kind: {kind:?}, window: {window}, max_packet: {max_packet}, rest: {rest:?} }}"
        )?,
        ChannelEvent::Confirmed {
            channel,
            window,
            max_packet,
            rest,
        } => write!(
            text,
            "Confirmed {{ channel: {channel}, window: {window}, max_packet: {max_packet}, rest: {rest:?} }}"
        )?,
        ChannelEvent::OpenFailed {
            channel,
            reason,
            description,
        } => write!(
            text,
            "OpenFailed {{ channel: {channel}, reason: {reason}, description: {description:?} }}"
        )?,
        other => put_request(text, other)?,
    }
    Ok(())
}

fn put_request(text: &mut String, event: ChannelEvent<'_>) -> Result<(), Problem> {
    match event {
        ChannelEvent::Global { name, want, rest } => write!(
            text,
            "Global {{ name: {name:?}, want: {want}, rest: {rest:?} }}"
        )?,
        ChannelEvent::GlobalDone { success, rest } => {
            write!(text, "GlobalDone {{ success: {success}, rest: {rest:?} }}")?
        }
        ChannelEvent::Requested {
            channel,
            name,
            want,
            rest,
        } => write!(
            text,
            "Requested {{ channel: {channel}, name: {name:?}, want: {want}, rest: {rest:?} }}"
        )?,
        ChannelEvent::GotData {
            channel,
            kind,
            body,
        } => write!(
            text,
            "GotData {{ channel: {channel}, kind: {kind:?}, body: {body:?} }}"
        )?,
        other => write!(text, "{other:?}")?,
    }
    Ok(())
}
