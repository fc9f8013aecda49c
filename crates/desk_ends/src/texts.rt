//! Sends texts to a sink; allocates nothing, and tries nothing twice.
ghost use Rattle.desk_ends.specs.Sending.{Sends};
ghost use Rattle.std.specs.Prelude.{is_ok, flat_map};

use super::ends::{Sent, Sink};

/// Writes the whole text, or a beginning of it. A write that takes no byte has failed.
pub fn send<K: Sink>(sink: &mut K, text: &[u8]) -> Sent
    ensures { Sends K.Sink sink.old sink.new text.now (is_ok result) }
{
    let mut rest = text;
    while !rest.is_empty() {
        let count = sink.put(rest)?;
        rest = &rest[count..];
    }
    Ok(())
}

/// Writes the texts one after another, or a beginning of them.
pub fn send_parts<K: Sink>(sink: &mut K, parts: &[&[u8]]) -> Sent
    ensures { Sends K.Sink sink.old sink.new
        (flat_map (λ part. part.now) parts.now) (is_ok result) }
{
    for part in parts {
        send(sink, part)?;
    }
    Ok(())
}
