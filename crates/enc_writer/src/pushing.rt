//! Pushing bytes to a sink until all are taken.

ghost use Rattle.std.specs.Prelude.{◌≡◌, true, false, ◌++◌, OnOk, OnErr};
ghost use Rattle.enc_writer.specs.Sink.{AppendsContents, AppendsPrefix};

use crate::sink::Sink;

/// Pushes all the bytes, in as many pushes as it takes, none of them of an empty buffer.
///
/// After an `Err` the sink has failed and has taken a prefix of the bytes.
pub(crate) fn push_all<W: Sink>(writer: &mut W, bytes: &[u8]) -> Result<(), ()>
    requires going { W.has_failed writer.old ≡ false }
    ensures ok { OnOk result
        (AppendsContents (W.contents writer.old) (W.contents writer.new) bytes.now) }
    ensures kept { OnOk result (W.has_failed writer.new ≡ W.has_failed writer.old) }
    ensures err { OnErr result
        (AppendsPrefix (W.contents writer.old) (W.contents writer.new) bytes.now) }
    ensures failed { OnErr result (W.has_failed writer.new ≡ true) }
{
    let mut at = 0;
    while at < bytes.len() {
        match writer.push(&bytes[at..]) {
            Ok(n) => at += n,
            Err(()) => return Err(()),
        }
    }
    Ok(())
}

/// Pushes all the bytes of two buffers, one after the other.
///
/// After an `Err` the sink has failed and has taken a prefix of the bytes.
pub(crate) fn push_both<W: Sink>(writer: &mut W, front: &[u8], back: &[u8]) -> Result<(), ()>
    requires going { W.has_failed writer.old ≡ false }
    ensures ok { OnOk result
        (AppendsContents (W.contents writer.old) (W.contents writer.new) (front.now ++ back.now)) }
    ensures kept { OnOk result (W.has_failed writer.new ≡ W.has_failed writer.old) }
    ensures err { OnErr result
        (AppendsPrefix (W.contents writer.old) (W.contents writer.new) (front.now ++ back.now)) }
    ensures failed { OnErr result (W.has_failed writer.new ≡ true) }
{
    push_all(writer, front)?;
    push_all(writer, back)
}
