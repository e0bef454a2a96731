//! The Latin-1 prefix of a decoder's next input, for every codec.

ghost use Rattle.std.specs.Prelude.{◌≡◌, ◌∷◌, [], true, IsTrue, IsFalse};
ghost use Rattle.enc_decoder.specs.CodecState.{remainder_of};
ghost use Rattle.enc_decoder.specs.CodecLaw.{text_chars};
ghost use Rattle.enc_decoder.specs.Latin1.{HasNoByteSequences, IsLatin1Prefix, AnswersCodecLatin1};

use crate::byte_codec::{ByteCodec, Emission, HandlerResult, Kind, Text};

/// Returns whether a byte is by itself the character with its number.
fn shows_itself<C: Copy>(shown: Emission<C>, byte: u8) -> bool
    ensures takes { IsTrue result → shown.takes_byte ≡ true }
    ensures kind { IsTrue result → shown.kind ≡ Kind.Valid }
    ensures text { IsTrue result → text_chars shown.text ≡ byte ∷ [] }
    ensures no { IsFalse result → shown.takes_byte ≡ true → shown.kind ≡ Kind.Valid →
        ¬ (text_chars shown.text ≡ byte ∷ []) }
{
    match shown.text {
        Text::One(character) => {
            shown.takes_byte && shown.kind == Kind::Valid && character as u32 == byte as u32
        }
        _ => false,
    }
}

/// Returns the length of a prefix of bytes that are the characters with their numbers, each a
/// sequence by itself.
fn latin1_len<C: ByteCodec>(codec: C, bytes: &[u8]) -> usize
    requires none_pending { (C.state codec).pending ≡ [] }
    ensures { IsLatin1Prefix (remainder_of (C.state codec)).sequences bytes.now result }
{
    let mut state = codec;
    let mut at = 0;
    while at < bytes.len() {
        at += state.latin1_run(&bytes[at..]);
        if at == bytes.len() {
            return at;
        }
        let HandlerResult::Emit(shown) = state.next_step(bytes[at]) else {
            return at;
        };
        if !shows_itself(shown, bytes[at]) {
            return at;
        }
        state = shown.next;
        at += 1;
    }
    at
}

/// Returns the length of a codec's Latin-1 prefix, or `None` if bytes are pending.
///
/// Conditions: the codec has the character set of the start, and its bytes may be characters by
/// themselves.
pub fn latin1_up_to<C: ByteCodec>(codec: C, bytes: &[u8]) -> Option<usize>
    requires at_start { (C.state codec).set ≡ 0 }
    requires has_bytes { ¬ (HasNoByteSequences (C.state codec).rule) }
    ensures { AnswersCodecLatin1 (C.state codec) bytes.now result }
{
    if codec.held() != 0 {
        return None;
    }
    Some(latin1_len(codec, bytes))
}
