//! A decoder in memory of the caller's.
//!
//! Written by scripts/make-sources from data/templates: change the text there, and not this file.

ghost use Rattle.std.specs.Prelude.{Bool};
ghost use Rattle.enc_stream.specs.Decoding.{DecoderState};
ghost use Rattle.enc_stream.specs.contracts.decoder.Decoder.{the_row};

use enc_stream::Decoder;
use std::marker::Model;

/// A pointer to room for a decoder. Where it is ready, the decoder lies there.
#[repr(C)]
#[derive(Drop)]
pub struct DecoderAt {
    at: *mut u64,
    pub ghost ready: { Bool },
    pub ghost value: { DecoderState } by { the_row.coded },
}

impl Model for DecoderAt {
    ghost use Rattle.enc_handles.specs.Contents.{decoder_contents};

    ghost also_owns = { λ h. decoder_contents h.ready h.at h.value };
}

impl DecoderAt {
    ghost use Rattle.std.specs.Prelude.{◌≡◌, true};
    ghost use Rattle.std.specs.Borrow.{sem};
    ghost use Rattle.enc_handles.specs.Handles.{lends_decoder};

    /// Lends the decoder. What is done to it is seen by the next call. Condition: it is ready.
    pub fn get(&mut self) -> &mut Decoder
        requires ready { self.old.ready ≡ true }
        ensures* follows { sem 𝓛 (lends_decoder self.entry result) }
        ensures value { result.now ≡ self.old.value }
    {
        unsafe { &mut *(self.at as *mut Decoder) }
    }

    /// Puts a decoder there, in the place of any other.
    pub fn put(&mut self, value: Decoder)
        ensures { (self.new.ready ≡ true) × (self.new.value ≡ value) }
    {
        unsafe { (self.at as *mut Decoder).write(value) }
    }
}
