//! An encoder in memory of the caller's.
//!
//! Written by scripts/make-sources from data/templates: change the text there, and not this file.

ghost use Rattle.std.specs.Prelude.{Bool};
ghost use Rattle.enc_stream.specs.Encoder.{EncoderState};
ghost use Rattle.enc_stream.specs.contracts.encoder.Encoder.{the_row};

use enc_stream::Encoder;
use std::marker::Model;

/// A pointer to room for an encoder. Where it is ready, the encoder lies there.
#[repr(C)]
#[derive(Drop)]
pub struct EncoderAt {
    at: *mut u64,
    pub ghost ready: { Bool },
    pub ghost value: { EncoderState } by { the_row.coded },
}

impl Model for EncoderAt {
    ghost use Rattle.enc_handles.specs.Contents.{encoder_contents};

    ghost also_owns = { λ h. encoder_contents h.ready h.at h.value };
}

impl EncoderAt {
    ghost use Rattle.std.specs.Prelude.{◌≡◌, true};
    ghost use Rattle.std.specs.Borrow.{sem};
    ghost use Rattle.enc_handles.specs.Handles.{lends_encoder};

    /// Lends the encoder. What is done to it is seen by the next call. Condition: it is ready.
    pub fn get(&mut self) -> &mut Encoder
        requires ready { self.old.ready ≡ true }
        ensures* follows { sem 𝓛 (lends_encoder self.entry result) }
        ensures value { result.now ≡ self.old.value }
    {
        unsafe { &mut *(self.at as *mut Encoder) }
    }

    /// Puts an encoder there, in the place of any other.
    pub fn put(&mut self, value: Encoder)
        ensures { (self.new.ready ≡ true) × (self.new.value ≡ value) }
    {
        unsafe { (self.at as *mut Encoder).write(value) }
    }
}
