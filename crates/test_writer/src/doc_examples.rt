//! The examples that doc comments show, word for word. `scripts/documents --check` compares them.

use enc_stream::constants::WINDOWS_1252;
use enc_writer::{EncodeWriter, FromWrite, UnmappablePolicy};

#[test]
fn writes_with_a_policy(rt: HostRuntime) {
    let mut written = Vec::new(rt.alloc());
    let mut sink = FromWrite::new(&mut written);
    let mut buffer = [0; 64];
    let mut writer = EncodeWriter::new(&mut sink, WINDOWS_1252, &mut buffer);
    assert!(rt; writer.write_str_with("5 €, 7 ₽", UnmappablePolicy::HexReference) == Ok(()));
    assert!(rt; writer.write_str_with("; 7 ₽", UnmappablePolicy::QuestionMark) == Ok(()));
    assert!(rt; writer.finish() == Ok(true));
    assert!(rt; written.as_slice() == b"5 \x80, 7 &#x20BD;; 7 ?".as_slice());
}
