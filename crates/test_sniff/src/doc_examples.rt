//! The examples that doc comments show, word for word. `scripts/documents --check` compares them.

use enc_sniff::*;
use enc_stream::constants::*;

#[test]
fn sniffs_a_page(rt: HostRuntime) {
    let page = b"<!DOCTYPE html><meta charset=koi8-r>";
    assert!(rt; html_encoding(page) == Some(KOI8_R));
    assert!(rt; sniff(page).evidence == Evidence::Meta);
}

#[test]
fn sniffs_text(rt: HostRuntime) {
    let guess = sniff(b"caf\xC3\xA9");
    assert!(rt; guess.encoding == Some(UTF_8) && guess.evidence == Evidence::Utf8);
    assert!(rt; sniff(b"caf\xE9").encoding == None);
}

#[test]
fn prescans_pages(rt: HostRuntime) {
    assert!(rt; html_encoding(b"<meta charset=\"gb2312\">") == Some(GBK));
    assert!(rt; html_encoding(b"<!-- <meta charset=gbk> -->") == None);
}

#[test]
fn reads_xml_heads(rt: HostRuntime) {
    let document = b"<?xml version='1.0' encoding='Shift_JIS'?><a/>";
    assert!(rt; xml_encoding(document) == Some(SHIFT_JIS));
    assert!(rt; xml_encoding(b"<\0?\0x\0m\0l\0") == Some(UTF_16LE));
    assert!(rt; xml_encoding(b"<?xml version='1.0'?><a/>") == None);
}

#[test]
fn reads_mail_headers(rt: HostRuntime) {
    let mail = b"Subject: A\r\nContent-Type: text/plain;\r\n charset=\"koi8-r\"\r\n\r\nB";
    assert!(rt; mail_encoding(mail) == Some(KOI8_R));
    assert!(rt; mail_encoding(b"Content-Type: text/plain\n\ncharset=koi8-r") == None);
}
