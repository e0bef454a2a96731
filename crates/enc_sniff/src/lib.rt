//! The encoding that some bytes show: by a byte order mark, by what they declare as XML, as HTML or
//! in the header of a mail, or because they are well-formed UTF-8. Nothing is counted or weighed.
//!
//! | You have | Call |
//! |---|---|
//! | the bytes of a file of any kind | [`sniff`] |
//! | the first bytes of a page of HTML | [`html_encoding`] |
//! | the first bytes of an XML document | [`xml_encoding`] |
//! | the header of a mail, or of a part of one | [`mail_encoding`] |
//!
//! No call takes memory, and each returns for any bytes. `Encoding` is that of `enc_stream`, which
//! `encoding_rs` passes on.
//!
//! ## In which order
//!
//! The HTML Standard's "encoding sniffing algorithm" (13.2.3.2) takes, in this order, a byte order
//! mark, the user's own choice, the `charset` of the field Content-Type of the transport, the
//! prescan of the page, and defaults. [`html_encoding`] is the prescan. So a caller that has such
//! a label looks for it between `Encoding::for_bom` and [`html_encoding`].
//!
//! In XML a byte order mark and the transport go first too, and then the declaration. Without any
//! of them a document is UTF-8 (XML 1.0, 4.3.3 and appendix F; RFC 7303, 3).
//!
//! In a mail the header of a part declares the encoding of its body ([`mail_encoding`]). [`sniff`]
//! does not look for a header, since any text may begin as one does.
//!
//! ```rust
//! let page = b"<!DOCTYPE html><meta charset=koi8-r>";
//! assert!(rt; html_encoding(page) == Some(KOI8_R));
//! assert!(rt; sniff(page).evidence == Evidence::Meta);
//! ```
#![tactic(auto)]

mod attributes;
mod content;
mod guess;
mod header;
mod html;
mod labels;
mod mail;
mod meta;
mod quoted;
mod scanning;
mod tokens;
mod xml;

pub use guess::{Evidence, Guess, sniff};
pub use html::html_encoding;
pub use mail::mail_encoding;
pub use xml::xml_encoding;
