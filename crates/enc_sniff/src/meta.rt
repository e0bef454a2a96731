//! What the attributes of a meta element declare (HTML Standard 13.2.3.2, "prescan a byte stream to
//! determine its encoding", step 4).

ghost use Rattle.std.specs.Prelude.{◌≡◌};
ghost use Rattle.enc_sniff.specs.Meta.{fresh_meta, with_http_equiv, with_content, with_charset};
ghost use Rattle.enc_sniff.specs.Meta.{with_attribute, has_needed_pragma, meta_encoding};
ghost use Rattle.enc_sniff.specs.Views.{attribute_now};

use crate::attributes::Attribute;
use crate::content::content_encoding;
use crate::labels::usable;
use crate::scanning::is_word;
use enc_stream::Encoding;

/// The variables of the prescan at a meta element.
#[derive(Clone, Copy)]
pub(crate) struct Meta {
    // Of the attribute list, whether it has each of the names that count.
    has_http_equiv: bool,
    has_content: bool,
    has_charset: bool,
    got_pragma: bool,
    need_pragma: Option<bool>,
    /// The standard's null is `None`, and its failure `Some(None)`.
    charset: Option<Option<Encoding>>,
}

impl Meta {
    /// Returns the variables before the first attribute.
    pub(crate) fn new() -> Self
        ensures { result ≡ fresh_meta }
    {
        Meta {
            has_http_equiv: false,
            has_content: false,
            has_charset: false,
            got_pragma: false,
            need_pragma: None,
            charset: None,
        }
    }

    /// Adds an attribute `http-equiv`.
    fn add_http_equiv(self, value: &[u8]) -> Self
        ensures { result ≡ with_http_equiv self value.now }
    {
        if self.has_http_equiv {
            return self;
        }
        Meta {
            has_http_equiv: true,
            got_pragma: is_word(value, b"content-type"),
            ..self
        }
    }

    /// Adds an attribute `content`.
    fn add_content(self, value: &[u8]) -> Self
        ensures { result ≡ with_content self value.now }
    {
        if self.has_content {
            return self;
        }
        let named = Meta {
            has_content: true,
            ..self
        };
        match content_encoding(value) {
            Some(encoding) if named.charset.is_none() => Meta {
                charset: Some(Some(encoding)),
                need_pragma: Some(true),
                ..named
            },
            _ => named,
        }
    }

    /// Adds an attribute `charset`.
    fn add_charset(self, value: &[u8]) -> Self
        ensures { result ≡ with_charset self value.now }
    {
        if self.has_charset {
            return self;
        }
        Meta {
            has_charset: true,
            charset: Some(Encoding::for_label(value)),
            need_pragma: Some(false),
            ..self
        }
    }

    /// Adds an attribute that follows those so far (steps 7 to 9).
    pub(crate) fn add(self, attribute: Attribute<'_>) -> Self
        ensures { result ≡ with_attribute self (attribute_now attribute.entry) }
    {
        if is_word(attribute.name, b"http-equiv") {
            self.add_http_equiv(attribute.value)
        } else if is_word(attribute.name, b"content") {
            self.add_content(attribute.value)
        } else if is_word(attribute.name, b"charset") {
            self.add_charset(attribute.value)
        } else {
            self
        }
    }

    /// Returns whether the pragma that an encoding in `content` needs is there.
    fn has_pragma(self) -> bool
        ensures { result ≡ has_needed_pragma self.need_pragma self.got_pragma }
    {
        match self.need_pragma {
            Some(need_pragma) => !need_pragma || self.got_pragma,
            None => false,
        }
    }

    /// Returns the encoding that the element declares, if it does (steps 11 to 16).
    pub(crate) fn encoding(self) -> Option<Encoding>
        ensures { result ≡ meta_encoding self }
    {
        if !self.has_pragma() {
            return None;
        }
        Some(usable(self.charset??))
    }
}
