//! Laws of the words that the contracts of this crate use. Each function does nothing: its contract
//! is the law.

ghost use Rattle.job_picture.specs.Laws as law;

/// Whatever a text has, in XML it is no markup and ends no attribute.
pub fn a_text_in_xml_is_no_markup()
    // Proved: A text of a ticket in a picture has no byte that ends a text or an attribute of XML,
    // and none below 32, whole and where it was shortened.
    // By `escaped`, `shortened`.
    ensures escaped { law.EscapedIsPlain }
    ensures shortened { law.ShortenedIsPlain }
{}
