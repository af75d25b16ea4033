//! The law of escaped texts.

ghost use Rattle.cg_page.specs.Escaped.{EscapedTextsStay};

/// An escaped text has no angle bracket and no quote, so it stays where it is put.
pub fn escaped_texts_stay()
    ensures { EscapedTextsStay }
{}
