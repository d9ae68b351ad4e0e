//! Laws of the dialect.
ghost use Rattle.eps_core.specs.Meaning.{HasOneBadLine, HasShortLines, TellsPicture};
ghost use Rattle.eps_core.specs.Size.{HasShortText};

/// Two pictures have different texts.
pub fn one_text()
    ensures { TellsPicture }
{}

/// No line of a text is longer than 255 bytes, without its line feed.
pub fn short_lines()
    ensures { HasShortLines }
{}

/// A text has at most 256 bytes for each item, and seven times as many beside.
pub fn short_text()
    ensures { HasShortText }
{}

/// Bytes have at most one first bad line.
pub fn one_bad_line()
    ensures { HasOneBadLine }
{}
