//! What is read of a text, as a law: the function does nothing when it runs.

ghost use Rattle.certificate3.specs.Formats.{CertifiedLaw};
ghost use Rattle.certificate3.specs.Laws.{ReadLaw, OneLaw, WrittenLaw};

/// A text is read to its end as a certificate exactly where it spells that certificate, and no text
/// spells two. So just the certificate is read again of what `write` puts.
pub fn read_law()
    ensures read { ReadLaw }
    ensures one { OneLaw }
    ensures written { WrittenLaw }
{}

/// A text is read to its end as a certificate of the version that its first line names exactly where
/// it spells that certificate.
pub fn certified_law()
    ensures { CertifiedLaw }
{}
