//! Laws of canonical texts.

ghost use Rattle.hoa_writer.specs.CanonicalTextExamples.{CanonicalTextExamples};
ghost use Rattle.hoa_writer.specs.CanonicalWritten.{CanonicalFormHasTheSameText, CanonicalTextReadsBack};

/// The canonical text of a well-formed automaton reads back as the automaton, with its labels in canonical form.
pub fn canonical_text_reads_back()
    ensures { CanonicalTextReadsBack }
{}

/// An automaton and its canonical form have the same text: labels of equal truth are written alike.
pub fn canonical_form_has_the_same_text()
    ensures { CanonicalFormHasTheSameText }
{}

/// A canonical text, byte for byte.
pub fn canonical_text_examples()
    ensures { CanonicalTextExamples }
{}
