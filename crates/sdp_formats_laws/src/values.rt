//! Values with texts of their own that are read as they are printed.

ghost use Rattle.sdp_formats_laws.specs.ValueTexts.{FingerprintsComeBackFromText, PrintedCandidatesComeBack};
ghost use Rattle.sdp_formats_laws.specs.ValueTexts.{PrintedFingerprintsComeBack, ReadCandidatesAreOfWords};
ghost use Rattle.sdp_formats_laws.specs.ValueTexts.{ReadFingerprintsAreNamed};

/// A candidate's printed text is the word `candidate:` and a text that is read as the candidate, if and only if its
/// texts are words and its numbers of their widths (RFC 8839 5.1), as each candidate's are that was read.
pub fn candidate_texts_law()
    ensures printed { PrintedCandidatesComeBack }
    ensures read { ReadCandidatesAreOfWords }
{}

/// A fingerprint's printed text is read as the fingerprint, if and only if it has a word for its hash function and a
/// byte at least (RFC 8122 5), as each fingerprint has that was read. If bytes are read as numbers in base 16, so is
/// one whose hash function is no more than a text without a blank.
pub fn fingerprint_texts_law()
    ensures printed { PrintedFingerprintsComeBack }
    ensures read { ReadFingerprintsAreNamed }
    ensures from_text { FingerprintsComeBackFromText }
{}
