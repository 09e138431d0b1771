//! What holds of ends that exchanged texts.

ghost use Rattle.std.specs.Prelude.{◌≡◌, ℕ, List};
ghost use Rattle.rtp_media_exchange.specs.Mutual.{ExchangesAreMutual, RepairsAreMutual};
ghost use Rattle.rtp_media_exchange.specs.Says.{AgreesOnText};
ghost use Rattle.rtp_media_sections.specs.Agreement.{Agreed, agreed_map_of, agreed_row_of};

/// Two ends that agreed on one text have agreed on the same rows and the same map of header extensions, in each section
/// (RFC 3264 6).
pub fn one_agreement_law()
    ensures rows { (text : List ℕ) (a b : List Agreed) → AgreesOnText text a → AgreesOnText text b
        → (mid : List ℕ) (pt : ℕ) → agreed_row_of a mid pt ≡ agreed_row_of b mid pt }
    ensures maps { (text : List ℕ) (a b : List Agreed) → AgreesOnText text a → AgreesOnText text b
        → (mid : List ℕ) → agreed_map_of a mid ≡ agreed_map_of b mid }
{}

/// After an offer, its answer and its acceptance, what each end agreed on in each section follows
/// from the two texts: media flows from one end to the other if its text sends and the other's
/// receives, and an SSRC or an RTX pair is named if the text of its own end names it (RFC 3264 6,
/// RFC 5576 4.1, RFC 4588 8.3).
pub fn mutual_law()
    ensures sections { ExchangesAreMutual }
    ensures repairs { RepairsAreMutual }
{}
