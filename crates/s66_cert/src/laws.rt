//! Laws of documents and their texts.
//! A text determines its documents and is determined by them.

ghost use Rattle.std.specs.Prelude.{ℕ, List, ◌≡◌, ◌<◌, ◌^◌, ◌⊎◌};
ghost use Rattle.s66_isa.specs.{BLOCK_LIMIT};
ghost use Rattle.s66_cert.specs.{Document, IsDocumentWithin, IsText, IsTextWithin, document_text, IsFault, CertError};

/// A text is the text of one document alone, and of one list of documents, whatever the limits of each.
pub fn one_reading_law()
    ensures document { (limit other most more : ℕ) (d e : Document) → limit < 2 ^ 64 → other < 2 ^ 64 →
        IsDocumentWithin limit most d → IsDocumentWithin other more e → document_text d ≡ document_text e → d ≡ e }
    ensures documents { (limit other most more : ℕ) (text : List ℕ) (ds es : List Document) → limit < 2 ^ 64 →
        other < 2 ^ 64 → IsTextWithin limit most text ds → IsTextWithin other more text es → ds ≡ es }
{}

/// Each text is the text of documents or has a fault, never both, and its fault is one.
pub fn reading_law()
    ensures documents_or_fault { (text : List ℕ) → ((ds : List Document) × IsText BLOCK_LIMIT text ds) ⊎
        ((e : CertError) × IsFault text e) }
    ensures not_both { (text : List ℕ) (ds : List Document) (e : CertError) → IsText BLOCK_LIMIT text ds →
        ¬ IsFault text e }
    ensures one_fault { (text : List ℕ) (e f : CertError) → IsFault text e → IsFault text f → e ≡ f }
{}

/// Blocks once had at most 64 instructions, and now have at most 128. What was a text of documents then is a text of the same
/// documents now.
pub fn old_documents_stay()
    ensures stay { (text : List ℕ) (ds : List Document) → IsText 64 text ds → IsText 128 text ds }
    ensures limit { BLOCK_LIMIT ≡ 128 }
{}
