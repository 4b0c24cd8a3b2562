//! What holds of the definitions alone, as the contracts of functions that do nothing.
ghost use Rattle.std.specs.Prelude.{◌≡◌, ◌≢◌, ◌<◌, ◌↔◌, ℕ, All, List, Some};
ghost use Rattle.pt_name.specs.Clean.{cleaned};
ghost use Rattle.pt_name.specs.Place.{SharesShortName, place_of};
ghost use Rattle.pt_name.specs.Reading.{Reads, reading_of};
ghost use Rattle.pt_name.specs.Tuples.{Tuples};

/// A text reads at most one list of bytes.
pub fn one_reading()
    ensures { (text a b : List ℕ) → Reads text a → Reads text b → a ≡ b }
{}

/// What is cleaned reads back.
pub fn cleaned_reads_back()
    ensures { (id : List ℕ) → All (λ byte. byte < 256) id → Reads (cleaned id) id }
{}

/// What a text reads can be computed.
pub fn reading_is_computed()
    ensures { (text bytes : List ℕ) → (Reads text bytes) ↔ (reading_of text ≡ Some bytes) }
{}

/// Two different identifiers have one place only where both encodings have more than 100
/// characters, agree in their first 100, and the identifiers have one SHA-256.
pub fn one_place()
    ensures { (tuples : Tuples) (a b : List ℕ) → All (λ byte. byte < 256) a
        → All (λ byte. byte < 256) b
        → a ≢ b → place_of tuples a ≡ place_of tuples b → SharesShortName a b }
{}
