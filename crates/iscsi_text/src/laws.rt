//! Laws of numerals and texts: functions with no work, whose contracts are of the definitions
//! alone.

ghost use Rattle.std.specs.Prelude.{◌≡◌, ◌≤◌, ◌<◌, ◌^◌, ◌↔◌, ℕ, List, length, Some, None};
ghost use Rattle.iscsi_text.specs.declared.fault.TextFault.{TextFault};
ghost use Rattle.iscsi_text.specs.Numeral.{SpellsNumber, canonical_number};
ghost use Rattle.iscsi_text.specs.Text.{Pairs, TextMeans, IsMeaning};
ghost use Rattle.iscsi_text.specs.Fault.{IsFirstFault};
ghost use Rattle.iscsi_text.specs.Canonical.{canonical_text};
ghost use Rattle.iscsi_text.specs.Reading.{text_in};

/// Bytes spell one number at most.
pub fn one_number()
    ensures one { (bytes : List ℕ) (m n : ℕ) → SpellsNumber bytes m → SpellsNumber bytes n → m ≡ n }
{}

/// The canonical numeral spells its number, and no spelling is shorter.
pub fn canonical_number_is_least()
    ensures spells { (n : ℕ) → n < 2 ^ 64 → SpellsNumber (canonical_number n) n }
    ensures least { (bytes : List ℕ) (n : ℕ) → SpellsNumber bytes n →
        length (canonical_number n) ≤ length bytes }
{}

/// Bytes mean one map at most.
pub fn one_meaning()
    ensures one { (bytes : List ℕ) (m n : Pairs) → TextMeans bytes m → TextMeans bytes n → m ≡ n }
{}

/// Two texts mean the same map exactly if their canonical texts are equal.
pub fn equal_texts()
    ensures equal { (s t : List ℕ) (m n : Pairs) → TextMeans s m → TextMeans t n →
        (m ≡ n) ↔ (canonical_text m ≡ canonical_text n) }
{}

/// What bytes mean is a map of pairs in the order of their keys, each of which some text has, and
/// the canonical text of such a map means it.
pub fn canonical_text_means()
    ensures is_meaning { (bytes : List ℕ) (m : Pairs) → TextMeans bytes m → IsMeaning m }
    ensures means { (m : Pairs) → IsMeaning m → TextMeans (canonical_text m) m }
{}

/// The canonical text is its own canonical text, and no longer than any text of its map.
pub fn canonical_text_is_canonical()
    ensures once { (bytes : List ℕ) (m n : Pairs) → TextMeans bytes m →
        TextMeans (canonical_text m) n → canonical_text n ≡ canonical_text m }
    ensures no_longer { (bytes : List ℕ) (m : Pairs) → TextMeans bytes m →
        length (canonical_text m) ≤ length bytes }
{}

/// The computed reading gives a map exactly where bytes mean it, and none exactly where they mean
/// none, as bytes with a fault do.
pub fn reading_is_meaning()
    ensures some { (bytes : List ℕ) (m : Pairs) → (text_in bytes ≡ Some m) ↔ TextMeans bytes m }
    ensures none { (bytes : List ℕ) → (text_in bytes ≡ None) ↔ ((m : Pairs) → ¬ TextMeans bytes m) }
    ensures fault { (bytes : List ℕ) (fault : TextFault) → IsFirstFault bytes fault →
        text_in bytes ≡ None }
{}

/// The computed reading of the canonical text of what was read gives it again, from no more bytes.
pub fn canonical_text_is_read()
    ensures again { (bytes : List ℕ) (m : Pairs) → text_in bytes ≡ Some m →
        text_in (canonical_text m) ≡ Some m }
    ensures no_longer { (bytes : List ℕ) (m : Pairs) → text_in bytes ≡ Some m →
        length (canonical_text m) ≤ length bytes }
{}

/// Bytes with a fault mean nothing.
pub fn no_fault()
    ensures none { (bytes : List ℕ) (m : Pairs) (fault : TextFault) → TextMeans bytes m →
        IsFirstFault bytes fault → ⊥ }
{}

/// Bytes have one first fault at most.
pub fn one_fault()
    ensures one { (bytes : List ℕ) (f g : TextFault) →
        IsFirstFault bytes f → IsFirstFault bytes g → f ≡ g }
{}
