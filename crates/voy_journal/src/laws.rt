ghost use Rattle.std.specs.Prelude.{◌≡◌, ℕ, List, None, Some};
ghost use Rattle.voy_journal.specs.Grammar.{DamagedAt, HasPayloads, payloads_of};

/// The grammar is not ambiguous: bytes have one list of payloads, or they are damaged at one place.
pub fn one_reading()
    ensures payloads { (payloads : List (List ℕ)) (bytes : List ℕ) → HasPayloads payloads bytes → payloads_of bytes ≡ Some payloads }
    ensures damage { (offset : ℕ) (bytes : List ℕ) → DamagedAt offset bytes → payloads_of bytes ≡ None }
    ensures offset { (first second : ℕ) (bytes : List ℕ) → DamagedAt first bytes → DamagedAt second bytes → first ≡ second }
{}
