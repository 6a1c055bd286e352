//! What the two definitions promise of each other, for all records.
ghost use Rattle.std.specs.Prelude.{◌≡◌, ◌++◌, ℕ, List, Ok};
ghost use Rattle.wal_record.specs.declared.record.Record.{Record};
ghost use Rattle.wal_record.specs.Rules.{HasSpelling};
ghost use Rattle.wal_record.specs.Spelling.{spelling};
ghost use Rattle.wal_record.specs.Reading.{record_at};

/// Records have one spelling each. It runs nothing: its contract is the law.
pub fn canonical()
    // What is spelled is read again, whatever follows.
    ensures again { (r : Record) (rest : List ℕ) → HasSpelling r → record_at (spelling r ++ rest) ≡ Ok (r, rest) }
    // No spelling begins another: where two of them begin the same bytes, they are of one record.
    ensures apart { (r s : Record) (rest more : List ℕ) → HasSpelling r → HasSpelling s → spelling r ++ rest ≡ spelling s ++ more → r ≡ s }
{}
