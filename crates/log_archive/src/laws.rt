//! Laws over the definitions, which no program runs.
ghost use Rattle.std.specs.Prelude.{◌≡◌, ◌^◌, ◌+◌, ◌<◌, ◌≤◌, ◌∷◌, ◌++◌, [], ℕ, List, length, IsTrue};
ghost use Rattle.std.specs.List.{All};
ghost use Rattle.wal_record.specs.Rules.{HasSpelling, is_number, is_page};
ghost use Rattle.wal_record.specs.declared.record.Record.{Record};
ghost use Rattle.log_archive.specs.Items.{chunks_by, chunks_of, items_on, numbered, on_page};
ghost use Rattle.log_archive.specs.Merging.{items_in};
ghost use Rattle.log_archive.specs.Run.{IsRun, run_bytes};
ghost use Rattle.log_archive.specs.declared.item.Numbered.{Numbered};

/// A run has exactly the records of its range that name a page. It runs nothing: its contract is the law.
pub fn runs_law()
    // What is made of the records of a range keeps the form of a run, so it is read again.
    ensures made { (run first last : ℕ) (rs : List Record) → IsTrue (is_number first) → IsTrue (is_number last) → first ≤ last → first + length rs ≡ last + 1
        → All HasSpelling rs → length (run_bytes run first last (chunks_of (numbered first rs))) < 2 ^ 32
        → IsRun run first last (chunks_of (numbered first rs)) (run_bytes run first last (chunks_of (numbered first rs))) }
    // It has of each page the records that name it, with their LSNs, in order, and no others.
    ensures exact { (page : ℕ) (items : List Numbered) → IsTrue (is_page page) → items_on page (chunks_of items) ≡ on_page page items }
{}

/// Two neighbouring runs that are merged give the run of both ranges. It runs nothing: its contract is the law.
pub fn merging_law()
    ensures { (first : ℕ) (rs more : List Record) → chunks_by (items_in (chunks_of (numbered first rs) ∷ chunks_of (numbered (first + length rs) more) ∷ [])) ≡ chunks_of (numbered first (rs ++ more)) }
{}
