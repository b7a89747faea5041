// What holds of every file that a disk can hold, whatever its bytes.
ghost use Rattle.std.specs.Prelude.{◌≡◌, ◌<◌, ◌^◌, ℕ, List, length};
ghost use Rattle.deploy_journal.specs.Records.{Record, Holds, IsDamagedAt};

/// A file holds one list of records at most, and the closed gate after them is at one place.
pub fn records_follow_from_the_bytes()
    ensures { (file : List ℕ) (xs ys : List Record) (m n : ℕ) → length file < 2 ^ 64
        → Holds xs m file → Holds ys n file → (xs ≡ ys) × (m ≡ n) }
{}

/// No file holds records and is damaged too.
pub fn damage_excludes_records()
    ensures { (file : List ℕ) (records : List Record) (at n : ℕ) → length file < 2 ^ 64
        → IsDamagedAt file at → Holds records n file → ⊥ }
{}

/// A file is damaged at one place at most.
pub fn damage_has_one_place()
    ensures { (file : List ℕ) (m n : ℕ) → length file < 2 ^ 64 → IsDamagedAt file m
        → IsDamagedAt file n → m ≡ n }
{}
