//! The laws of DHAT documents and of shown texts, for callers whose contracts speak of values and texts that they do
//! not read or write themselves.
ghost use Rattle.std.specs.Prelude.{◌≡◌, ◌≢◌, ◌↔◌, ℕ, List, Ok, None, Some, All, length, slice_get, ◌<◌, ◌≤◌};
ghost use Rattle.serde_json.specs.Data.{Data};
ghost use Rattle.dhat_json.specs.declared.profile.Dhat.{Dhat};
ghost use Rattle.dhat_json.specs.DhatFault.{dhat_fault};
ghost use Rattle.dhat_json.specs.DhatValue.{dhat_value};
ghost use Rattle.dhat_json.specs.Document.{dhat_in};
ghost use Rattle.dhat_json.specs.IsDhat.{is_dhat};
ghost use Rattle.dhat_json.specs.IsSound.{IsSound};
ghost use Rattle.dhat_json.specs.Shown.{shown};

/// What JSON values are: each says one profile or has one fault. It does nothing.
pub fn dhat_documents()
    ensures profile { (value : Data) (dhat : Dhat)
        → (dhat_in value ≡ Ok dhat) ↔ is_dhat value dhat }
    ensures one_profile { (value : Data) (p q : Dhat) → is_dhat value p → is_dhat value q → p ≡ q }
    ensures no_fault { (value : Data) (dhat : Dhat) → is_dhat value dhat → dhat_fault value ≡ None }
    ensures sound { (value : Data) (dhat : Dhat) → is_dhat value dhat → IsSound dhat }
{}

/// The value of a sound profile says that profile, and no other. It does nothing.
pub fn dhat_round_trip()
    ensures says { (dhat : Dhat) → IsSound dhat → is_dhat (dhat_value dhat) dhat }
    ensures again { (dhat : Dhat) → IsSound dhat → dhat_in (dhat_value dhat) ≡ Ok dhat }
{}

/// What shown texts are like, as labels of a line are. It does nothing.
pub fn shown_texts()
    ensures not_empty { (text : List ℕ) → 0 < length (shown text) }
    ensures printable { (text : List ℕ) → All (λ b. 32 ≤ b) (shown text) }
    ensures no_line_feed { (text : List ℕ) → All (λ b. b ≢ 10) (shown text) }
    ensures begin { (text : List ℕ) → slice_get (shown text) 0 ≢ Some 32 }
    ensures again { (text : List ℕ) → shown (shown text) ≡ shown text }
{}
