//! What holds of the lines of a script.
ghost use Rattle.std.specs.Prelude.{◌≡◌, ℕ, true, codes, Some, None, Ok};
ghost use Rattle.serde_json.specs.Data.{Data};
ghost use Rattle.serde_json.specs.Find.{get};
ghost use Rattle.contract_types.specs.Setup.{is_setup, whole};
ghost use Rattle.script_text.specs.Members.{number_in, number_or};
ghost use Rattle.script_text.specs.Grammar.{setup_of};

/// A setup without shards that has its members is refused for its numbers alone.
pub fn every_setup_without_shards_is_taken()
    ensures { (line : Data) (nodes hashes : ℕ) → number_in (codes "nodes") line ≡ Some nodes
        → number_or 8 (get (codes "hash") line) ≡ Some hashes → is_setup nodes hashes ≡ true
        → get (codes "shards") line ≡ None → setup_of line ≡ Ok (whole nodes hashes) }
{}
