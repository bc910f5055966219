//! What holds of the texts of scripts. Each law is a function with an empty body, whose clauses are proved once
//! for all callers.

ghost use Rattle.std.specs.Prelude.{◌≡◌, ◌⊎◌, ◌<◌, ◌^◌, ℕ, List, length};
ghost use Rattle.script_text.specs.Grammar.{AreTokensOf};
ghost use Rattle.script_text.specs.declared.token.Token.{Token};
ghost use Rattle.script_parse.specs.Script.{HasTokens, IsRefusedText, IsSyntaxOf, IsWritten};
ghost use Rattle.script_parse.specs.declared.refusal.Refusal.{Refusal};
ghost use Rattle.script_parse.specs.declared.script.Script.{Script};

/// A text is read in one way: it is one script, or it is refused, never both, and then one line is told.
pub fn scripts_are_read_in_one_way()
    ensures each { (bytes : List ℕ) → ((script : Script) × IsWritten bytes script) ⊎ ((r : Refusal) × IsRefusedText bytes r) }
    ensures script { (bytes : List ℕ) (script other : Script) → IsWritten bytes script → IsWritten bytes other → script ≡ other }
    ensures none_refused { (bytes : List ℕ) (script : Script) (r : Refusal) → IsWritten bytes script → IsRefusedText bytes r → ⊥ }
    ensures refusal { (bytes : List ℕ) (r q : Refusal) → IsRefusedText bytes r → IsRefusedText bytes q → r ≡ q }
{}

/// The line that is told of a refused text is that of its first token that no script goes on with, whatever part
/// of the script the token stands in. Where a script goes on with all tokens, and they are none, it is the line of
/// the last one, or 1.
///
/// `IsSyntaxOf` says this of whole scripts as it does of their parts. It speaks of texts that have tokens: any other
/// is refused at the line on which they stop. `only` is the other direction: that line is told, and no other cause.
pub fn the_first_fault_of_a_script_is_told()
    ensures told { (bytes : List ℕ) (tokens : List Token) (r : Refusal) → length bytes < 2 ^ 32 → AreTokensOf bytes tokens
        → IsRefusedText bytes r → IsSyntaxOf HasTokens tokens r }
    ensures only { (bytes : List ℕ) (tokens : List Token) (r : Refusal) → length bytes < 2 ^ 32 → AreTokensOf bytes tokens
        → IsSyntaxOf HasTokens tokens r → IsRefusedText bytes r }
{}
