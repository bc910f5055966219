//! What holds of the names of texts. The law is a function with an empty body, whose clause is proved once for all callers.

ghost use Rattle.std.specs.Prelude.{◌≡◌, true};
ghost use Rattle.script_text.specs.declared.token.Token.{Token};
ghost use Rattle.script_text.specs.Grammar.{IsToken};
ghost use Rattle.method_parse.specs.Matching.{is_name, is_name_kind};

/// Each token of the kind of names that is spelled as its kind is, is a name; those that `scan` finds are spelled so.
pub fn spelled_names_are_names()
    ensures { (token : Token) → IsToken token.kind token.text → is_name_kind token.kind ≡ true → is_name token ≡ true }
{}
