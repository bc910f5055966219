//! Worked rows of the definition of tokens.

ghost use Rattle.std.specs.Prelude.{◌≡◌, ◌++◌, [], ◌∷◌, codes, replicate, Ok, Err};
ghost use Rattle.script_text.specs.declared.token.TokenKind.TheVariants.{Name, Number, Keyword, Symbol};
ghost use Rattle.script_text.specs.Tokens.{tokens_of};
ghost use Rattle.script_text.specs.Rows.{row};

/// Where the tokens of short texts stand.
#[tactic(auto, unfolding(script_text::specs::Tokens::tokens_of, script_text::specs::Tokens::tokens_among, script_text::specs::Pieces::pieces, script_text::specs::Pieces::first_piece, script_text::specs::Pieces::word_piece, script_text::specs::Pieces::number_piece, script_text::specs::Pieces::symbol_piece))]
fn cut()
    ensures nothing { tokens_of [] ≡ Ok [] }
    ensures separators { tokens_of (9 ∷ 13 ∷ 10 ∷ 32 ∷ []) ≡ Ok [] }
    ensures longest_symbol { tokens_of (codes "===") ≡
        Ok (row Symbol (codes "==") 1 0 ∷ row Symbol (codes "=") 1 2 ∷ []) }
    ensures no_such_symbol { tokens_of (codes "<=") ≡
        Ok (row Symbol (codes "<") 1 0 ∷ row Symbol (codes "=") 1 1 ∷ []) }
    ensures keyword_is_the_whole_word { tokens_of (codes "tx tx1") ≡
        Ok (row Keyword (codes "tx") 1 0 ∷ row Name (codes "tx1") 1 3 ∷ []) }
    ensures number_then_name { tokens_of (codes "12ab") ≡
        Ok (row Number (codes "12") 1 0 ∷ row Name (codes "ab") 1 2 ∷ []) }
    ensures event { tokens_of (codes "d1.0") ≡
        Ok (row Name (codes "d1") 1 0 ∷ row Symbol (codes ".") 1 2 ∷ row Number (codes "0") 1 3 ∷ []) }
    ensures lines { tokens_of (97 ∷ 10 ∷ 10 ∷ 98 ∷ []) ≡
        Ok (row Name (codes "a") 1 0 ∷ row Name (codes "b") 3 3 ∷ []) }
    ensures comment_to_the_line { tokens_of (codes "a//" ++ 0 ∷ 200 ∷ 10 ∷ codes "b") ≡
        Ok (row Name (codes "a") 1 0 ∷ row Name (codes "b") 2 6 ∷ []) }
    ensures comment_to_the_end { tokens_of (codes "a// b") ≡ Ok (row Name (codes "a") 1 0 ∷ []) }
{}

/// Where there are none.
#[tactic(auto, unfolding(script_text::specs::Tokens::tokens_of, script_text::specs::Tokens::tokens_among, script_text::specs::Pieces::pieces, script_text::specs::Pieces::first_piece, script_text::specs::Pieces::word_piece, script_text::specs::Pieces::number_piece, script_text::specs::Pieces::symbol_piece))]
fn faults()
    ensures one_slash { tokens_of (10 ∷ codes "a / b") ≡ Err (record { line = 2 }) }
    ensures no_equals { tokens_of (codes "a ! b") ≡ Err (record { line = 1 }) }
    ensures underscore_first { tokens_of (codes "a _b") ≡ Err (record { line = 1 }) }
    ensures byte_of_no_token { tokens_of (97 ∷ 10 ∷ 127 ∷ []) ≡ Err (record { line = 2 }) }
    ensures the_first_counts { tokens_of (0 ∷ 10 ∷ 0 ∷ []) ≡ Err (record { line = 1 }) }
{}

/// The limits of names and numbers.
#[tactic(auto, unfolding(script_text::specs::Tokens::tokens_of, script_text::specs::Tokens::tokens_among, script_text::specs::Pieces::pieces, script_text::specs::Pieces::first_piece, script_text::specs::Pieces::word_piece, script_text::specs::Pieces::number_piece, script_text::specs::Pieces::symbol_piece))]
fn limits()
    ensures name_of_32_bytes { tokens_of (replicate 32 97) ≡ Ok (row Name (replicate 32 97) 1 0 ∷ []) }
    ensures name_of_33_bytes { tokens_of (replicate 33 97) ≡ Err (record { line = 1 }) }
    ensures greatest_number { tokens_of (codes "9223372036854775807") ≡
        Ok (row Number (codes "9223372036854775807") 1 0 ∷ []) }
    ensures number_too_great { tokens_of (codes "9223372036854775808") ≡ Err (record { line = 1 }) }
    ensures digits_19 { tokens_of (codes "0000000000000000007") ≡
        Ok (row Number (codes "0000000000000000007") 1 0 ∷ []) }
    ensures digits_20 { tokens_of (codes "00000000000000000007") ≡ Err (record { line = 1 }) }
{}

#[test]
fn worked_rows() {
    cut();
    faults();
    limits();
}
