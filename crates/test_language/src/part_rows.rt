//! Worked rows of the definition of a script's parts.

ghost use Rattle.std.specs.Prelude.{◌≡◌, ◌++◌, [], ◌∷◌, codes, Some, None, Ok, Err};
ghost use Rattle.script_text.specs.Rows.{sizes};

/// Scripts, with the sizes of their setup, of each client's items and of their schedule.
#[tactic(auto, unfolding(script_text::specs::Tokens::tokens_of, script_text::specs::Tokens::tokens_among, script_text::specs::Pieces::pieces, script_text::specs::Pieces::first_piece, script_text::specs::Pieces::word_piece, script_text::specs::Pieces::number_piece, script_text::specs::Pieces::symbol_piece, script_text::specs::Sections::split_of, script_text::specs::Sections::read, script_text::specs::Sections::step, script_text::specs::Marks::mark_of))]
fn scripts()
    ensures nothing { sizes [] ≡ Ok (None, [], 0, None) }
    ensures empty_setup { sizes (codes "setup") ≡ Ok (Some 0, [], 0, None) }
    ensures no_items { sizes (codes "client 1 client 2") ≡ Ok (None, [] ∷ [] ∷ [], 0, None) }
    ensures all_parts { sizes (codes "setup free class A { } root a = new A(); client 1 tx { a.b(); } schedule s1 s1") ≡
        Ok (Some 13, (9 ∷ []) ∷ [], 2, None) }
    ensures blocks_inside { sizes (codes "client 1 tx { while (1) { } } tx { }") ≡ Ok (None, (9 ∷ 3 ∷ []) ∷ [], 0, None) }
    ensures leading_zeros { sizes (codes "client 01 client 0002") ≡ Ok (None, [] ∷ [] ∷ [], 0, None) }
    ensures upgrades_of_one_client { sizes (codes "client 1 upgrade { } tx { } upgrade { } client 2") ≡
        Ok (None, (3 ∷ 3 ∷ 3 ∷ []) ∷ [] ∷ [], 0, None) }
    ensures schedule_has_the_rest { sizes (codes "schedule s1 client 7") ≡ Ok (None, [], 3, None) }
{}

/// Texts that are none, with the line at which they can't go on.
#[tactic(auto, unfolding(script_text::specs::Tokens::tokens_of, script_text::specs::Tokens::tokens_among, script_text::specs::Pieces::pieces, script_text::specs::Pieces::first_piece, script_text::specs::Pieces::word_piece, script_text::specs::Pieces::number_piece, script_text::specs::Pieces::symbol_piece, script_text::specs::Sections::split_of, script_text::specs::Sections::read, script_text::specs::Sections::step, script_text::specs::Marks::mark_of))]
fn faults()
    ensures item_without_client { sizes (10 ∷ codes "tx { }") ≡ Ok (None, [], 0, Some 2) }
    ensures second_client_first { sizes (codes "client" ++ 10 ∷ codes "2") ≡ Ok (None, [], 0, Some 2) }
    ensures no_number { sizes (codes "client a") ≡ Ok (None, [], 0, Some 1) }
    ensures number_missing { sizes (codes "client 1 client" ++ 10 ∷ []) ≡ Ok (None, [] ∷ [], 0, Some 1) }
    ensures upgrade_of_a_second_client { sizes (codes "client 1 upgrade { } client 2 tx { }" ++ 10 ∷ codes "upgrade { }") ≡
        Ok (None, (3 ∷ []) ∷ (3 ∷ []) ∷ [], 0, Some 2) }
    ensures setup_behind_clients { sizes (codes "client 1" ++ 10 ∷ codes "setup") ≡ Ok (None, [] ∷ [], 0, Some 2) }
    ensures item_without_block { sizes (codes "client 1 tx" ++ 10 ∷ codes "tx { }") ≡ Ok (None, [] ∷ [], 0, Some 2) }
    ensures brace_too_many { sizes (codes "client 1 tx { }" ++ 10 ∷ codes "}") ≡ Ok (None, (3 ∷ []) ∷ [], 0, Some 2) }
{}

/// What is handed on of a part that is open.
#[tactic(auto, unfolding(script_text::specs::Tokens::tokens_of, script_text::specs::Tokens::tokens_among, script_text::specs::Pieces::pieces, script_text::specs::Pieces::first_piece, script_text::specs::Pieces::word_piece, script_text::specs::Pieces::number_piece, script_text::specs::Pieces::symbol_piece, script_text::specs::Sections::split_of, script_text::specs::Sections::read, script_text::specs::Sections::step, script_text::specs::Marks::mark_of))]
fn open_parts()
    ensures item_open_at_client { sizes (codes "client 1 tx { a" ++ 10 ∷ codes "client 2 tx { }") ≡ Ok (None, (4 ∷ []) ∷ [], 0, Some 2) }
    ensures item_open_at_end { sizes (codes "client 1 tx {" ++ 10 ∷ codes "{ }") ≡ Ok (None, (4 ∷ []) ∷ [], 0, Some 2) }
    ensures word_alone { sizes (codes "client 1 tx") ≡ Ok (None, [] ∷ [], 0, Some 1) }
    ensures setup_open_at_client { sizes (codes "setup root a" ++ 10 ∷ codes "client 1") ≡ Ok (Some 3, [], 0, Some 2) }
    ensures setup_open_at_end { sizes (codes "setup free class A {" ++ 10 ∷ codes "int") ≡ Ok (Some 5, [], 0, Some 2) }
    ensures setup_whole_before_the_fault { sizes (codes "setup free class A { }" ++ 10 ∷ codes "tx { }") ≡ Ok (Some 5, [], 0, Some 2) }
{}

#[test]
fn worked_rows_of_parts() {
    scripts();
    faults();
    open_parts();
}
