//! What holds of printed texts. Each law is a function with an empty body, whose clauses are proved once
//! for all callers.

ghost use Rattle.std.specs.Prelude.{◌≡◌, List};
ghost use Rattle.class_defs.specs.declared.classes.Class.{Class};
ghost use Rattle.class_defs.specs.declared.statements.Stmt.{Stmt};
ghost use Rattle.class_defs.specs.Printed.{printed_block, printed_class};
ghost use Rattle.script_text.specs.declared.token.Token.{Token};
ghost use Rattle.script_text.specs.Grammar.{AreTokensOf};
ghost use Rattle.script_text.specs.Laws.{AreSpelled};
ghost use Rattle.method_parse.specs.Texts.{SpellsBlock, SpellsClass};
ghost use Rattle.class_defs.specs.LinesAside.{block_on_line_1, class_on_line_1};

/// What was printed, read again, gives the tree back, lines aside.
///
/// The tree is one that tokens spell, each token spelled as its kind is; those that `scan` finds are. The
/// printed text has tokens, and they spell that tree as it stands on one line. So `scan` finds them in a text
/// of less than 2^32 bytes, and `parse_block` gives that tree, unless memory runs out. A text tells nothing of
/// the lines: what was read so prints as the same text.
pub fn printed_texts_are_read()
    ensures blocks { (tokens : List Token) → (block : List Stmt) → AreSpelled tokens → SpellsBlock tokens block
        → (printed : List Token) × AreTokensOf (printed_block block) printed × SpellsBlock printed (block_on_line_1 block) }
    ensures classes { (tokens : List Token) → (class : Class) → AreSpelled tokens → SpellsClass tokens class
        → (printed : List Token) × AreTokensOf (printed_class class) printed × SpellsClass printed (class_on_line_1 class) }
    ensures block_lines { (block : List Stmt) → printed_block (block_on_line_1 block) ≡ printed_block block }
    ensures class_lines { (class : Class) → printed_class (class_on_line_1 class) ≡ printed_class class }
{}
