//! What holds of upgrades and their texts. Each law is a function with an empty body, whose clauses are proved
//! once for all callers.

ghost use Rattle.std.specs.Prelude.{◌≡◌, List};
ghost use Rattle.class_defs.specs.declared.upgrades.Upgrade.{Upgrade};
ghost use Rattle.script_text.specs.Grammar.{AreTokensOf};
ghost use Rattle.script_text.specs.Laws.{AreSpelled};
ghost use Rattle.script_text.specs.declared.token.Token.{Token};
ghost use Rattle.class_defs.specs.UpgradeLinesAside.{upgrade_on_line_1};
ghost use Rattle.upgrade_defs.specs.Printed.{printed_upgrade};
ghost use Rattle.upgrade_defs.specs.Texts.{SpellsUpgrade};

/// No tokens spell two upgrades.
#[tactic(auto, using(crate::proofs::Only::one_upgrade))]
pub fn upgrade_spellings_are_unique()
    ensures { (tokens : List Token) (a b : Upgrade) → SpellsUpgrade tokens a → SpellsUpgrade tokens b → a ≡ b }
{}

/// What was printed, read again, gives the upgrade back, lines aside.
///
/// The upgrade is one that tokens spell, each token spelled as its kind is; those that `scan` finds are. The
/// printed text has tokens, and they spell that upgrade as it stands on one line. So `scan` finds them in a
/// text of less than 2^32 bytes, and `parse_upgrade` gives that upgrade, unless memory runs out. A text tells
/// nothing of the lines: what was read so prints as the same text.
#[tactic(auto, using(crate::proofs::UpgradesAside::upgrade_read, crate::proofs::UpgradesAside::upgrade_again))]
pub fn printed_upgrades_are_read()
    ensures upgrade { (tokens : List Token) → (upgrade : Upgrade) → AreSpelled tokens → SpellsUpgrade tokens upgrade
        → (printed : List Token) × AreTokensOf (printed_upgrade upgrade) printed × SpellsUpgrade printed (upgrade_on_line_1 upgrade) }
    ensures lines { (upgrade : Upgrade) → printed_upgrade (upgrade_on_line_1 upgrade) ≡ printed_upgrade upgrade }
{}
