//! Laws of scripts, each the contract of a function that does nothing.

ghost use Rattle.std.specs.Prelude.{◌≡◌, ℕ, List, [], None, Ok, All};
ghost use Rattle.sb_lex.specs.Cuts.{IsCut};
ghost use Rattle.sb_grammar.specs.Batches as grammar;
ghost use Rattle.sb_parse.specs.Places.{IsSpelledIn};
ghost use Rattle.sb_script.specs.declared.commands.Command as declared;
ghost use Rattle.sb_script.specs.Bounds.{IsWithin};
ghost use Rattle.sb_script.specs.Script as says;

/// The texts that spell no statements are those without tokens.
pub fn texts_without_tokens_spell_none()
    ensures spelled { (text : List ℕ) → IsCut text [] None → IsSpelledIn (grammar.batch grammar.levels) [] text }
    ensures only { (text : List ℕ) → IsSpelledIn (grammar.batch grammar.levels) [] text → IsCut text [] None }
{}

/// Bytes say one thing alone: the commands that they say, or the first refused line and why.
pub fn bytes_say_one_thing()
    ensures { (bytes : List ℕ) (one other : says.Said) → says.ScriptSays bytes one → says.ScriptSays bytes other → one ≡ other }
{}

/// The numbers of a script's commands are at most the greatest, and those of its sessions from 1 to 9.
pub fn numbers_of_commands_are_within()
    ensures { (bytes : List ℕ) (commands : List declared.Command) → says.ScriptSays bytes (Ok commands) → All IsWithin commands }
{}
