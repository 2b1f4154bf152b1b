//! Laws of the grammar, each the contract of a function that does nothing.

ghost use Rattle.std.specs.Prelude.{◌≡◌, ℕ, Bool, true, false, List, [], ◌∷◌, All, None};
ghost use Rattle.sb_grammar.specs.declared.lexeme.Lexeme as lexemes;
ghost use Rattle.sb_grammar.specs.declared.tree.Expr as exprs;
ghost use Rattle.sb_grammar.specs.declared.tree.Statement as statements;
ghost use Rattle.sb_grammar.specs.declared.tree.Statement.TheVariants as trees;
ghost use Rattle.sb_grammar.specs.declared.tree.Change.TheVariants as changes;
ghost use Rattle.sb_grammar.specs.declared.choice.First.TheVariants as firsts;
ghost use Rattle.sb_grammar.specs.declared.choice.RouteOption.{RouteOption};
ghost use Rattle.sb_grammar.specs.declared.choice.RouteOptions.{RouteOptions};
ghost use Rattle.sb_grammar.specs.declared.word.Fixed.TheVariants as fixed;
ghost use Rattle.sb_grammar.specs.Rules.{Toks, token, map_rule};
ghost use Rattle.sb_grammar.specs.Words.{is_fixed, fixed_at, example};
ghost use Rattle.sb_grammar.specs.Values.{sign, word, variable_of, name_of, text_of, number_of};
ghost use Rattle.sb_grammar.specs.Exprs.{literal, literal_by, literal_item, is_null, compared, unbracketed, unbracketed_item, sum};
ghost use Rattle.sb_grammar.specs.Definitions.{create_rest, xml_of, empty_of, retention_of, transport_of, address_of, example_address, route_bars, route_choices};
ghost use Rattle.sb_grammar.specs.Dialogs.{error_ending, named_columns, some_columns, plain_column, end_tail, encryption_bars, filter};
ghost use Rattle.sb_grammar.specs.RowStatements.{set_variable};
ghost use Rattle.sb_grammar.specs.Stops.{first_barred, into_of};
ghost use Rattle.sb_grammar.specs.Statements.{inner_first, first_of, begun_of, try_of, block_at, end_word, any_turn, any_statement, rest_of, closed};
ghost use Rattle.sb_grammar.specs.Batches.{batch, procedure, transaction_of, procedure_word};
ghost use Rattle.sb_grammar.specs.Choices.{BeginsNot, written};
ghost use Rattle.sb_grammar.specs.Whole.{IsGrammar};

/// What is read of a batch is spelled, what is spelled is read, and else the first place is named at
/// which no spelling goes on, whatever the number of levels.
pub fn batches_are_read_exactly()
    ensures { (levels : ℕ) → IsGrammar (batch levels) }
{}

/// The same of procedures.
pub fn procedures_are_read_exactly()
    ensures { (levels : ℕ) → IsGrammar (procedure levels) }
{}

/// No two batches have one spelling.
pub fn batches_are_spelled_apart()
    ensures { (levels : ℕ) (tokens : Toks) (one other : List statements.Statement) → (batch levels).spells one tokens [] → (batch levels).spells other tokens [] → one ≡ other }
{}

/// No two procedures have one spelling.
pub fn procedures_are_spelled_apart()
    ensures { (levels : ℕ) (tokens : Toks) (one other : List statements.Statement) → (procedure levels).spells one tokens [] → (procedure levels).spells other tokens [] → one ≡ other }
{}

/// A bracket, a fixed word and a comparison begin nothing else that an expression or a test may begin
/// with.
pub fn fixed_words_of_expressions()
    ensures bracket { (levels : ℕ) → BeginsNot (fixed_at fixed.Open) (unbracketed (sum levels)) }
    ensures cast { BeginsNot (fixed_at fixed.Cast) literal }
    ensures bracketed_test { (levels : ℕ) → BeginsNot (fixed_at fixed.Open) (unbracketed_item (sum levels)) }
    ensures cast_in_test { BeginsNot (fixed_at fixed.Cast) literal_item }
    ensures not_null { (left : exprs.Expr) → BeginsNot (fixed_at fixed.Not) (is_null left) }
    ensures null_test { (levels : ℕ) (left : exprs.Expr) → BeginsNot (fixed_at fixed.Is) (compared (sum levels) left) }
    ensures null { (t : lexemes.Lexeme) → is_fixed fixed.Null t ≡ true → literal_by t.kind t ≡ None }
{}

/// No fixed word of a statement's parts begins what else may stand there.
pub fn fixed_words_of_parts()
    ensures cleanup { (levels : ℕ) → BeginsNot (fixed_at fixed.Cleanup) (error_ending (sum levels)) }
    ensures all_columns { BeginsNot (fixed_at fixed.Star) some_columns }
    ensures assignments { BeginsNot variable_of named_columns }
    ensures cast_column { BeginsNot (fixed_at fixed.Cast) plain_column }
    ensures number_change { (levels : ℕ) → BeginsNot (fixed_at fixed.N) (map_rule changes.Number (sum levels)) }
    ensures no_count { (levels : ℕ) → BeginsNot (fixed_at fixed.NoCount) (set_variable (sum levels)) }
    ensures any_name { (t : lexemes.Lexeme) → is_fixed fixed.Any t ≡ true → name_of t ≡ None }
    ensures any_text { (t : lexemes.Lexeme) → is_fixed fixed.Any t ≡ true → text_of t ≡ None }
    ensures default_level { (t : lexemes.Lexeme) → is_fixed fixed.Default t ≡ true → number_of t ≡ None }
    ensures max_length { (t : lexemes.Lexeme) → is_fixed fixed.Max t ≡ true → number_of t ≡ None }
{}

/// What BEGIN begins is no block, what may be the procedure's own transaction is no statement, END
/// begins no statement of a block but END CONVERSATION, and CREATE PROCEDURE no other definition.
pub fn fixed_words_of_statements()
    ensures begun { (in_batch : Bool) (levels : ℕ) → BeginsNot (begun_of in_batch) (map_rule trees.Block (block_at in_batch levels)) }
    ensures end { (in_batch : Bool) (levels : ℕ) → BeginsNot (inner_first in_batch levels) (end_word (end_tail (sum levels))) }
    ensures transaction { (levels : ℕ) → BeginsNot transaction_of (rest_of false levels firsts.Begin) }
    ensures procedures { BeginsNot procedure_word (closed create_rest) }
{}

/// No word that isn't supported where it stands begins what else may stand there.
pub fn barred_words()
    ensures statement { (in_batch : Bool) (levels : ℕ) → BeginsNot first_barred (any_statement (first_of in_batch levels) (rest_of in_batch levels)) }
    ensures turn { (in_batch : Bool) (levels : ℕ) → BeginsNot first_barred (any_turn (inner_first in_batch levels) (rest_of in_batch levels) (end_tail (sum levels))) }
    ensures block { (in_batch : Bool) (levels : ℕ) → BeginsNot try_of (map_rule trees.Block (block_at in_batch levels)) }
{}

/// No word within a statement that isn't supported where it stands begins what else may stand there.
/// INTO stands where a filter may be missing, so it begins neither a filter nor what follows a RECEIVE:
/// a statement, a block's next turn, a bracket, a semicolon, ELSE, or the COMMIT that ends a procedure.
pub fn barred_words_of_parts()
    ensures validation { BeginsNot xml_of (token empty_of (example fixed.Nothing) false) }
    ensures retention { BeginsNot retention_of (sign fixed.Off) }
    ensures encryption { BeginsNot encryption_bars (sign fixed.Off) }
    ensures address { BeginsNot transport_of (token address_of example_address None) }
    ensures route { (before : RouteOptions) (option : RouteOption) → BeginsNot (route_bars before) (written route_choices option before) }
    ensures filter_or_into { (levels : ℕ) → BeginsNot into_of (word fixed.Where (filter (sum levels))) }
    ensures statement_or_into { (in_batch : Bool) (levels : ℕ) → BeginsNot into_of (any_statement (first_of in_batch levels) (rest_of in_batch levels)) }
    ensures turn_or_into { (in_batch : Bool) (levels : ℕ) → BeginsNot into_of (any_turn (inner_first in_batch levels) (rest_of in_batch levels) (end_tail (sum levels))) }
    ensures ending_or_into { All (λ w. BeginsNot into_of (sign w)) (fixed.Close ∷ fixed.Semicolon ∷ fixed.Else ∷ fixed.Commit ∷ []) }
{}
