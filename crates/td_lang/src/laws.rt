//! What holds of the languages, whatever is read.

ghost use Rattle.std.specs.Prelude.{◌≡◌, ℕ, List, Result, Ok, Err};
ghost use Rattle.td_lang.specs.declared.expr.Constraint.{Constraint};
ghost use Rattle.td_lang.specs.declared.expr.Expr.{Expr};
ghost use Rattle.td_lang.specs.declared.fault.LangFault.{LangFault};
ghost use Rattle.td_lang.specs.declared.token.Token.{Token};
ghost use Rattle.td_lang.specs.Constraints.{Says, constraint_of};
ghost use Rattle.td_lang.specs.Derivation.{Derives, HasPhrase, Or};
ghost use Rattle.td_lang.specs.Grammar.{Phrase, IsOfLevel, Sentence, tokens, tree};
ghost use Rattle.td_lang.specs.Spelling.{SpellsTokens};
ghost use Rattle.td_lang.specs.Tape.{Tape, tape};

/// Each text is a constraint or has a first fault, by the grammar, and `read_constraint` finds it.
#[tactic(auto, using(crate::proofs::Uniqueness::says_so))]
pub fn reads_the_grammar()
    ensures { (text : List ℕ) → Says text (constraint_of text) }
{}

/// No text has two trees, a tree and a fault, or two first faults.
#[tactic(auto, using(crate::proofs::Uniqueness::one_said))]
pub fn one_answer()
    ensures { (text : List ℕ) (r q : Result Constraint LangFault) → Says text r → Says text q
        → r ≡ q }
{}

/// No list of tokens has two trees.
pub fn one_tree()
    ensures { (ts : List Token) (e f : Expr) → Sentence ts e → Sentence ts f → e ≡ f }
{}

/// The phrases that fit are the derivations by the grammar's productions.
pub fn phrases_are_derivations()
    ensures derived { (c : Phrase) → IsOfLevel 1 c → Derives Or (tokens c) (tree c) }
    ensures made { (ts : List Token) (e : Expr) → Derives Or ts e → HasPhrase 1 ts e }
{}

/// Each text has one list of tokens: their spellings, with blanks between them, are the text.
#[tactic(auto, using(crate::proofs::TapeUniqueness::written, crate::proofs::TapeUniqueness::only))]
pub fn one_list_of_tokens()
    ensures written { (text : List ℕ) → SpellsTokens 0 text (tape 0 0 text) }
    ensures only { (text : List ℕ) (ts : Tape) → SpellsTokens 0 text ts → ts ≡ tape 0 0 text }
{}
