//! What stands before the body: the clauses `package` and `import`, the modifiers, and lists of parameters.
ghost use Rattle.std.specs.Prelude.{◌≡◌};
ghost use Rattle.jm_text.specs.Spans.{LieWithin};
ghost use Rattle.jm_reading.specs.Reading.{is_word_at, line_of};
ghost use Rattle.jm_reading.specs.Taking.{Takes};
ghost use Rattle.jm_spec.specs.Reading.{unkept};
ghost use Rattle.jm_spec.specs.Rules.{begins_clause, clause_at, begins_more_word, more_word_at, modifier_of, begins_modifier, modifier_at, param_at, begins_more_param, more_param_at, params_at, list_at};

use crate::reader::any_word;
use crate::runs;
use jm_model::SpecError;
use jm_reading::{Cursor, Items, Repeat, fold_many};
use jm_text::{Token, is_word};

/// A modifier of a specification.
#[derive(Clone, Copy)]
pub enum Modifier {
    /// `full-binding`.
    FullBinding,
    /// `suffix`, on the line.
    Suffix(u32),
    /// `unsynchronized` or `decentralized`, which have no effect.
    NoEffect,
    /// Another one, which begins on the line.
    Unsupported(u32),
}

/// ( "package" | "import" ) Run ";"
pub struct Clause;

impl Repeat for Clause {
    type Accumulator = ();

    ghost continues = { begins_clause };

    ghost more = { λ rule. unkept clause_at };

    fn is_next(cursor: &Cursor<'_>) -> bool {
        cursor.is_word_at(0, b"package") || cursor.is_word_at(0, b"import")
    }

    #[tactic(auto, unfolding(crate::specs::Rules::clause_at))]
    fn add(&self, whole: (), cursor: &mut Cursor<'_>) -> Result<(), SpecError> {
        let n = runs::clause_length(cursor)?;
        cursor.advance(n);
        Ok(whole)
    }
}

/// "-" Word
struct MoreWord;

impl Repeat for MoreWord {
    type Accumulator = ();

    ghost continues = { begins_more_word };

    ghost more = { λ rule. unkept more_word_at };

    fn is_next(cursor: &Cursor<'_>) -> bool {
        cursor.is_mark_at(0, b"-")
    }

    #[tactic(auto, unfolding(crate::specs::Rules::more_word_at))]
    fn add(&self, whole: (), cursor: &mut Cursor<'_>) -> Result<(), SpecError> {
        cursor.mark(b"-")?;
        any_word(cursor)?;
        Ok(whole)
    }
}

/// Word { "-" Word }, up to a name and its list
pub struct OneModifier;

impl Repeat for OneModifier {
    type Accumulator = Items<Modifier>;

    ghost continues = { begins_modifier };

    ghost more = { λ rule. modifier_at };

    fn is_next(cursor: &Cursor<'_>) -> bool {
        !cursor.is_mark_at(1, b"(")
    }

    #[tactic(auto, unfolding(crate::specs::Rules::modifier_at))]
    fn add(
        &self,
        whole: Items<Modifier>,
        cursor: &mut Cursor<'_>,
    ) -> Result<Items<Modifier>, SpecError> {
        let mut modifiers = whole;
        let tokens = cursor.rest;
        any_word(cursor)?;
        fold_many(&MoreWord, (), cursor)?;
        let n = tokens.len().saturating_sub(cursor.rest.len());
        modifiers.push(modifier_of(cursor.bytes, &tokens[..n]))?;
        Ok(modifiers)
    }
}

/// Which modifier the tokens spell.
fn modifier_of(bytes: &[u8], tokens: &[Token]) -> Modifier
    requires { LieWithin bytes.now tokens.now }
    ensures { result ≡ modifier_of bytes.now tokens.now }
{
    if tokens.len() == 1
        && (is_word_at(bytes, tokens, 0, b"unsynchronized")
            || is_word_at(bytes, tokens, 0, b"decentralized"))
    {
        Modifier::NoEffect
    } else if tokens.len() == 3
        && is_word_at(bytes, tokens, 0, b"full")
        && is_word_at(bytes, tokens, 2, b"binding")
    {
        Modifier::FullBinding
    } else if tokens.len() == 1 && is_word_at(bytes, tokens, 0, b"suffix") {
        Modifier::Suffix(line_of(tokens))
    } else {
        Modifier::Unsupported(line_of(tokens))
    }
}

/// The line of the first token.
fn line_of(tokens: &[Token]) -> u32
    ensures { result ≡ line_of 0 tokens.now }
{
    match tokens {
        [first, ..] => first.line,
        [] => 0,
    }
}

/// Whether the token so far on is this word.
fn is_word_at(bytes: &[u8], tokens: &[Token], k: usize, word: &[u8]) -> bool
    requires { LieWithin bytes.now tokens.now }
    ensures { result ≡ is_word_at bytes.now tokens.now k word.now }
{
    match tokens.get(k) {
        Some(token) => is_word(bytes, *token, word),
        None => false,
    }
}

/// A type, which isn't empty, and a name, which is added to these.
#[tactic(auto, unfolding(crate::specs::Rules::param_at))]
fn param(names: Items<Token>, cursor: &mut Cursor<'_>) -> Result<Items<Token>, SpecError>
    ensures { Takes cursor.old result cursor.new (param_at names) }
{
    let mut names = names;
    let n = runs::parameter_length(cursor)?;
    if n < 2 || !cursor.is_name_at(n - 1) {
        cursor.advance(n);
        return Err(cursor.syntax());
    }
    names.push(cursor.rest[n - 1])?;
    cursor.advance(n);
    Ok(names)
}

/// "," Param
struct MoreParam;

impl Repeat for MoreParam {
    type Accumulator = Items<Token>;

    ghost continues = { begins_more_param };

    ghost more = { λ rule. more_param_at };

    fn is_next(cursor: &Cursor<'_>) -> bool {
        cursor.is_mark_at(0, b",")
    }

    #[tactic(auto, unfolding(crate::specs::Rules::more_param_at))]
    fn add(&self, whole: Items<Token>, cursor: &mut Cursor<'_>) -> Result<Items<Token>, SpecError> {
        cursor.mark(b",")?;
        param(whole, cursor)
    }
}

/// [ Param { "," Param } ], before a `)`
#[tactic(auto, unfolding(crate::specs::Rules::params_at))]
fn params(names: Items<Token>, cursor: &mut Cursor<'_>) -> Result<Items<Token>, SpecError>
    ensures { Takes cursor.old result cursor.new (params_at names) }
{
    if cursor.is_mark_at(0, b")") {
        return Ok(names);
    }
    let first = param(names, cursor)?;
    fold_many(&MoreParam, first, cursor)
}

/// Parameters in round brackets, with commas between them. Their names are added to these.
#[tactic(auto, unfolding(crate::specs::Rules::list_at))]
pub fn list(names: Items<Token>, cursor: &mut Cursor<'_>) -> Result<Items<Token>, SpecError>
    ensures { Takes cursor.old result cursor.new (list_at names) }
{
    cursor.mark(b"(")?;
    let names = params(names, cursor)?;
    cursor.mark(b")")?;
    Ok(names)
}
