//! The reader of a formula. It goes over the tokens once, and writes operands before their operators.
ghost use Rattle.std.specs.Prelude.{◌≡◌, ◌<◌, ◌-◌, ◌^◌, [], OnOk, IfOk, IfErr, MatchBool, None, Some};
ghost use Rattle.jm_text.specs.Spans.{LiesWithin, LieWithin};
ghost use Rattle.jm_reading.specs.Answers.{Gives, IsSyntax};
ghost use Rattle.jm_ere.specs.Rules.{lexeme_of, fresh, flag, end_sequence, end_both, end_either, with_nodes, juxtaposed, closed, before_operand, behind_operand, after_lexeme, parsed};

use crate::formula::{Atom, Binary, Node, Unary};
use crate::stack::Stack;
use jm_model::{SpecError, SpecFault};
use jm_reading::Items;
use jm_text::{Token, is_mark, is_name, is_word};
use std::alloc::Global;

/// What a token means.
#[derive(Clone, Copy)]
pub enum Lexeme {
    Operand(Atom),
    Opening,
    Closing,
    Tilde,
    Asterisk,
    PlusSign,
    Bar,
    Ampersand,
    Other,
}

/// What the token means.
#[tactic(auto, unfolding(crate::specs::Rules::lexeme_of))]
fn lexeme_of(bytes: &[u8], token: Token) -> Lexeme
    requires { LiesWithin bytes.now token }
    ensures { result ≡ lexeme_of bytes.now token }
{
    if is_word(bytes, token, b"epsilon") {
        Lexeme::Operand(Atom::Epsilon)
    } else if is_word(bytes, token, b"empty") {
        Lexeme::Operand(Atom::Empty)
    } else if is_name(bytes, token) {
        Lexeme::Operand(Atom::Name(token))
    } else if is_mark(bytes, token, b"(") {
        Lexeme::Opening
    } else if is_mark(bytes, token, b")") {
        Lexeme::Closing
    } else if is_mark(bytes, token, b"~") {
        Lexeme::Tilde
    } else if is_mark(bytes, token, b"*") {
        Lexeme::Asterisk
    } else if is_mark(bytes, token, b"+") {
        Lexeme::PlusSign
    } else if is_mark(bytes, token, b"|") {
        Lexeme::Bar
    } else if is_mark(bytes, token, b"&") {
        Lexeme::Ampersand
    } else {
        Lexeme::Other
    }
}

/// What was read since the innermost parenthesis that is open: the operators that wait for their last operand.
#[derive(Clone, Copy)]
pub struct Pending {
    /// A `|`, a `&`, a juxtaposition.
    pub has_either: bool,
    pub has_both: bool,
    pub has_then: bool,
    /// A number of `~`.
    pub nots: usize,
    /// Whether the last operand is there.
    pub ready: bool,
}

impl Pending {
    /// Nothing was read.
    fn new() -> Pending
        ensures { result ≡ fresh }
    {
        Pending {
            has_either: false,
            has_both: false,
            has_then: false,
            nots: 0,
            ready: false,
        }
    }
}

/// What was read so far of a formula.
#[derive(Drop)]
pub struct Parser {
    pub nodes: Items<Node>,
    pub pending: Pending,
    /// What was read before each parenthesis that is open, the innermost first.
    pub outer: Stack<Pending>,
}

impl Parser {
    fn push_if(&mut self, has: bool, operator: Binary) -> Result<(), SpecError>
        ensures ok { OnOk result (self.new ≡ with_nodes self.old (flag has operator)) }
        ensures err { IfErr result (λ e. e ≡ SpecError.NoMemory) }
    {
        if has {
            self.nodes.push(Node::Join(operator))?;
        }
        Ok(())
    }

    fn end_sequence(&mut self) -> Result<(), SpecError>
        ensures ok { OnOk result (self.new ≡ with_nodes self.old (end_sequence self.old.pending)) }
        ensures err { IfErr result (λ e. e ≡ SpecError.NoMemory) }
    {
        for _ in 0..self.pending.nots {
            self.nodes.push(Node::Wrap(Unary::Not))?;
        }
        self.push_if(self.pending.has_then, Binary::Then)
    }

    fn end_both(&mut self) -> Result<(), SpecError>
        ensures ok { OnOk result (self.new ≡ with_nodes self.old (end_both self.old.pending)) }
        ensures err { IfErr result (λ e. e ≡ SpecError.NoMemory) }
    {
        self.end_sequence()?;
        self.push_if(self.pending.has_both, Binary::Both)
    }

    fn end_either(&mut self) -> Result<(), SpecError>
        ensures ok { OnOk result (self.new ≡ with_nodes self.old (end_either self.old.pending)) }
        ensures err { IfErr result (λ e. e ≡ SpecError.NoMemory) }
    {
        self.end_both()?;
        self.push_if(self.pending.has_either, Binary::Either)
    }

    /// Another operand begins after the last.
    fn juxtapose(&mut self) -> Result<(), SpecError>
        ensures ok { OnOk result (self.new ≡ juxtaposed self.old) }
        ensures err { IfErr result (λ e. e ≡ SpecError.NoMemory) }
    {
        self.end_sequence()?;
        self.pending.has_then = true;
        self.pending.nots = 0;
        self.pending.ready = false;
        Ok(())
    }

    /// A `)` stands after the last operand. It answers whether a parenthesis was open.
    fn close(&mut self) -> Result<bool, SpecError>
        ensures ok { IfOk result (λ goes. MatchBool goes (closed self.old.outer self.old ≡ Some self.new)
            (closed self.old.outer self.old ≡ None)) }
        ensures err { IfErr result (λ e. e ≡ SpecError.NoMemory) }
    {
        self.end_either()?;
        let Some(pending) = self.outer.pop() else {
            return Ok(false);
        };
        self.pending = pending;
        self.pending.ready = true;
        Ok(true)
    }

    /// A token where an operand is to come. It answers whether the token can stand here.
    fn before_operand(&mut self, sign: Lexeme) -> Result<bool, SpecError>
        requires { self.old.pending.nots < 2 ^ 64 - 1 }
        ensures ok { IfOk result (λ goes. MatchBool goes (before_operand self.old sign ≡ Some self.new)
            (before_operand self.old sign ≡ None)) }
        ensures err { IfErr result (λ e. e ≡ SpecError.NoMemory) }
    {
        match sign {
            Lexeme::Operand(atom) => {
                self.nodes.push(Node::Push(atom))?;
                self.pending.ready = true;
                Ok(true)
            }
            Lexeme::Opening => {
                self.outer.push(self.pending)?;
                self.pending = Pending::new();
                Ok(true)
            }
            Lexeme::Tilde => {
                self.pending.nots += 1;
                Ok(true)
            }
            _ => Ok(false),
        }
    }

    /// A token after an operand. It answers whether the token can stand here.
    fn behind_operand(&mut self, sign: Lexeme) -> Result<bool, SpecError>
        ensures ok { IfOk result (λ goes. MatchBool goes (behind_operand self.old sign ≡ Some self.new)
            (behind_operand self.old sign ≡ None)) }
        ensures err { IfErr result (λ e. e ≡ SpecError.NoMemory) }
    {
        match sign {
            Lexeme::Asterisk => {
                self.nodes.push(Node::Wrap(Unary::Any))?;
                Ok(true)
            }
            Lexeme::PlusSign => {
                self.nodes.push(Node::Wrap(Unary::Many))?;
                Ok(true)
            }
            Lexeme::Ampersand => {
                self.end_both()?;
                self.pending.has_both = true;
                self.pending.has_then = false;
                self.pending.nots = 0;
                self.pending.ready = false;
                Ok(true)
            }
            Lexeme::Bar => {
                self.end_either()?;
                self.pending = Pending::new();
                self.pending.has_either = true;
                Ok(true)
            }
            Lexeme::Closing => self.close(),
            Lexeme::Other => Ok(false),
            Lexeme::Operand(_) | Lexeme::Opening | Lexeme::Tilde => {
                self.juxtapose()?;
                self.before_operand(sign)
            }
        }
    }

    /// A token. It answers whether the token can stand here.
    fn follow(&mut self, sign: Lexeme) -> Result<bool, SpecError>
        requires { self.old.pending.nots < 2 ^ 64 - 1 }
        ensures ok { IfOk result (λ goes. MatchBool goes (after_lexeme self.old sign ≡ Some self.new)
            (after_lexeme self.old sign ≡ None)) }
        ensures err { IfErr result (λ e. e ≡ SpecError.NoMemory) }
    {
        if self.pending.ready {
            self.behind_operand(sign)
        } else {
            self.before_operand(sign)
        }
    }
}

fn syntax(line: u32) -> SpecError
    ensures { IsSyntax result }
{
    SpecFault::Syntax { line }.into()
}

/// The nodes of the formula that the tokens spell, operands first. The token before them is on the line.
#[tactic(auto, unfolding(crate::specs::Rules::parsed))]
pub(crate) fn parse(
    alloc: Global,
    bytes: &[u8],
    tokens: &[Token],
    line: u32,
) -> Result<Items<Node>, SpecError>
    requires { LieWithin bytes.now tokens.now }
    ensures { Gives result (parsed bytes.now tokens.now) }
{
    let last_line = match tokens {
        [.., token] => token.line,
        [] => line,
    };
    let mut parser = Parser {
        nodes: Items::new(alloc),
        pending: Pending::new(),
        outer: Stack::new(alloc),
    };
    for token in tokens {
        if !parser.follow(lexeme_of(bytes, *token))? {
            return Err(syntax(token.line));
        }
    }
    if !parser.pending.ready {
        return Err(syntax(last_line));
    }
    if let Some(_) = parser.outer.pop() {
        return Err(syntax(last_line));
    }
    parser.end_either()?;
    let Parser { nodes, .. } = parser;
    Ok(nodes)
}
