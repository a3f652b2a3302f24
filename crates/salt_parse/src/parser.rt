//! What reads a row, and what it builds of the smallest parts.

ghost use Rattle.std.specs.Prelude.{◌≡◌, IfOk, None, Some, false, if◌then◌else◌};
ghost use Rattle.salt_ast.specs.Trees.{operation};
ghost use Rattle.std.specs.Bool.{then_some};
ghost use Rattle.salt_parse.specs.Attempts.{limit_in};
ghost use Rattle.salt_parse.specs.Flags.{around_flags, around_tree, built_of, clear, join_flags, no_flags, node_of, note, note_height};
ghost use Rattle.salt_parse.specs.Flags.{int_tree, join_tree, kept_name, signed, stand_in, text_tree};
ghost use Rattle.salt_parse.specs.Parsing.{ReadsBuilt};
ghost use Rattle.salt_parse.specs.Reading.{column_at, int_at, name_flags, named_at, text_at};
ghost use Rattle.salt_ast.specs.Symbols.{symbols_in, undoubled};

use crate::built::{Built, Unary};
use crate::error::ParseErr;
use crate::quoted::{content, content_len};
use crate::sealed::Sealed;
use salt_ast::{Expr, Lexeme, LimitName, Op};
use salt_values::limits::{DEPTH_MOST, NAME_MOST, TEXT_MOST};
use salt_values::{Name, Text, TextErr, Value};
use sqlite_items::{Boxed, Items};
use std::alloc::{AllocError, Global};
use std::marker::Model;

/// What is built where a limit is passed, so that nothing grows from there on.
fn stand_in() -> Sealed<Expr>
    ensures { result ≡ stand_in }
{
    Sealed::new(Expr::Lit(Value::Int(0)))
}

/// A number, where it has 64 bits, behind a minus sign or not.
pub fn signed(minus: bool, number: u64) -> Option<i64>
    ensures { result ≡ signed minus number }
{
    let number = i128::from(number);
    i64::try_from(if minus { -number } else { number }).ok()
}

fn int_tree(number: Option<i64>) -> Sealed<Expr>
    ensures { result ≡ int_tree number }
{
    match number {
        Some(number) => Sealed::new(Expr::Lit(Value::Int(number))),
        None => stand_in(),
    }
}

fn text_tree(alloc: Global, bytes: &[u8]) -> Result<Sealed<Expr>, AllocError>
    ensures { IfOk result (λ e. e ≡ text_tree bytes.now) }
{
    match Text::new(alloc, bytes) {
        Ok(text) => Ok(Sealed::new(Expr::Lit(Value::Text(text)))),
        Err(TextErr::NotText) => Ok(stand_in()),
        Err(TextErr::Memory) => Err(AllocError),
    }
}

/// An operation, while nothing is passed.
fn binary(
    alloc: Global,
    is_clear: bool,
    op: Op,
    left: Sealed<Expr>,
    right: Sealed<Expr>,
) -> Result<Sealed<Expr>, AllocError>
    ensures { IfOk result (λ e. e ≡ (if is_clear then operation op left right else stand_in)) }
{
    if !is_clear {
        return Ok(stand_in());
    }
    let left = Boxed::new(alloc, left.into_inner())?;
    let right = Boxed::new(alloc, right.into_inner())?;
    Ok(Sealed::new(Expr::Binary { op, left, right }))
}

/// The operation around its operand.
fn node(op: Unary, operand: Boxed<Expr>) -> Expr
    ensures { result ≡ node_of op operand }
{
    match op {
        Unary::Not => Expr::Not(operand),
        Unary::IsNull => Expr::IsNull {
            of: operand,
            negated: false,
        },
        Unary::IsNotNull => Expr::IsNull {
            of: operand,
            negated: true,
        },
    }
}

/// An operation on one operand, while nothing is passed.
fn unary(
    alloc: Global,
    is_clear: bool,
    op: Unary,
    operand: Sealed<Expr>,
) -> Result<Sealed<Expr>, AllocError>
    ensures { IfOk result (λ e. e ≡ (if is_clear then node_of op operand else stand_in)) }
{
    if !is_clear {
        return Ok(stand_in());
    }
    let operand = Boxed::new(alloc, operand.into_inner())?;
    Ok(Sealed::new(node(op, operand)))
}

/// What reads tokens one after the other: those that are left, and what the others passed.
#[derive(Drop)]
pub struct Parser<'a> {
    alloc: Global,
    pub rest: &'a [Lexeme<'a>],
    over: Option<LimitName>,
    deep: bool,
}

impl<'a> Model for Parser<'a> {
    ghost use Rattle.salt_parse.specs.Flags.{flags};
    ghost use Rattle.salt_parse.specs.Parsing.{Parsing};
    ghost use Rattle.salt_ast.specs.Symbols.{symbols_in};

    ghost Value = { Parsing };

    ghost view = { λ p. record { flags = flags p.over p.deep; left = symbols_in p.rest.now } };
}

impl<'a> Parser<'a> {
    /// A reader of these tokens, which have passed nothing yet.
    pub fn new(alloc: Global, rest: &'a [Lexeme<'a>]) -> Self
        ensures flags { result.flags ≡ no_flags }
        ensures left { result.left ≡ symbols_in rest.now }
    {
        Parser {
            alloc,
            rest,
            over: None,
            deep: false,
        }
    }

    /// What the trees are built with.
    pub fn alloc(&self) -> Global {
        self.alloc
    }

    /// The first limit that was passed, the depth last.
    pub fn limit(&self) -> Option<LimitName>
        ensures { result ≡ limit_in self.now.flags }
    {
        if self.over.is_none() && self.deep {
            return Some(LimitName::Depth);
        }
        self.over
    }

    /// Whether nothing was passed yet.
    pub fn is_clear(&self) -> bool
        ensures { result ≡ clear self.now.flags }
    {
        self.over.is_none() && !self.deep
    }

    /// Notes that a limit is passed, if this is so and none was before.
    pub fn note(&mut self, passed: bool, name: LimitName)
        ensures flags { self.new.flags ≡ note self.old.flags (then_some passed name) false }
        ensures left { self.new.left ≡ self.old.left }
    {
        if passed && self.over.is_none() {
            self.over = Some(name);
        }
    }

    /// Notes that an expression is too high, if it is.
    fn note_height(&mut self, height: u32)
        ensures flags { self.new.flags ≡ note_height self.old.flags height }
        ensures left { self.new.left ≡ self.old.left }
    {
        self.deep = self.deep || DEPTH_MOST < height;
    }

    /// A name, while no limit is passed.
    pub fn name_of(&mut self, bytes: &[u8]) -> Result<Name, AllocError>
        ensures name { IfOk result (λ n. n ≡ kept_name self.new.flags bytes.now) }
        ensures flags { self.new.flags ≡ name_flags bytes.now self.old.flags }
        ensures left { self.new.left ≡ self.old.left }
    {
        self.note(NAME_MOST < bytes.len(), LimitName::Name);
        if self.is_clear() {
            Items::from_slice(self.alloc, bytes)
        } else {
            Ok(Items::new(self.alloc))
        }
    }

    /// A column's name.
    pub fn column(&mut self, name: &[u8]) -> Result<Built, ParseErr>
        ensures reads { ReadsBuilt result (column_at name.now) self.old self.new }
        ensures left { self.new.left ≡ self.old.left }
    {
        let name = self.name_of(name)?;
        Ok(Built {
            tree: Sealed::new(Expr::Column(name)),
            height: 1,
        })
    }

    /// The name of a parameter or a variable.
    pub fn variable(&mut self, name: &[u8]) -> Result<Built, ParseErr>
        ensures reads { ReadsBuilt result (named_at name.now) self.old self.new }
        ensures left { self.new.left ≡ self.old.left }
    {
        let name = self.name_of(name)?;
        Ok(Built {
            tree: Sealed::new(Expr::Variable(name)),
            height: 1,
        })
    }

    /// A number, where it has 64 bits.
    pub fn number(&mut self, number: Option<i64>) -> Built
        ensures leaf { int_at number self.old.flags self.old.left ≡ Some (built_of result, self.new.flags, self.new.left) }
        ensures left { self.new.left ≡ self.old.left }
    {
        self.note(number.is_none(), LimitName::Number);
        Built {
            tree: int_tree(number),
            height: 1,
        }
    }

    /// The text between these quotes.
    #[tactic(auto, unfolding(crate::specs::Reading::text_at))]
    pub fn text(&mut self, quoted: &[u8]) -> Result<Built, ParseErr>
        ensures reads { ReadsBuilt result (text_at (undoubled quoted.now)) self.old self.new }
        ensures left { self.new.left ≡ self.old.left }
    {
        self.note(TEXT_MOST < content_len(quoted), LimitName::Text);
        let tree = if self.is_clear() {
            let bytes = content(self.alloc, quoted)?;
            text_tree(self.alloc, bytes.as_slice())?
        } else {
            stand_in()
        };
        Ok(Built { tree, height: 1 })
    }

    /// An operation on what was built.
    pub fn join(&mut self, op: Op, left: Built, right: Built) -> Result<Built, AllocError>
        ensures built { IfOk result (λ b. built_of b ≡ join_tree op (built_of left) (built_of right) self.old.flags) }
        ensures flags { self.new.flags ≡ join_flags (built_of left) (built_of right) self.old.flags }
        ensures left { self.new.left ≡ self.old.left }
    {
        let Built {
            tree: left,
            height: left_height,
        } = left;
        let Built {
            tree: right,
            height: right_height,
        } = right;
        let height = left_height.max(right_height) + 1;
        self.note_height(height);
        let tree = binary(self.alloc, self.is_clear(), op, left, right)?;
        Ok(Built {
            tree,
            height: height.min(DEPTH_MOST + 1),
        })
    }

    /// An operation around what was built.
    pub fn surround(&mut self, op: Unary, inside: Built) -> Result<Built, AllocError>
        ensures built { IfOk result (λ b. built_of b ≡ around_tree (node_of op) (built_of inside) self.old.flags) }
        ensures flags { self.new.flags ≡ around_flags (built_of inside) self.old.flags }
        ensures left { self.new.left ≡ self.old.left }
    {
        let Built { tree, height } = inside;
        let height = height + 1;
        self.note_height(height);
        let tree = unary(self.alloc, self.is_clear(), op, tree)?;
        Ok(Built {
            tree,
            height: height.min(DEPTH_MOST + 1),
        })
    }
}
