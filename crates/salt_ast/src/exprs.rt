//! Texts of expressions.

ghost use Rattle.std.specs.Prelude.{◌≡◌};
ghost use Rattle.salt_ast.specs.Operators.{op_text};
ghost use Rattle.salt_ast.specs.Prints.{Prints};
ghost use Rattle.salt_ast.specs.Texts.{expr_text, null_test_text};

use crate::printer::{Canonical, Printer};
use crate::trees::{Expr, Op};
use salt_io::Sink;

impl Op {
    /// The operation's sign or word.
    fn text(self) -> &'static [u8]
        ensures { result.now ≡ op_text self }
    {
        match self {
            Op::Or => b"or",
            Op::And => b"and",
            Op::Equal => b"=",
            Op::Unequal => b"<>",
            Op::Less => b"<",
            Op::AtMost => b"<=",
            Op::Greater => b">",
            Op::AtLeast => b">=",
            Op::Add => b"+",
            Op::Sub => b"-",
            Op::Join => b"||",
            Op::Mul => b"*",
        }
    }
}

/// What stands behind the operand of a test for NULL.
fn null_test(negated: bool) -> &'static [u8]
    ensures { result.now ≡ null_test_text negated }
{
    if negated {
        b" is not null"
    } else {
        b" is null"
    }
}

impl<K: Sink> Printer<'_, K> {
    /// Prints an expression, each operation in parentheses.
    fn expr(&mut self, expr: &Expr)
        ensures { Prints K.held K.faults self.old self.new (expr_text expr.now) }
    {
        match expr {
            Expr::Lit(value) => value.print(self),
            Expr::Column(name) => self.kept(name),
            Expr::Variable(name) => {
                self.bytes(b":");
                self.kept(name);
            }
            Expr::Not(operand) => {
                self.bytes(b"(not ");
                self.expr(operand.get());
                self.bytes(b")");
            }
            Expr::IsNull { of, negated } => {
                self.bytes(b"(");
                self.expr(of.get());
                self.bytes(null_test(*negated));
                self.bytes(b")");
            }
            Expr::Binary { op, left, right } => {
                self.bytes(b"(");
                self.expr(left.get());
                self.bytes(b" ");
                self.bytes(op.text());
                self.bytes(b" ");
                self.expr(right.get());
                self.bytes(b")");
            }
        }
    }
}

impl Canonical for Expr {
    ghost text = { expr_text };

    fn print<K: Sink>(&self, out: &mut Printer<'_, K>) {
        out.expr(self);
    }
}
