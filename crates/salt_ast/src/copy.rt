//! Copies of trees, where there is memory for them.

use crate::trees::{Expr, Field, TableDef};
use salt_values::TryCopy;
use sqlite_items::Boxed;
use std::alloc::{AllocError, Global};

impl TryCopy for Field {
    fn copy(&self, alloc: Global) -> Result<Field, AllocError> {
        Ok(Field {
            name: self.name.copy(alloc)?,
            kind: self.kind,
            nullable: self.nullable,
        })
    }
}

impl TryCopy for Expr {
    fn copy(&self, alloc: Global) -> Result<Expr, AllocError> {
        match self {
            Expr::Lit(value) => Ok(Expr::Lit(value.copy(alloc)?)),
            Expr::Column(name) => Ok(Expr::Column(name.copy(alloc)?)),
            Expr::Variable(name) => Ok(Expr::Variable(name.copy(alloc)?)),
            Expr::Not(operand) => {
                let operand = operand.get().copy(alloc)?;
                Ok(Expr::Not(Boxed::new(alloc, operand)?))
            }
            Expr::IsNull { of, negated } => {
                let of = of.get().copy(alloc)?;
                Ok(Expr::IsNull {
                    of: Boxed::new(alloc, of)?,
                    negated: *negated,
                })
            }
            Expr::Binary { op, left, right } => {
                let left = left.get().copy(alloc)?;
                let right = right.get().copy(alloc)?;
                Ok(Expr::Binary {
                    op: *op,
                    left: Boxed::new(alloc, left)?,
                    right: Boxed::new(alloc, right)?,
                })
            }
        }
    }
}

impl TryCopy for TableDef {
    fn copy(&self, alloc: Global) -> Result<TableDef, AllocError> {
        Ok(TableDef {
            name: self.name.copy(alloc)?,
            columns: self.columns.copy(alloc)?,
            checks: self.checks.copy(alloc)?,
        })
    }
}
