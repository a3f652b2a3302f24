//! Copies of programs, where there is memory for them.

use crate::programs::{Body, PartDef, ProgramDef};
use salt_values::TryCopy;
use std::alloc::{AllocError, Global};

impl TryCopy for PartDef {
    fn copy(&self, alloc: Global) -> Result<PartDef, AllocError> {
        Ok(PartDef {
            block: self.block.copy(alloc)?,
            then: self.then,
            retry: self.retry,
            on_failure: self.on_failure,
        })
    }
}

impl TryCopy for Body {
    fn copy(&self, alloc: Global) -> Result<Body, AllocError> {
        match self {
            Body::Acid(block) => Ok(Body::Acid(block.copy(alloc)?)),
            Body::Base(parts) => Ok(Body::Base(parts.copy(alloc)?)),
        }
    }
}

impl TryCopy for ProgramDef {
    fn copy(&self, alloc: Global) -> Result<ProgramDef, AllocError> {
        Ok(ProgramDef {
            name: self.name.copy(alloc)?,
            params: self.params.copy(alloc)?,
            vars: self.vars.copy(alloc)?,
            body: self.body.copy(alloc)?,
        })
    }
}
