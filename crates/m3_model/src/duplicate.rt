ghost use Rattle.std.specs.Prelude.{◌≡◌, IfOk};

use crate::memory::Memory;
use std::alloc::Global;

/// A type whose values can be copied. A copy that allocates may want memory.
pub trait Duplicate: Sized {
    /// An equal value.
    fn copy(&self, alloc: Global) -> Result<Self, Memory>
        ensures { IfOk result (λ copy. copy ≡ self.now) };
}

impl Duplicate for bool {
    fn copy(&self, _alloc: Global) -> Result<bool, Memory> {
        Ok(*self)
    }
}

impl Duplicate for u8 {
    fn copy(&self, _alloc: Global) -> Result<u8, Memory> {
        Ok(*self)
    }
}

impl Duplicate for u32 {
    fn copy(&self, _alloc: Global) -> Result<u32, Memory> {
        Ok(*self)
    }
}

impl Duplicate for u64 {
    fn copy(&self, _alloc: Global) -> Result<u64, Memory> {
        Ok(*self)
    }
}

impl Duplicate for i64 {
    fn copy(&self, _alloc: Global) -> Result<i64, Memory> {
        Ok(*self)
    }
}

impl Duplicate for [u8; 32] {
    fn copy(&self, _alloc: Global) -> Result<[u8; 32], Memory> {
        Ok(*self)
    }
}

impl<A: Duplicate + Drop, B: Duplicate + Drop> Duplicate for (A, B) {
    fn copy(&self, alloc: Global) -> Result<(A, B), Memory> {
        let first = self.0.copy(alloc)?;
        let second = self.1.copy(alloc)?;
        Ok((first, second))
    }
}

impl<A: Duplicate + Drop, B: Duplicate + Drop, C: Duplicate + Drop> Duplicate for (A, B, C) {
    fn copy(&self, alloc: Global) -> Result<(A, B, C), Memory> {
        let first = self.0.copy(alloc)?;
        let second = self.1.copy(alloc)?;
        let third = self.2.copy(alloc)?;
        Ok((first, second, third))
    }
}

impl<A, B, C, D> Duplicate for (A, B, C, D)
where
    A: Duplicate + Drop,
    B: Duplicate + Drop,
    C: Duplicate + Drop,
    D: Duplicate + Drop,
{
    fn copy(&self, alloc: Global) -> Result<(A, B, C, D), Memory> {
        let first = self.0.copy(alloc)?;
        let second = self.1.copy(alloc)?;
        let third = self.2.copy(alloc)?;
        let fourth = self.3.copy(alloc)?;
        Ok((first, second, third, fourth))
    }
}

impl<T: Duplicate + Drop> Duplicate for Option<T> {
    fn copy(&self, alloc: Global) -> Result<Option<T>, Memory> {
        match self {
            None => Ok(None),
            Some(value) => Ok(Some(value.copy(alloc)?)),
        }
    }
}
