use crate::copying::Copies;
use std::alloc::AllocError;

impl Copies for u8 {
    fn copy(&self) -> Result<Self, AllocError> {
        Ok(*self)
    }
}

impl Copies for u32 {
    fn copy(&self) -> Result<Self, AllocError> {
        Ok(*self)
    }
}
