// The code of a text.
use ca_flow::Code;
use ca_lower::lower;
use ca_model::{Plan, fits};
use ca_tree::NoMemory;
use ca_worked::typing;
use std::alloc::{AllocError, Global};

/// The code of a text under the plan without a save; none where the text has no typing.
pub(crate) fn code_of(alloc: Global, text: &[u8]) -> Result<Option<Code>, AllocError> {
    let Ok(checked) = typing(alloc, text)? else {
        return Ok(None);
    };
    let plan = Plan::empty(alloc);
    if !fits(&checked, &plan) {
        return Ok(None);
    }
    match lower(alloc, &checked, &plan) {
        Ok(code) => Ok(Some(code)),
        Err(NoMemory) => Err(AllocError),
    }
}
