//! The mark of what was refused.

ghost use Rattle.std.specs.Prelude.{◌≡◌, IfOk};
ghost use Rattle.spec_trace.specs.declared.mark.Mark.TheVariants as marks;

use crate::mark::Mark;
use log_entries::Request;
use repo_refusals::Refusal;
use std::alloc::Global;
use thor_value::{Boxed, NoMemory, both};

/// A request in memory of its own, where there is one.
fn boxed_request(
    alloc: Global,
    request: Option<Request>,
) -> Result<Option<Boxed<Request>>, NoMemory>
    ensures { IfOk result (λ boxed. boxed ≡ request) }
{
    match request {
        Some(request) => Ok(Some(Boxed::new(alloc, request)?)),
        None => Ok(None),
    }
}

/// The mark of a draw, a grant or a request of a session that was refused. After `NoMemory` the request is gone.
pub fn refused_mark(
    alloc: Global,
    session: u32,
    request: Option<Request>,
    refusal: Refusal,
) -> Result<Mark, NoMemory>
    ensures { IfOk result (λ mark. mark ≡ marks.Refused session request refusal) }
{
    let request = boxed_request(alloc, request)?;
    let (request, refusal) = both(request, Boxed::new(alloc, refusal))?;
    Ok(Mark::Refused {
        session,
        request,
        refusal,
    })
}
