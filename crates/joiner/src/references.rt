ghost use Rattle.std.specs.Prelude.{◌≡◌, map, IfOk};

use label::Label;
use std::alloc::{AllocError, Global};

/// References to labels, in their order. It fails for want of memory alone.
pub(crate) fn references_to<'a>(
    alloc: Global,
    labels: &'a [Label],
) -> Result<Vec<&'a Label>, AllocError>
    ensures { IfOk result (λ references. map (λ l. l.now) references.items ≡ labels.now) }
{
    let mut references = Vec::with_capacity(alloc, labels.len())?;
    for label in labels {
        references.push(label)?;
    }
    Ok(references)
}
