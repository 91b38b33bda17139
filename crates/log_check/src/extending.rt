//! The seventh rule: what stands has all its extensions in the list.

ghost use Rattle.std.specs.Prelude.{◌≡◌, ◌<◌, ◌*◌, ◌↔◌, ◌++◌, ◌∷◌, [], length, IsTrue, IfOk};
ghost use Rattle.label.specs.Labels.{IsLabelOf};
ghost use Rattle.log_check.specs.Extending.{HasExtensions, IsSideTested};
ghost use Rattle.log_check.specs.Faults.{Rule, IsTested, HasExtension};
ghost use Rattle.strip_model.specs.Directed.{strip_of};
ghost use Rattle.strip_model.specs.Side.{face_of};

use crate::listed::Listed;
use crate::seated::Seated;
use label::{Label, can_extend, start};
use std::alloc::{AllocError, Global};
use strip_model::{Directed, End};

/// The first seat of either side that stands and lacks an extension, or none. It fails for want of memory alone.
pub(crate) fn first_unextended(
    alloc: Global,
    seated: &Seated<'_>,
) -> Result<Option<u64>, AllocError>
    ensures { IfOk result (IsTested seated.now.instance seated.now.log Rule.AllAreExtended) }
{
    match first_open(alloc, seated, End::Forward)? {
        Some(seat) => Ok(Some(seat)),
        None => match first_open(alloc, seated, End::Backward)? {
            Some(seat) => {
                let before = seated.listed().reading().paths(End::Forward).len() as u64 + 1;
                Ok(Some(before + seat))
            }
            None => Ok(None),
        },
    }
}

// The first seat of a side that stands and lacks an extension: 0 is the root, and k + 1 is label k.
fn first_open(alloc: Global, seated: &Seated<'_>, end: End) -> Result<Option<u64>, AllocError>
    ensures { IfOk result (IsSideTested seated.now.instance seated.now.log end) }
{
    let listed = seated.listed();
    if !has_first_labels(alloc, listed, end)? {
        return Ok(Some(0));
    }
    let standing = seated.at(end);
    for i in 0..standing.labels.len() {
        if !has_extensions(alloc, listed, end, standing.label(i))? {
            return Ok(Some(u64::from(standing.place(i)) + 1));
        }
    }
    Ok(None)
}

// Whether each label path of one directed strip is listed.
fn has_first_labels(alloc: Global, listed: &Listed<'_>, end: End) -> Result<bool, AllocError>
    ensures { IfOk result (λ all. IsTrue all ↔ HasExtensions listed.now.instance listed.now.log end []) }
{
    for n in 0..directed_count(listed, end) {
        if !has_first(alloc, listed, end, Directed(n))? {
            return Ok(false);
        }
    }
    Ok(true)
}

// Whether each label path that extends the label's by one directed strip is listed.
fn has_extensions(
    alloc: Global,
    listed: &Listed<'_>,
    end: End,
    label: &Label,
) -> Result<bool, AllocError>
    requires { IsLabelOf (face_of listed.now.instance listed.now.log.cut end) label.now }
    ensures { IfOk result (λ all. IsTrue all ↔ HasExtensions listed.now.instance listed.now.log end label.now.path.items) }
{
    for n in 0..directed_count(listed, end) {
        if !has_extension(alloc, listed, end, label, Directed(n))? {
            return Ok(false);
        }
    }
    Ok(true)
}

// How many directed strips there are.
fn directed_count(listed: &Listed<'_>, end: End) -> u16
    ensures { result ≡ 2 * length (face_of listed.now.instance listed.now.log.cut end).instance.strips }
{
    let strips = listed.reading().side(end).instance().strips();
    2 * strips.len() as u16
}

// Whether the label path of `x` alone is listed, if it is one.
fn has_first(alloc: Global, listed: &Listed<'_>, end: End, x: Directed) -> Result<bool, AllocError>
    requires { strip_of x < length (face_of listed.now.instance listed.now.log.cut end).instance.strips }
    ensures { IfOk result (λ has. IsTrue has ↔ HasExtension listed.now.instance listed.now.log end [] x) }
{
    match start(alloc, listed.reading().side(end), x)? {
        None => Ok(true),
        Some(label) => Ok(listed.has(end, label.path())),
    }
}

// Whether the label path with `x` after the label's is listed, if it is one.
fn has_extension(
    alloc: Global,
    listed: &Listed<'_>,
    end: End,
    label: &Label,
    x: Directed,
) -> Result<bool, AllocError>
    requires label { IsLabelOf (face_of listed.now.instance listed.now.log.cut end) label.now }
    requires exists { strip_of x < length (face_of listed.now.instance listed.now.log.cut end).instance.strips }
    ensures { IfOk result (λ has. IsTrue has ↔ HasExtension listed.now.instance listed.now.log end label.now.path.items x) }
{
    if !can_extend(listed.reading().side(end), label, x) {
        return Ok(true);
    }
    let longer = with_last(alloc, label.path(), x)?;
    Ok(listed.has(end, &longer))
}

// The path with `x` after its last.
fn with_last(alloc: Global, path: &[Directed], x: Directed) -> Result<Vec<Directed>, AllocError>
    ensures { IfOk result (λ longer. longer.items ≡ path.now ++ x ∷ []) }
{
    let mut longer = Vec::with_capacity(alloc, path.len() + 1)?;
    longer.extend_from_slice(path)?;
    longer.push(x)?;
    Ok(longer)
}
