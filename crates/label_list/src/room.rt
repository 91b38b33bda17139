//! Writing where there is room.

ghost use Rattle.std.specs.Prelude.{◌≡◌, ◌+◌, ◌<◌, ◌≤◌, [], ◌∷◌, ◌++◌, length, vec_len};
ghost use Rattle.std.specs.Vec.{vec_capacity};

use strip_model::Directed;

/// One more element, for which there is room, so that no memory is taken.
pub(crate) fn put<T: Drop>(items: &mut Vec<T>, item: T)
    requires { vec_len items.old < vec_capacity items.old }
    ensures { items.new.items ≡ items.old.items ++ item ∷ [] }
{
    match items.push(item) {
        Ok(()) => {}
        Err(_) => {}
    }
}

/// More directed strips, for which there is room, so that no memory is taken.
pub(crate) fn put_all(steps: &mut Vec<Directed>, more: &[Directed])
    requires { vec_len steps.old + length more.now ≤ vec_capacity steps.old }
    ensures { steps.new.items ≡ steps.old.items ++ more.now }
{
    match steps.extend_from_slice(more) {
        Ok(()) => {}
        Err(_) => {}
    }
}
