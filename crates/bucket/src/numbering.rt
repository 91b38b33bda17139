//! In which bucket of its side a label stands.

ghost use Rattle.std.specs.Prelude.{◌≡◌, ◌<◌, ◌%◌};

use crate::BUCKETS;
use strip_model::Directed;

/// The number of the bucket in which the labels stand whose last directed strip is `x`, below [`BUCKETS`].
pub fn bucket_of(x: Directed) -> u8
    ensures value { result ≡ x % BUCKETS }
    ensures small { result < BUCKETS }
{
    (x.0 % BUCKETS) as u8
}
