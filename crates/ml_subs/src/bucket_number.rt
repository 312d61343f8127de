// Which of a set's files has an address.
ghost use Rattle.std.specs.Prelude.{◌≡◌, ◌<◌};
ghost use Rattle.ml_base.specs.Address.{key};
ghost use Rattle.ml_subs.specs.Buckets.{bucket_of};

use ml_base::Address;
use ml_keyed::bucket_of_lower;

/// The number of the file in which a set keeps an address, 0 to 52: the hash of its key, modulo 53.
/// It takes no memory.
pub fn bucket(a: &Address) -> u8
    ensures value { result ≡ bucket_of (key a.now) }
    ensures below { result < 53 }
{
    bucket_of_lower(a.bytes())
}
