// The shard that a name falls in.
ghost use Rattle.std.specs.Prelude.{◌≡◌, ◌<◌, ◌*◌, ◌+◌, ◌%◌, ◌^◌};
ghost use Rattle.sum_model.specs.Shards as model;
ghost use Rattle.sum_model.specs.Shards.{folded};
ghost use Rattle.op_types.specs.View.{name_view};

use op_types::Name;

/// The number of the shard that a name falls in, of so many.
pub(crate) fn shard_of(name: &Name, shards: u32) -> u32
    requires { 0 < shards }
    ensures { result ≡ model.shard_of shards (name_view name.now) }
{
    number_of(name) % shards
}

fn number_of(name: &Name) -> u32
    ensures { result ≡ folded 0 (model.numbers_of (name_view name.now)) }
{
    match name {
        Name::Iri(text) | Name::Source(text) => fold_bytes(text.as_str().as_bytes()),
        Name::Fresh { chunk, number } => fold(fold(0, *chunk), (*number % 4_294_967_296) as u32),
    }
}

fn fold_bytes(bytes: &[u8]) -> u32
    ensures { result ≡ folded 0 bytes.now }
{
    let mut sum = 0;
    for byte in bytes {
        sum = fold(sum, *byte as u32);
    }
    sum
}

fn fold(sum: u32, next: u32) -> u32
    ensures { result ≡ (31 * sum + next) % 2 ^ 32 }
{
    let both = 31 * sum as u64 + next as u64;
    (both % 4_294_967_296) as u32
}
