// Shards of nodes.
ghost use Rattle.std.specs.Prelude.{◌≡◌, ◌≤◌, ◌+◌, ◌*◌, ◌%◌, ◌^◌};
ghost use Rattle.sum_model.specs.Shards as model;
ghost use Rattle.sum_model.specs.Shards.{folded};
ghost use Rattle.op_types.specs.View.{name_view};

use op_types::Name;

/// The shard of a node, of this many: it depends on the node's name alone. The bytes of an IRI or a label are folded by `31 * x + byte` in 32
/// bits, and of a node without an id its chunk and its number.
pub fn shard_of(node: &Name, shards: u32) -> u32
    requires some { 1 ≤ shards }
    requires few { shards ≤ 64 }
    ensures { result ≡ model.shard_of shards (name_view node.now) }
{
    let sum = match node {
        Name::Iri(text) => folded(text.as_str().as_bytes()),
        Name::Source(text) => folded(text.as_str().as_bytes()),
        Name::Fresh { chunk, number } => with(with(0, *chunk), (*number % 4_294_967_296) as u32),
    };
    sum % shards
}

fn folded(bytes: &[u8]) -> u32
    ensures { result ≡ folded 0 bytes.now }
{
    let mut sum = 0u32;
    for byte in bytes {
        sum = with(sum, u32::from(*byte));
    }
    sum
}

/// The sum with one more number, in 32 bits.
fn with(sum: u32, number: u32) -> u32
    ensures { result ≡ (31 * sum + number) % 2 ^ 32 }
{
    ((31 * u64::from(sum) + u64::from(number)) % 4_294_967_296) as u32
}
