//! Laws over the definitions: the functions do nothing, the contract of each is a law.
ghost use Rattle.std.specs.Prelude.{◌≡◌, ◌++◌, [], ℕ, List, length};
ghost use Rattle.fsd_bytes.specs.declared.key.Serial.{Serial};
ghost use Rattle.std.specs.List.{concat, flat_map};
ghost use Rattle.fsd_dumps.specs.Dump.{Dumped, IsDump, IsDumpOf, dump_bytes, dump_parts, end_bytes, front_bytes, head_bytes, item_bytes};

/// Bytes are the dump of one list of versions at most, and no dump begins another.
pub fn dumps_are_read_one_way()
    ensures versions { (bytes : List ℕ) (items others : List Dumped) → IsDumpOf items bytes → IsDumpOf others bytes → items ≡ others }
    ensures ends { (bytes more : List ℕ) → IsDump bytes → IsDump (bytes ++ more) → more ≡ [] }
{}

/// A dump is its head, each version's front and own bytes, and its end.
pub fn dumps_are_said_in_parts()
    ensures version { (x : Dumped) → item_bytes x ≡ front_bytes x ++ x.bytes }
    ensures parts { (latest : Serial) (items : List Dumped) → concat (dump_parts latest items) ≡ dump_bytes latest items }
    ensures whole { (latest : Serial) (items : List Dumped) → dump_bytes latest items ≡ head_bytes (length items) latest ++ (flat_map item_bytes items ++ end_bytes (length items)) }
{}
