//! Laws of the definitions that contracts cite. Each function does nothing, and its contract is one
//! law: a caller has it in its proof by calling the function.
ghost use Rattle.std.specs.Prelude.{◌≡◌, ◌↔◌, ◌⊎◌, ℕ, ◌+◌, ◌<◌};
ghost use Rattle.std.specs.Prelude.{◌≤◌, ◌^◌, List, ◌++◌, length, take};
ghost use Rattle.std.specs.Prelude.{nat_eq, true, Some, Ok};
ghost use Rattle.std.specs.Ordering.{nat_cmp, ordering_reverse};
ghost use Rattle.std.specs.Cmp.Lexicographic.{pointwise, slice_cmp};
ghost use Rattle.std.specs.declared.cmp.Ordering.TheVariants.{Less, Equal};
ghost use Rattle.byteorder.specs.Endian.{little_bytes, little_number};
ghost use Rattle.sst_base.specs.Bytes.{IsBytes};
ghost use Rattle.sst_base.specs.Varint.{IsVarint, varint, varint_at};
ghost use Rattle.sst_base.specs.ValueType.{value_type_byte, value_type_of};
ghost use Rattle.sst_base.specs.BlockType.{block_type_byte, block_type_of};
ghost use Rattle.sst_base.specs.Key.{Key};
ghost use Rattle.sst_base.specs.Order.{key_cmp};
ghost use Rattle.sst_base.specs.Block.{BlockParts};
ghost use Rattle.sst_base.specs.BlockHandle.{HandleParts, handle_bytes, handle_at};
ghost use Rattle.sst_base.specs.Frame.{frame_block, frame, frame_at, frame_in};
ghost use Rattle.sst_base.specs.Header.{IsHeader, header, header_at};
ghost use Rattle.sst_base.specs.declared.value_type.ValueType.{ValueType};
ghost use Rattle.sst_base.specs.declared.table.block.block_type.BlockType.{BlockType};
ghost use Rattle.sst_base.specs.declared.table.block.header.Header.{Header};

/// The varint of a number below 2^64 meets the grammar of varints.
pub fn varint_meets_grammar()
    ensures { (n : ℕ) → n < 2 ^ 64 → IsVarint (varint n) n }
{}

/// No encoding of a number is a proper prefix of another.
pub fn varints_are_prefix_free()
    ensures { (a b x y : List ℕ) (m n : ℕ) → IsVarint a m → IsVarint b n
        → a ++ x ≡ b ++ y
        → (a ≡ b) × (m ≡ n) }
{}

/// A number has one encoding.
pub fn varints_are_unique()
    ensures { (a b : List ℕ) (n : ℕ) → IsVarint a n → IsVarint b n → a ≡ b }
{}

/// A varint is decoded again at each width that holds its number, whatever follows it.
pub fn varint_is_read_again()
    ensures { (bits n : ℕ) (rest : List ℕ) → n < 2 ^ bits → n < 2 ^ 64
        → varint_at bits (varint n ++ rest) ≡ Some (n, length (varint n)) }
{}

/// Where a varint is decoded, the bytes begin with it, and the width holds its number.
pub fn varint_was_written()
    ensures { (bytes : List ℕ) (bits n len : ℕ) → IsBytes bytes → bits ≤ 64
        → varint_at bits bytes ≡ Some (n, len)
        → (take len bytes ≡ varint n) × (n < 2 ^ bits) × (len ≤ length bytes) }
{}

/// Bytes are those of the number that they encode.
pub fn fixed_number_was_written()
    ensures { (width : ℕ) (bytes : List ℕ) → IsBytes bytes → width ≤ length bytes
        → little_bytes width (little_number width bytes) ≡ take width bytes }
{}

/// The value type of a value type's byte is that type.
pub fn value_type_is_read_again()
    ensures { (t : ValueType) → value_type_of (value_type_byte t) ≡ Some t }
{}

/// A byte that has a value type is that type's byte.
pub fn value_type_was_written()
    ensures { (byte : ℕ) (t : ValueType) → value_type_of byte ≡ Some t
        → byte ≡ value_type_byte t }
{}

/// The block type of a block type's byte is that type.
pub fn block_type_is_read_again()
    ensures { (t : BlockType) → block_type_of (block_type_byte t) ≡ Ok t }
{}

/// A byte that has a block type is that type's byte.
pub fn block_type_was_written()
    ensures { (byte : ℕ) (t : BlockType) → block_type_of byte ≡ Ok t
        → byte ≡ block_type_byte t }
{}

/// A header is decoded again, whatever follows it.
pub fn header_is_read_again()
    ensures { (hash128 : List ℕ → ℕ) (h : Header) (rest : List ℕ) → IsHeader h
        → header_at hash128 (header hash128 h ++ rest) ≡ Ok (h, rest) }
{}

/// Where a header is decoded, it is within its limits, and the bytes begin with it.
pub fn header_was_written()
    ensures { (hash128 : List ℕ → ℕ) (bytes : List ℕ) (h : Header) (rest : List ℕ)
        → IsBytes bytes
        → header_at hash128 bytes ≡ Ok (h, rest)
        → IsHeader h × (bytes ≡ header hash128 h ++ rest) }
{}

/// A header takes 33 bytes.
pub fn header_takes_33_bytes()
    ensures { (hash128 : List ℕ → ℕ) (h : Header) → length (header hash128 h) ≡ 33 }
{}

/// A frame takes 33 bytes more than its payload.
pub fn frame_takes_33_bytes_more()
    ensures { (hash128 : List ℕ → ℕ) (t : BlockType) (payload : List ℕ)
        → length (frame hash128 t payload) ≡ 33 + length payload }
{}

/// A frame is read again, whatever follows it.
pub fn frame_is_read_again()
    ensures { (hash128 : List ℕ → ℕ) (t : BlockType) (payload rest : List ℕ)
        → length payload < 2 ^ 32 → hash128 payload < 2 ^ 128
        → frame_at hash128 (frame hash128 t payload ++ rest)
        ≡ Ok (frame_block hash128 t payload, rest) }
{}

/// Where a frame is read, the bytes begin with the frame of its payload.
pub fn frame_was_written()
    ensures { (hash128 : List ℕ → ℕ) (bytes : List ℕ) (b : BlockParts) (rest : List ℕ)
        → IsBytes bytes → frame_at hash128 bytes ≡ Ok (b, rest)
        → (bytes ≡ frame hash128 b.header.block_type b.payload ++ rest)
        × (b ≡ frame_block hash128 b.header.block_type b.payload)
        × (length b.payload < 2 ^ 32) }
{}

/// A frame in memory is read again.
pub fn whole_frame_is_read_again()
    ensures { (hash128 : List ℕ → ℕ) (t : BlockType) (payload : List ℕ)
        → length payload < 2 ^ 32 → hash128 payload < 2 ^ 128
        → frame_in hash128 (frame hash128 t payload) ≡ Ok (frame_block hash128 t payload) }
{}

/// Where bytes are read as a frame, they are the frame of its payload.
pub fn whole_frame_was_written()
    ensures { (hash128 : List ℕ → ℕ) (bytes : List ℕ) (b : BlockParts)
        → IsBytes bytes → frame_in hash128 bytes ≡ Ok b
        → (bytes ≡ frame hash128 b.header.block_type b.payload)
        × (b ≡ frame_block hash128 b.header.block_type b.payload)
        × (length b.payload < 2 ^ 32) }
{}

/// A handle is read again, whatever follows it.
pub fn handle_is_read_again()
    ensures { (h : HandleParts) (rest : List ℕ) → h.offset < 2 ^ 64 → h.size < 2 ^ 32
        → handle_at (handle_bytes h ++ rest) ≡ Ok (h, rest) }
{}

/// Where a handle is read, it is within its widths, and the bytes begin with it.
pub fn handle_was_written()
    ensures { (bytes : List ℕ) (h : HandleParts) (rest : List ℕ) → IsBytes bytes
        → handle_at bytes ≡ Ok (h, rest)
        → (bytes ≡ handle_bytes h ++ rest) × (h.offset < 2 ^ 64) × (h.size < 2 ^ 32) }
{}

/// An internal key sorts before another exactly if its user key is less, or the same and its
/// sequence number greater.
pub fn key_sorts_before()
    ensures { (a b : Key) → (key_cmp a b ≡ Less)
        ↔ ((slice_cmp nat_cmp a.user_key b.user_key ≡ Less)
        ⊎ ((a.user_key ≡ b.user_key) × (b.seqno < a.seqno))) }
{}

/// Two internal keys are equal exactly if their user keys and sequence numbers are, whatever their
/// value types.
pub fn keys_are_equal()
    ensures { (a b : Key) → (key_cmp a b ≡ Equal)
        ↔ ((a.user_key ≡ b.user_key) × (a.seqno ≡ b.seqno)) }
{}

/// The order of internal keys is antisymmetric.
pub fn key_order_is_antisymmetric()
    ensures { (a b : Key) → key_cmp a b ≡ ordering_reverse (key_cmp b a) }
{}

/// The order of internal keys is transitive.
pub fn key_order_is_transitive()
    ensures { (a b c : Key) → key_cmp a b ≡ Less → key_cmp b c ≡ Less
        → key_cmp a c ≡ Less }
{}

/// Equal internal keys compare alike with every other.
pub fn equal_keys_compare_alike()
    ensures { (a b c : Key) → key_cmp a b ≡ Equal → key_cmp a c ≡ key_cmp b c }
{}

/// Byte strings that compare equal are the same.
pub fn bytes_are_equal_in_order()
    ensures { (a b : List ℕ) → (slice_cmp nat_cmp a b ≡ Equal) ↔ (a ≡ b) }
{}

/// Byte strings that `==` finds equal are the same.
pub fn bytes_are_equal()
    ensures { (a b : List ℕ) → (pointwise nat_eq a b ≡ true) ↔ (a ≡ b) }
{}
