//! Value types.
ghost use Rattle.std.specs.Prelude.{◌≡◌, ◌↔◌, IsTrue};
ghost use Rattle.std.specs.Option.{ok_or};
ghost use Rattle.sst_base.specs.ValueType.{IsTombstone, value_type_byte, value_type_of};

use std::marker::Model;

/// The value type of an entry. Its byte in a block is given beside each.
#[derive(Clone, Copy, Debug, PartialEq, Eq)]
pub enum ValueType {
    /// A value. Byte 0.
    Value,
    /// The key is deleted, with all older versions. Byte 1.
    Tombstone,
    /// The newest older version of the key is deleted. Byte 2.
    WeakTombstone,
    /// The value is an indirection: it names the place of the key's value. Byte 4.
    Indirection,
}

impl ValueType {
    /// Returns whether an entry of this type is a tombstone of either kind, and so has no value.
    pub fn is_tombstone(self) -> bool
        ensures { IsTrue result ↔ IsTombstone self }
    {
        matches!(self, ValueType::Tombstone | ValueType::WeakTombstone)
    }
}

/// The value type of a byte: 0, 1, 2 or 4.
impl TryFrom<u8> for ValueType {
    type Error = ();

    ghost try_from_gives = { λ byte r. r ≡ ok_or (value_type_of byte) tt };

    fn try_from(byte: u8) -> Result<ValueType, ()> {
        match byte {
            0 => Ok(ValueType::Value),
            1 => Ok(ValueType::Tombstone),
            2 => Ok(ValueType::WeakTombstone),
            4 => Ok(ValueType::Indirection),
            _ => Err(()),
        }
    }
}

/// The byte of a value type.
impl From<ValueType> for u8 {
    ghost from_gives = { λ value_type byte. byte ≡ value_type_byte value_type };

    fn from(value_type: ValueType) -> u8 {
        match value_type {
            ValueType::Value => 0,
            ValueType::Tombstone => 1,
            ValueType::WeakTombstone => 2,
            ValueType::Indirection => 4,
        }
    }
}

/// A value type that fills a whole word. Clauses see the value type.
///
/// It is for the fields of entries: beside a type of one byte lie seven bytes of padding, and each
/// move of an entry would copy them in pieces that overlap.
#[derive(Drop)]
pub struct TypeWord {
    // the byte of the type
    word: u64,
}

impl Model for TypeWord {
    ghost use Rattle.sst_base.specs.ValueType.{type_of_word};
    ghost use Rattle.sst_base.specs.declared.value_type.ValueType.{ValueType};

    ghost Value = { ValueType };

    ghost view = { λ t. type_of_word t.word };
}

impl TypeWord {
    /// Makes the word of a value type.
    #[inline(always)]
    pub fn new(value_type: ValueType) -> TypeWord
        ensures { result ≡ value_type }
    {
        TypeWord {
            word: u64::from(u8::from(value_type)),
        }
    }

    /// Returns a copy.
    #[inline(always)]
    pub fn again(&self) -> TypeWord
        ensures { result ≡ self.now }
    {
        TypeWord { word: self.word }
    }

    /// Returns the value type.
    #[inline(always)]
    pub fn get(&self) -> ValueType
        ensures { result ≡ self.now }
    {
        match self.word {
            1 => ValueType::Tombstone,
            2 => ValueType::WeakTombstone,
            4 => ValueType::Indirection,
            _ => ValueType::Value,
        }
    }
}
