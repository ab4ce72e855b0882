// The items of a list of literals, of eight bytes each.

/// An item of a list of literals. The list keeps the bytes of texts, and the literals that fit no item, beside its items.
#[derive(Clone, Copy)]
pub enum PackedLiteral {
    Null,
    /// A number of 32 bits.
    Int(i32),
    /// A text of so many bytes.
    Text(u32),
    /// A number of more bits, or a uuid.
    Other,
}
