//! What the cells of a memory are.

ghost use Rattle.std.specs.Prelude.{◌≡◌};
ghost use Rattle.clause_memory.specs.Code.Cells.{kind_at};

/// What a cell of four words is.
#[derive(Clone, Copy)]
pub(crate) enum Kind {
    /// The block of a clause begins here.
    Live,
    /// A block that is free begins here.
    Free,
    /// It goes on with the block of the cell before.
    Rest,
}

/// What the cell with this number is; past the last none begins a block.
pub(crate) fn kind_of(kinds: &[Kind], cell: usize) -> Kind
    ensures { result ≡ kind_at kinds.now cell }
{
    match kinds.get(cell) {
        Some(kind) => *kind,
        None => Kind::Rest,
    }
}
