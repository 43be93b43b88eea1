// What an encoder writes to.
ghost use Rattle.std.specs.Prelude.{◌≡◌, ◌+◌, ◌<◌, ◌++◌, ◌∷◌, List, Bool, true, length, OnOk, IsErr};
ghost use Rattle.nd_value.specs.Seen.{cell_number};
ghost use Rattle.nd_flat.specs.FlatForm.{IsRow, row_numbers};
ghost use Rattle.ndr_encoder_laws.specs.pieces.Pieces.{Piece, Gap, Figure, Name, Raw, Handle, four, row_pieces};
ghost use Rattle.ndr_encoder_output.specs.Outputs.{Whole, Moves, Able};

use nd_base::Memory;
use nd_flat::Row;
use nd_types::Prim;
use nd_value::CellId;
use uuid::Uuid;

/// Takes the pieces of a stream in their order (C706 sections 14.2 and 14.3). Each call takes the pieces that come next, and the output must be able
/// to take them. Only `name` may be refused memory.
pub trait Output {
    /// Whether it can take these pieces.
    ghost can: { Self → List Piece → Type 0 };

    /// What it comes to if these pieces follow.
    ghost whole: { Self → List Piece → Whole };

    /// Whether it may be refused memory.
    ghost may_fail: { Bool };

    /// A gap to a multiple of so many octets.
    fn gap(&mut self, to: u8)
        requires { (qs : List Piece) × Able can self.old (Gap to ∷ qs) }
        ensures { (qs : List Piece) → Moves can whole self.old self.new (Gap to ∷ qs) qs };

    /// A number of a primitive.
    fn figure(&mut self, prim: Prim, value: i128)
        requires { (qs : List Piece) × Able can self.old (Figure prim value ∷ qs) }
        ensures { (qs : List Piece) → Moves can whole self.old self.new (Figure prim value ∷ qs) qs };

    /// A count: an unsigned long.
    fn four(&mut self, value: u32)
        requires { (qs : List Piece) × Able can self.old (four value ∷ qs) }
        ensures { (qs : List Piece) → Moves can whole self.old self.new (four value ∷ qs) qs };

    /// The actual count of a string with its terminator, and its octets.
    fn text(&mut self, octets: &[u8])
        requires { (qs : List Piece) × Able can self.old (four (length octets.now + 1) ∷ Raw octets.now ∷ qs) }
        ensures { (qs : List Piece) → Moves can whole self.old self.new (four (length octets.now + 1) ∷ Raw octets.now ∷ qs) qs };

    /// Numbers that are kept side by side, as numbers of a primitive, each with its gap. There is one at least.
    fn row(&mut self, prim: Prim, row: &Row<'_>)
        requires whole { IsRow row.now }
        requires some { 0 < row.now.count }
        requires able { (qs : List Piece) × Able can self.old (row_pieces prim (row_numbers row.now) ++ qs) }
        ensures { (qs : List Piece) → Moves can whole self.old self.new (row_pieces prim (row_numbers row.now) ++ qs) qs };

    /// A context handle.
    fn handle(&mut self, attributes: u32, id: Uuid)
        requires { (qs : List Piece) × Able can self.old (Handle attributes id ∷ qs) }
        ensures { (qs : List Piece) → Moves can whole self.old self.new (Handle attributes id ∷ qs) qs };

    /// The number of a pointer: null, or the cell that it names, with the address of the whole run of its referent's type.
    fn name(&mut self, cell: Option<CellId>, run: u32) -> Result<(), Memory>
        requires { (qs : List Piece) × Able can self.old (Name (cell_number cell) run ∷ qs) }
        ensures moves { OnOk result ((qs : List Piece) → Moves can whole self.old self.new (Name (cell_number cell) run ∷ qs) qs) }
        ensures fails { IsErr result → may_fail ≡ true };
}
