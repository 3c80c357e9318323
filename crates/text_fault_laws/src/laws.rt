//! Laws of the definitions. Nothing calls them, since it is the check that shows them.

ghost use Rattle.std.specs.Prelude.{ℕ, ◌≡◌, List};
ghost use Rattle.xhstt_text.specs.Document.{Rows, Spelled, Spells};
ghost use Rattle.xhstt_text.specs.FirstFault.{IsFirstFault};
ghost use Rattle.xhstt_text.specs.Forest.{Forest};
ghost use Rattle.fault_tables.specs.declared.faults.TheConstants.{BAD_MARKUP, NOT_UTF8};
ghost use Rattle.text_fault_laws.specs.Fronts.{IsFront};
ghost use Rattle.text_fault_laws.specs.Rows.{IsLeastFault};

// Whatever the bytes, they spell at most one table of rows.
fn one_table_is_spelled()
    ensures { (bytes : List ℕ) (found other : Rows) → Spells bytes found → Spells bytes other → found ≡ other }
{}

// And at most one forest of elements.
fn one_forest_is_spelled()
    ensures { (bytes : List ℕ) (found other : Forest) → Spelled bytes found → Spelled bytes other → found ≡ other }
{}

// The first fault of bytes, which the reader answers, is one of the rows of the table of faults. No other row has
// a fault at an earlier place, nor one at the same place that comes before it.
fn the_first_fault_is_the_least_row()
    ensures { (bytes : List ℕ) (kind at : ℕ) → IsFirstFault bytes kind at → IsLeastFault bytes kind at }
{}

// And such a row is the first fault.
fn the_least_row_is_the_first_fault()
    ensures { (bytes : List ℕ) (kind at : ℕ) → IsLeastFault bytes kind at → IsFirstFault bytes kind at }
{}

// Bytes that some text begins with have no first fault of another kind than bad markup, once they are UTF-8.
fn the_beginning_of_a_text_has_no_other_fault()
    ensures { (bytes : List ℕ) (kind at : ℕ) → IsFront bytes → IsFirstFault bytes kind at → (kind ≡ NOT_UTF8 → ⊥)
        → (kind ≡ BAD_MARKUP → ⊥) → ⊥ }
{}
