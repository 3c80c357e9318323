//! What holds of the definitions alone. Each function's contract is a law: it is proved, and nothing
//! calls it.
#![allow(dead_code)]

ghost use Rattle.std.specs.Prelude.{◌≡◌, Ok};
ghost use Rattle.xhstt_text.specs.Handles.{Standing};
ghost use Rattle.xhstt_shape.specs.Present.{IsWhole};
ghost use Rattle.xhstt_shape.specs.Walk.{fault_of};
ghost use Rattle.xhstt_shape.specs.declared.schema.Row.{Row};

// In an element without a fault all is read that must be there, and so in every element inside it: no
// value stands in for one that is missing.
fn nothing_is_missing()
    ensures { (r : Row) (e : Standing) → fault_of r e ≡ Ok tt → IsWhole r e }
{}
