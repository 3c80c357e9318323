//! The rows of faults on small texts: each function's contract is an example. It is proved, and nothing calls it.
#![allow(dead_code)]

ghost use Rattle.std.specs.Prelude.{[], ◌∷◌, ◌++◌, codes};
ghost use Rattle.std.specs.List.{repeat};
ghost use Rattle.fault_tables.specs.declared.faults.TheConstants.{BAD_MARKUP, BAD_REFERENCE, MISMATCHED_END};
ghost use Rattle.fault_tables.specs.declared.faults.TheConstants.{NOT_UTF8, TOO_DEEP, UNSUPPORTED};
ghost use Rattle.text_fault_laws.specs.Rows.{IsLeastFault};

// A byte that begins no character, alone and after a reference that goes on.
fn texts_that_are_not_utf8()
    ensures alone { IsLeastFault (0xFF ∷ []) NOT_UTF8 0 }
    ensures later { IsLeastFault (codes "<a>&x" ++ 0xFF ∷ []) NOT_UTF8 5 }
{}

// No bytes, a start tag that does not end, the name of an attribute twice, and 32 elements that do not end.
fn texts_with_bad_markup()
    ensures nothing { IsLeastFault [] BAD_MARKUP 0 }
    ensures start { IsLeastFault (codes "<a") BAD_MARKUP 2 }
    ensures twice { IsLeastFault (codes "<a b=\"1\" b=\"2\"/>") BAD_MARKUP 9 }
    ensures inside { IsLeastFault (repeat 32 (codes "<a>")) BAD_MARKUP 96 }
{}

fn an_end_tag_with_another_name()
    ensures { IsLeastFault (codes "<a></b>") MISMATCHED_END 3 }
{}

// A name that is no entity's, and a number that gives no character.
fn texts_with_bad_references()
    ensures name { IsLeastFault (codes "<a>&x;</a>") BAD_REFERENCE 3 }
    ensures number { IsLeastFault (codes "<a>&#0;</a>") BAD_REFERENCE 3 }
{}

// A document type, a `:` in a name, and an instruction after the outermost element.
fn texts_with_other_markup()
    ensures document { IsLeastFault (codes "<!DOCTYPE a><a/>") UNSUPPORTED 0 }
    ensures colon { IsLeastFault (codes "<a:b/>") UNSUPPORTED 2 }
    ensures instruction { IsLeastFault (codes "<?xml version=\"1.0\"?><a/><?x?>") UNSUPPORTED 25 }
{}

fn an_element_inside_of_thirty_two()
    ensures { IsLeastFault (repeat 33 (codes "<a>")) TOO_DEEP 96 }
{}
